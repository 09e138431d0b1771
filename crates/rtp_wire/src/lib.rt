//! RTP on the wire: numbers, the replay window and media times, header extensions (RFC 8285), headers (RFC 3550) and
//! repairs (RFC 4588).
#![tactic(auto)]

mod block_reading;
mod block_writing;
mod blocks;
mod clock_rate;
mod direction;
mod element;
mod extension;
mod frequency;
mod header;
mod iteration;
mod laws;
mod lengths;
mod map;
mod media_time;
mod names;
mod numbers;
mod original_number;
mod padding;
mod reading;
mod repairs;
mod repairs_laws;
mod run;
mod sequence;
mod value_laws;
mod value_writing;
mod values;
mod widening;
mod window;
mod writing;

pub use block_reading::set_value;
pub use blocks::block_laws;
pub use clock_rate::ClockRate;
pub use direction::{Direction, direction_laws};
pub use element::{ElementBytes, value_bytes};
pub use extension::{Extension, Uri};
pub use frequency::{Frequency, ParseFrequencyError};
pub use header::RtpHeader;
pub use iteration::ExtensionMapIter;
pub use laws::{header_laws, padding_laws};
pub use lengths::value_len;
pub use map::{ExtensionMap, ExtensionsForm, MAX_ID, MAX_ID_ONE_BYTE_FORM};
pub use media_time::MediaTime;
pub use names::{Mid, Rid};
pub use numbers::{Pt, SessionId, Ssrc};
pub use padding::unpad_payload;
pub use repairs::{repair_of, wrapped_in};
pub use repairs_laws::repair_laws;
pub use run::{Reception, receive_one, receive_run};
pub use sequence::SeqNo;
pub use value_laws::{widening_laws, window_laws};
pub use value_writing::put;
pub use values::{AbsCaptureTime, ExtensionValues, VideoOrientation};
pub use widening::{extend_u7, extend_u8, extend_u15, extend_u16, extend_u32};
pub use window::SeqNoWindow;
