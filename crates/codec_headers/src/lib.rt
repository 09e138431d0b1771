//! What codecs say of a stream in front of its pictures: parameter sets, sequence headers and key frames.
#![tactic(auto)]

mod av1;
mod av1_color;
mod bits;
mod h264;
mod h265;
mod nal;
mod picture;
mod rows;
mod vp8;
mod vp9;

pub use av1::{Av1Level, Av1Sequence, av1_sequence};
pub use av1_color::{Av1Chroma, Av1Color};
pub use bits::Bits;
pub use h264::h264_size;
pub use h265::{HevcLayers, HevcProfile, HevcSequence, hevc_sequence};
pub use nal::nal_payload;
pub use picture::PictureSize;
pub use rows::{av1_rows, h264_rows, hevc_rows, vpx_rows};
pub use vp8::vp8_size;
pub use vp9::vp9_size;
