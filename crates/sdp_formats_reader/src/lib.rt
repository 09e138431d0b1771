//! The reader of session texts: attribute lines, sections, whole texts.
#![tactic(auto)]

mod attribute_choice;
mod choice;
mod digest;
mod groups;
mod header;
mod keyed;
mod laws;
mod line_read_back;
mod maps;
mod media;
mod names;
mod origin_lines;
mod originator;
mod parameters;
mod parser;
mod passed;
mod restricted;
mod rids;
mod section;
mod simulcasts;
mod sources;
mod text;
mod transport;
mod whole;
mod words;
mod writable;

pub use attribute_choice::SessionAttributeLine;
pub use choice::MediaAttributeLine;
pub use digest::fingerprint_of;
pub use keyed::pairs;
pub use laws::{pairs_law, printed_pairs_law};
pub use maps::{payload_type, rtcp_fb, rtpmap};
pub use media::{HeadLine, MediaHead};
pub use origin_lines::{BandwidthLine, OriginLine};
pub use parameters::fmtp;
pub use parser::{sdp_parser, session_parser};
pub use passed::{ConnectionLine, NameLine, OtherLine, Passed, RepeatLine, TimesLine, VersionLine};
pub use restricted::restrictions;
pub use rids::rid;
pub use simulcasts::simulcast;
pub use sources::{extmap, msid, ssrc, ssrc_group};
pub use text::WholeText;
pub use transport::{TransportAttribute, transport_value, transport_word};
pub use words::setup_of;
pub use writable::is_writable_session;
