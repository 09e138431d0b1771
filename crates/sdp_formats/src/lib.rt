//! SDP: what WebRTC offers and answers say (RFC 8866, RFC 8829, RFC 9143, RFC 8839), read, printed
//! and copied, with methods for what sessions, sections and whole texts say. The rows that a
//! section lists, configs and rounds are here too, and the RTP types that their calls use.
#![tactic(auto)]

mod exchanged;
mod parsing;

pub use exchanged::{SdpAnswer, SdpOffer};
pub use media_types::{Codec, H265ProfileTierLevel, H266ProfileTierLevel, MediaKind};
pub use parsing::Parse;
pub use rtp_wire::{Direction, Extension, Frequency, Mid, Pt, Rid, SessionId, Ssrc};
pub use sdp_formats_data::{
    Inconsistency, MediaAttribute, MediaLine, RtpMap, Sdp, SdpError, Session, SessionAttribute,
    attribute_equality_law, bandwidth_equality_law, candidate_equality_law, is_no_stream,
    sdp_equality_law, section_equality_law, session_attribute_equality_law, session_equality_law,
    sources_of,
};
pub use sdp_formats_faults::{FaultyLine, LineFault, faulty_line};
pub use sdp_formats_grammar::{FingerprintFmt, Joined, Listed, Maybe, Refusal, Text};
pub use sdp_formats_reader::{
    fingerprint_of, is_writable_session, sdp_parser, session_parser, setup_of,
};
pub use sdp_formats_rounds::{CodecConfig, RemoteSection, RoundError, best_row, round};
pub use sdp_formats_rows::{
    CodecSpec, FormatParams, PayloadParams, scores_in_range, scores_symmetric,
};
pub use sdp_formats_section_rows::{AsMediaAttrs, FromSdpFmtp, RtpParams, ToCodecSpec, ToRtpMap};
pub use sdp_formats_values::{
    Bandwidth, Candidate, CandidateKind, Fingerprint, FingerprintError, FormatParam, IceCreds,
    MediaType, Msid, Pair, Proto, Protocol, RelatedAddress, RestrictionId, RidDirection, Setup,
    Simulcast, SimulcastGroups, SimulcastLayer, SsrcInfo, TcpType, candidate_of,
};
