//! What calls return, as numbers.

/// The call did what it says.
pub const OK: u32 = 0;
/// Out of memory.
pub const MEMORY: u32 = 1;
/// The handle holds an object already.
pub const IN_USE: u32 = 2;
/// The handle holds no object.
pub const CLOSED: u32 = 3;
/// The bytes don't begin with an RTP header (RFC 3550 5.1).
pub const UNREADABLE: u32 = 4;
/// The padding does not fit, or an end finds no payload in the datagram (RFC 3550 5.1, RFC 2198 3).
pub const DAMAGED: u32 = 5;
/// The sequence number came before, or is 1,024 or more below the greatest.
pub const REFUSED: u32 = 6;
/// A payload type above 127, or more than 15 contributing sources.
pub const UNWRITABLE: u32 = 7;
/// The buffer is too small.
pub const TOO_SMALL: u32 = 8;
/// The bytes are no UTF-8.
pub const NOT_TEXT: u32 = 9;
/// A number is outside the range documented for it, or the codec has no payload format.
pub const OUT_OF_RANGE: u32 = 10;
/// The end was not made yet.
pub const NOT_MADE: u32 = 11;
/// There is nothing of that kind.
pub const NOTHING: u32 = 12;
/// No receiving stream has the SSRC and payload type of the datagram.
pub const FOREIGN: u32 = 13;
/// No stream of that direction has this number.
pub const NO_STREAM: u32 = 14;
/// A row is of a kind that an end can't agree on.
pub const ROW_NOT_PLAIN: u32 = 15;
/// A payload type is used for two things.
pub const TYPES_NOT_DISTINCT: u32 = 16;
/// The text of an offer or an answer, or the URI of a header extension, can't be written.
pub const NOT_WRITABLE: u32 = 17;
/// The text isn't that of an offer or an answer.
pub const TEXT_UNREADABLE: u32 = 18;
/// An offer is pending, or none is.
pub const OUT_OF_TURN: u32 = 19;
/// A section of the text is no media.
pub const NOT_MEDIA: u32 = 20;
/// The sections don't correspond.
pub const NOT_CORRESPONDING: u32 = 21;
/// Negotiating the rows with the other end's failed.
pub const ROUND: u32 = 22;
/// A section would list no row.
pub const NO_COMMON_ROW: u32 = 23;
/// No section of this name is agreed.
pub const NO_SECTION: u32 = 24;
/// No row of this type is agreed.
pub const ROW_NOT_AGREED: u32 = 25;
/// The end's own row differs from the agreed one.
pub const ROW_DIFFERS: u32 = 26;
/// The section does not flow this way.
pub const WRONG_DIRECTION: u32 = 27;
/// The sender's section doesn't name this SSRC.
pub const SSRC_NOT_NAMED: u32 = 28;
/// Such a stream is open already.
pub const ALREADY_OPEN: u32 = 29;
/// The stream sends no more.
pub const STREAM_FAILED: u32 = 30;
/// The time does not fit 64 bits at the stream's clock.
pub const TIME_TOO_LARGE: u32 = 31;
/// A datagram would pass the limit.
pub const LIMIT_TOO_SMALL: u32 = 32;
/// The codec refuses the sample or the payload.
pub const PAYLOAD: u32 = 33;
/// The packet is too short for its format.
pub const PACKET_TOO_SHORT: u32 = 34;
/// The sample can't be cut, and exceeds the limit.
pub const SAMPLE_TOO_LARGE: u32 = 35;
/// A VP9 descriptor lists a fourth reference (RFC 9628 4.2).
pub const TOO_MANY_REFERENCES: u32 = 36;
/// An H.265 packet breaks its format (RFC 7798 4.4).
pub const H265_CORRUPTED: u32 = 37;
/// An H.266 packet breaks its format (RFC 9328 4.3).
pub const H266_CORRUPTED: u32 = 38;
/// An aggregated unit passes the end of its packet (RFC 6184 5.7.1).
pub const AGGREGATE_CUT_SHORT: u32 = 39;
/// Packets with this NAL unit type are not supported (RFC 6184 5.2, RFC 7798 4.2, RFC 9328 4.2).
pub const UNIT_TYPE_NOT_HANDLED: u32 = 40;
/// A VP8 descriptor breaks its format (RFC 7741 4.2).
pub const VP8_CORRUPTED: u32 = 41;
/// A VP9 descriptor breaks its format (RFC 9628 4.2).
pub const VP9_CORRUPTED: u32 = 42;
/// An AV1 packet breaks its format.
pub const AV1_CORRUPTED: u32 = 43;
/// A redundant payload breaks its format (RFC 2198 3).
pub const RED_CORRUPTED: u32 = 44;
/// Telephone event reports are no nonempty multiple of four bytes (RFC 4733 2.3).
pub const EVENT_INVALID: u32 = 45;
/// An AMR-WB packet or sample breaks its format (RFC 4867 4.3 and 4.4).
pub const AMR_WB_CORRUPTED: u32 = 46;
/// The stream has no RTX pair, or sends redundancy (RFC 4588 8.3).
pub const NO_REPAIR: u32 = 47;
/// The datagram isn't one that the stream sent.
pub const NOT_OWN: u32 = 48;
/// The browser's text has lines that fit nowhere, and what follows them would be lost.
pub const REST_UNREAD: u32 = 49;
/// Reading changes the mid: it is longer than 16 bytes, or contains anything but ASCII letters,
/// digits and `_`.
pub const MID_NOT_KEPT: u32 = 50;
/// Two sections have the same mid.
pub const MID_TWICE: u32 = 51;
/// The browser rejects a section of the end's offer.
pub const SECTION_REJECTED: u32 = 52;
/// There are several bundles, and so several transports (RFC 9143).
pub const SEVERAL_BUNDLES: u32 = 53;
/// A section is in no bundle, and so has a transport of its own (RFC 9143).
pub const OUTSIDE_BUNDLE: u32 = 54;
/// No section is left for the end.
pub const NOTHING_LEFT: u32 = 55;
/// A section has SDES keys, but there is no fingerprint for it.
pub const KEYS_ALONE: u32 = 56;
/// The ICE ufrag isn't 4 to 256 letters, digits, `+` and `/` (RFC 8839 5.4).
pub const UFRAG_NOT_FIT: u32 = 57;
/// The ICE password isn't 22 to 256 letters, digits, `+` and `/` (RFC 8839 5.4).
pub const PASSWORD_NOT_FIT: u32 = 58;
/// This DTLS role isn't allowed here (RFC 8842 5.3).
pub const SETUP_NOT_FIT: u32 = 59;
/// The stream adds redundancy (RFC 2198), and sends no packet on.
pub const ADDS_REDUNDANCY: u32 = 60;
/// The sequence number is 2^62 or above.
pub const NUMBER_TOO_LARGE: u32 = 61;
/// The packet has no payload.
pub const NO_PAYLOAD: u32 = 62;
