//! What an end says of a datagram.

use rtp_wire::SeqNo;

/// What `End::receive` says of a datagram: the first that holds.
#[derive(Clone, Copy, Debug, PartialEq, Eq, Drop)]
pub enum Received {
    /// It doesn't begin with an RTP header (RFC 3550 5.1).
    Unreadable,
    /// No receiving stream has its SSRC and payload type.
    Foreign,
    /// Its padding is invalid, or it has no payload (RFC 3550 5.1); or, with the RED type, its
    /// blocks can't be read, or its primary payload is empty or has another payload type (RFC 2198
    /// 3).
    Damaged,
    /// Its number was taken before, or is 1,024 or more below the greatest one taken.
    Refused,
    /// The receiving stream of this number took it under this widened sequence number.
    Taken(usize, SeqNo),
}
