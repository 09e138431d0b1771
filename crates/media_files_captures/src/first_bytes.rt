//! Protocols sharing one port, distinguished by their first bytes (RFC 7983 7, RFC 5761 4).

ghost use Rattle.std.specs.Prelude.{◌≡◌, ◌≢◌, ◌⊎◌, ◌↔◌, IsTrue};
ghost use Rattle.media_files_captures.specs.FirstBytes.{IsByteWithin};

/// The protocol of a datagram.
#[derive(Debug, Clone, Copy, PartialEq, Eq)]
pub enum DatagramKind {
    /// A message of STUN (RFC 8489).
    Stun,
    /// A message of ZRTP (RFC 6189).
    Zrtp,
    /// A record of DTLS (RFC 9147).
    Dtls,
    /// A message on a channel of TURN (RFC 8656 12).
    TurnChannel,
    /// A packet of RTP (RFC 3550 5).
    Rtp,
    /// A packet of RTCP (RFC 3550 6).
    Rtcp,
    /// None of these.
    Other,
}

/// The protocol of a datagram by its first byte (RFC 7983 7); RTP and RTCP by the second: RTCP
/// packet types are 192 to 223, values that RTP payload types avoid on a shared port (RFC 5761 4).
/// A datagram of one byte is neither.
pub fn kind_of(datagram: &[u8]) -> DatagramKind
    ensures stun { (result ≡ DatagramKind.Stun) ↔ IsByteWithin datagram.now 0 0 3 }
    ensures zrtp { (result ≡ DatagramKind.Zrtp) ↔ IsByteWithin datagram.now 0 16 19 }
    ensures dtls { (result ≡ DatagramKind.Dtls) ↔ IsByteWithin datagram.now 0 20 63 }
    ensures turn_channel { (result ≡ DatagramKind.TurnChannel) ↔ IsByteWithin datagram.now 0 64 79 }
    ensures rtcp { (result ≡ DatagramKind.Rtcp)
        ↔ (IsByteWithin datagram.now 0 128 191 × IsByteWithin datagram.now 1 192 223) }
    ensures rtp { (result ≡ DatagramKind.Rtp)
        ↔ (IsByteWithin datagram.now 0 128 191
        × (IsByteWithin datagram.now 1 0 191 ⊎ IsByteWithin datagram.now 1 224 255)) }
{
    if datagram.is_empty() {
        return DatagramKind::Other;
    }
    match datagram[0] {
        0..=3 => DatagramKind::Stun,
        16..=19 => DatagramKind::Zrtp,
        20..=63 => DatagramKind::Dtls,
        64..=79 => DatagramKind::TurnChannel,
        128..=191 => media_kind(datagram),
        _ => DatagramKind::Other,
    }
}

/// Whether a datagram of RTP or RTCP is which, by its second byte.
fn media_kind(datagram: &[u8]) -> DatagramKind
    ensures rtcp { (result ≡ DatagramKind.Rtcp) ↔ IsByteWithin datagram.now 1 192 223 }
    ensures rtp { (result ≡ DatagramKind.Rtp)
        ↔ (IsByteWithin datagram.now 1 0 191 ⊎ IsByteWithin datagram.now 1 224 255) }
    ensures no_other { (result ≢ DatagramKind.Stun) × (result ≢ DatagramKind.Zrtp) × (result ≢ DatagramKind.Dtls)
        × (result ≢ DatagramKind.TurnChannel) }
{
    if datagram.len() < 2 {
        return DatagramKind::Other;
    }
    match datagram[1] {
        192..=223 => DatagramKind::Rtcp,
        _ => DatagramKind::Rtp,
    }
}

/// Whether a file is compressed by gzip (RFC 1952 2.3.1), and so no capture before it is unpacked.
pub fn is_gzip(file: &[u8]) -> bool
    ensures { IsTrue result ↔ (IsByteWithin file.now 0 31 31 × IsByteWithin file.now 1 139 139) }
{
    file.len() >= 2 && file[0] == 0x1f && file[1] == 0x8b
}
