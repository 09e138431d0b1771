//! The payload types of a stream's row, and whose datagrams are its own.

ghost use Rattle.std.specs.Prelude.{◌≡◌};
ghost use Rattle.rtp_media_streams.specs.Types.{has_type, has_red_key, has_repair_key, is_key_of, is_plain_key};
ghost use Rattle.rtp_media_streams.specs.Types.{is_repair_key, is_type, share_key};

use rtp_wire::{Pt, Ssrc};

/// The SSRC and the payload type under which the repairs of a stream's datagrams come (RFC 4588 4).
#[derive(Clone, Copy, Drop)]
pub struct RepairKey {
    /// The SSRC.
    pub ssrc: Ssrc,
    /// The payload type.
    pub pt: Pt,
}

/// The payload types of a stream's row (RFC 3550 5.1): its own and, if it has one, that of its
/// redundancy (RFC 2198); and the SSRC and type of its repairs, if it has them.
#[derive(Clone, Copy, Drop)]
pub struct PayloadTypes {
    /// The row's own type.
    pub pt: Pt,
    /// The type of its redundancy.
    pub red: Option<Pt>,
    /// The SSRC and the type of its repairs.
    pub repair: Option<RepairKey>,
}

/// Whether this is the type, if there is one.
fn is_type(type_of: Option<Pt>, pt: Pt) -> bool
    ensures { result ≡ is_type type_of pt }
{
    match type_of {
        Some(type_of) => type_of.get() == pt.get(),
        None => false,
    }
}

/// Whether repairs come under this SSRC and this type.
fn is_repair_key(repair: Option<RepairKey>, ssrc: Ssrc, pt: Pt) -> bool
    ensures { result ≡ is_repair_key repair ssrc pt }
{
    match repair {
        Some(key) => key.ssrc.get() == ssrc.get() && key.pt.get() == pt.get(),
        None => false,
    }
}

impl PayloadTypes {
    /// Whether one of the two types under the stream's own SSRC is this.
    pub fn has(&self, pt: Pt) -> bool
        ensures { result ≡ has_type self.now pt }
    {
        self.pt.get() == pt.get() || is_type(self.red, pt)
    }

    /// Whether an SSRC and a payload type are those of this stream's datagrams, retransmissions
    /// excluded.
    pub fn is_plain_key(&self, own: Ssrc, ssrc: Ssrc, pt: Pt) -> bool
        ensures { result ≡ is_plain_key own self.now ssrc pt }
    {
        own.get() == ssrc.get() && self.has(pt)
    }

    /// The same, retransmissions included.
    pub fn is_key(&self, own: Ssrc, ssrc: Ssrc, pt: Pt) -> bool
        ensures { result ≡ is_key_of own self.now ssrc pt }
    {
        self.is_plain_key(own, ssrc, pt) || is_repair_key(self.repair, ssrc, pt)
    }

    fn has_red_key(&self, own: Ssrc, ssrc: Ssrc, red: Option<Pt>) -> bool
        ensures { result ≡ has_red_key own self.now ssrc red }
    {
        match red {
            Some(red) => self.is_key(own, ssrc, red),
            None => false,
        }
    }

    fn has_repair_key(&self, own: Ssrc, repair: Option<RepairKey>) -> bool
        ensures { result ≡ has_repair_key own self.now repair }
    {
        match repair {
            Some(key) => self.is_key(own, key.ssrc, key.pt),
            None => false,
        }
    }

    /// Whether a stream of this SSRC and these types and one of the other SSRC and the other types have an SSRC and a
    /// type in common.
    pub fn share_key(&self, own: Ssrc, ssrc: Ssrc, others: &PayloadTypes) -> bool
        ensures { result ≡ share_key own self.now ssrc others.now }
    {
        self.is_key(own, ssrc, others.pt)
            || self.has_red_key(own, ssrc, others.red)
            || self.has_repair_key(own, others.repair)
    }
}
