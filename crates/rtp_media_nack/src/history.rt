//! What was sent, kept to be sent again.

ghost use Rattle.std.specs.Prelude.{◌≡◌, ◌≤◌, ◌==◌, false, IfNone, IfOk, IfSome, OnErr, OnOk, ℕ, option_map};
ghost use Rattle.rtp_media_nack.specs.Histories.{IsWithin, asked, bytes_of, gone_after, is_gone, is_meant, kept};
ghost use Rattle.rtp_media_nack.specs.Histories.{newest_fitting, nothing_kept};

use std::alloc::{AllocError, Global};
use std::collections::BTreeMap;
use std::marker::Model;

/// A datagram, copied.
pub struct Copied {
    bytes: Vec<u8>,
}

/// Written by hand, so that crates that drop this type need no proof about its fields.
impl Drop for Copied {
    fn drop(self) {
        let Copied { bytes: _bytes } = self;
    }
}

impl Model for Copied {
    ghost use Rattle.std.specs.Prelude.{List, ℕ};

    ghost Value = { List ℕ };

    ghost view = { λ c. c.bytes.items };
}

impl Copied {
    fn of(alloc: Global, datagram: &[u8]) -> Result<Copied, AllocError>
        ensures { IfOk result (λ c. c ≡ datagram.now) }
    {
        let mut bytes = Vec::with_capacity(alloc, datagram.len())?;
        bytes.extend_from_slice(datagram)?;
        Ok(Copied { bytes })
    }

    /// The datagram.
    pub fn as_slice(&self) -> &[u8]
        ensures { result.now ≡ self.now }
    {
        self.bytes.as_slice()
    }
}

/// The datagrams that a stream sent last, by number, kept to be sent again when a NACK asks for them. It holds exactly
/// those with the greatest numbers that fit both bounds, in whatever order they were kept. Each call takes a time that
/// is logarithmic in how many are held; a datagram that goes was kept by one call before.
pub struct PacketHistory {
    packets: BTreeMap<u64, Copied>,
    bytes: usize,
    most: u32,
    most_bytes: u32,
    gone: Option<u64>,
}

/// Written by hand, so that crates that drop this type need no proof about its fields.
impl Drop for PacketHistory {
    fn drop(self) {
        let PacketHistory {
            packets: _packets,
            bytes: _,
            most: _,
            most_bytes: _,
            gone: _,
        } = self;
    }
}

impl Model for PacketHistory {
    ghost use Rattle.rtp_media_nack.specs.Histories.{History, IsWithin};

    ghost Value = { History };

    ghost view = { λ h. record {
      packets = h.packets.entries;
      most = h.most;
      most_bytes = h.most_bytes;
      gone = h.gone;
    } };

    ghost invariant = { λ h. IsWithin h.packets.entries h.bytes h.most h.most_bytes };
}

/// Drops the datagrams with the lowest numbers until the rest fits.
fn trim(
    packets: &mut BTreeMap<u64, Copied>,
    bytes: &mut usize,
    gone: &mut Option<u64>,
    most: u32,
    most_bytes: u32,
)
    requires counted { bytes.old ≡ bytes_of packets.old.entries }
    ensures packets { packets.new.entries ≡ newest_fitting most most_bytes packets.old.entries }
    ensures gone { gone.new ≡ gone_after most most_bytes gone.old packets.old.entries }
    ensures within { IsWithin packets.new.entries bytes.new most most_bytes }
{
    while packets.len() > most as usize || *bytes > most_bytes as usize {
        let Some((number, datagram)) = packets.pop_first() else {
            return;
        };
        *bytes -= datagram.as_slice().len();
        *gone = Some(number);
    }
}

/// The number that a NACK means by its low 16 bits, up to the newest one.
fn meant(newest: u64, low: u16) -> Option<u64>
    ensures some { IfSome result (λ n. (k : ℕ) → k ≤ newest → is_meant newest low k ≡ (n == k)) }
    ensures none { IfNone result ((k : ℕ) → k ≤ newest → is_meant newest low k ≡ false) }
{
    let distance = u64::from(((newest % 65536) as u16).wrapping_sub(low));
    if newest < distance {
        return None;
    }
    Some(newest - distance)
}

impl PacketHistory {
    /// Keeps nothing, and will keep at most `most` datagrams of at most `most_bytes` bytes together.
    pub fn new(alloc: Global, most: u32, most_bytes: u32) -> Self
        ensures { result ≡ nothing_kept most most_bytes }
    {
        PacketHistory {
            packets: BTreeMap::new(alloc),
            bytes: 0,
            most,
            most_bytes,
            gone: None,
        }
    }

    /// Whether a datagram of this number went to make room, or one of a greater number did.
    fn is_gone(&self, number: u64) -> bool
        ensures { result ≡ is_gone self.now.gone number }
    {
        match self.gone {
            None => false,
            Some(gone) => number <= gone,
        }
    }

    /// Keeps a copy of a datagram under its number; one that is held under this number stays. Of more than fit the
    /// lowest go, and up to a number that went nothing is kept any more.
    ///
    /// # Errors
    /// `AllocError`, and nothing has changed.
    pub fn keep(&mut self, alloc: Global, number: u64, datagram: &[u8]) -> Result<(), AllocError>
        ensures kept { OnOk result (self.new ≡ kept self.old number datagram.now) }
        ensures unchanged { OnErr result (self.new ≡ self.old) }
    {
        if self.is_gone(number) {
            return Ok(());
        }
        if self.packets.contains_key(&number) {
            return Ok(());
        }
        let copy = Copied::of(alloc, datagram)?;
        self.packets.insert(number, copy)?;
        self.bytes += datagram.len();
        trim(
            &mut self.packets,
            &mut self.bytes,
            &mut self.gone,
            self.most,
            self.most_bytes,
        );
        Ok(())
    }

    /// The datagram that a NACK asks for by the low 16 bits of its number (RFC 4585 6.2.1, PID): the one that is held
    /// under the greatest number of these bits that isn't above the newest held. None if it isn't held.
    pub fn asked(&self, low: u16) -> Option<&[u8]>
        ensures { option_map (λ d. d.now) result ≡ asked self.now low }
    {
        let (newest, _) = self.packets.last_key_value()?;
        let number = meant(*newest, low)?;
        Some(self.packets.get(&number)?.as_slice())
    }
}
