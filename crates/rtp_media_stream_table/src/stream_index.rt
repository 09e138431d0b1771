//! Which stream has an SSRC and a payload type.

ghost use Rattle.std.specs.Prelude.{◌≡◌, ℕ, None, Some, false, true, OnOk};
ghost use Rattle.rtp_media_streams.specs.Types.{is_key_of, is_plain_key};
ghost use Rattle.rtp_media_stream_table.specs.StreamIndex.{KeepsOrRemoves, KeepsOrSets, is_key, number_at};

use rtp_media_streams::PayloadTypes;
use rtp_wire::{Pt, Ssrc};
use std::alloc::{AllocError, Global};
use std::collections::BTreeMap;

/// An SSRC and a payload type (RFC 3550 5.1).
#[derive(Clone, Copy, PartialEq, Eq, PartialOrd, Ord, Drop)]
struct StreamKey {
    ssrc: u32,
    pt: u8,
}

/// The numbers of streams by SSRC and payload type.
#[derive(Drop)]
pub struct StreamIndex {
    numbers: BTreeMap<StreamKey, usize>,
}

impl StreamIndex {
    /// One without numbers.
    pub fn new(alloc: Global) -> Self
        ensures { (ssrc pt : ℕ) → number_at result ssrc pt ≡ None }
    {
        StreamIndex {
            numbers: BTreeMap::new(alloc),
        }
    }

    /// The number that was set last, if one was.
    pub fn number(&self, ssrc: Ssrc, pt: Pt) -> Option<usize>
        ensures { result ≡ number_at self.now ssrc pt }
    {
        let key = StreamKey {
            ssrc: ssrc.get(),
            pt: pt.get(),
        };
        self.numbers.get(&key).copied()
    }

    /// Sets a number.
    fn set(&mut self, ssrc: Ssrc, pt: Pt, number: usize) -> Result<(), AllocError>
        ensures set { OnOk result (number_at self.new ssrc pt ≡ Some number) }
        ensures others { (s p : ℕ) → is_key ssrc pt s p ≡ false
            → number_at self.new s p ≡ number_at self.old s p }
        ensures kept { KeepsOrSets number self.old self.new }
    {
        let key = StreamKey {
            ssrc: ssrc.get(),
            pt: pt.get(),
        };
        self.numbers.insert(key, number)?;
        Ok(())
    }

    /// Sets the number of a stream under its SSRC and each of its two types.
    fn set_plain(
        &mut self,
        ssrc: Ssrc,
        types: &PayloadTypes,
        number: usize,
    ) -> Result<(), AllocError>
        ensures set { OnOk result ((s p : ℕ) → is_plain_key ssrc types.now s p ≡ true
            → number_at self.new s p ≡ Some number) }
        ensures others { (s p : ℕ) → is_plain_key ssrc types.now s p ≡ false
            → number_at self.new s p ≡ number_at self.old s p }
        ensures kept { KeepsOrSets number self.old self.new }
    {
        self.set(ssrc, types.pt, number)?;
        match types.red {
            Some(red) => self.set(ssrc, red, number),
            None => Ok(()),
        }
    }

    /// Sets the number of a stream under each SSRC and type of its datagrams. If memory runs out it may be set under
    /// some of them.
    ///
    /// # Errors
    ///
    /// `AllocError` if memory runs out.
    pub fn set_types(
        &mut self,
        ssrc: Ssrc,
        types: &PayloadTypes,
        number: usize,
    ) -> Result<(), AllocError>
        ensures set { OnOk result ((s p : ℕ) → is_key_of ssrc types.now s p ≡ true
            → number_at self.new s p ≡ Some number) }
        ensures others { (s p : ℕ) → is_key_of ssrc types.now s p ≡ false
            → number_at self.new s p ≡ number_at self.old s p }
        ensures kept { KeepsOrSets number self.old self.new }
    {
        self.set_plain(ssrc, types, number)?;
        if let Some(key) = types.repair {
            self.set(key.ssrc, key.pt, number)?;
        }
        Ok(())
    }

    /// Removes a number.
    fn remove(&mut self, ssrc: Ssrc, pt: Pt)
        ensures removed { number_at self.new ssrc pt ≡ None }
        ensures others { (s p : ℕ) → is_key ssrc pt s p ≡ false
            → number_at self.new s p ≡ number_at self.old s p }
        ensures kept { KeepsOrRemoves self.old self.new }
    {
        let key = StreamKey {
            ssrc: ssrc.get(),
            pt: pt.get(),
        };
        self.numbers.remove(&key);
    }

    /// Removes the number of a stream under its SSRC and each of its two types.
    fn remove_plain(&mut self, ssrc: Ssrc, types: &PayloadTypes)
        ensures removed { (s p : ℕ) → is_plain_key ssrc types.now s p ≡ true → number_at self.new s p ≡ None }
        ensures others { (s p : ℕ) → is_plain_key ssrc types.now s p ≡ false
            → number_at self.new s p ≡ number_at self.old s p }
        ensures kept { KeepsOrRemoves self.old self.new }
    {
        self.remove(ssrc, types.pt);
        if let Some(red) = types.red {
            self.remove(ssrc, red);
        }
    }

    /// Removes the number of a stream under each SSRC and type of its datagrams.
    pub fn remove_types(&mut self, ssrc: Ssrc, types: &PayloadTypes)
        ensures removed { (s p : ℕ) → is_key_of ssrc types.now s p ≡ true → number_at self.new s p ≡ None }
        ensures others { (s p : ℕ) → is_key_of ssrc types.now s p ≡ false
            → number_at self.new s p ≡ number_at self.old s p }
        ensures kept { KeepsOrRemoves self.old self.new }
    {
        self.remove_plain(ssrc, types);
        if let Some(key) = types.repair {
            self.remove(key.ssrc, key.pt);
        }
    }
}
