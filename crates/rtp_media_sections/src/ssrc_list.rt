//! The SSRCs that a section names.

ghost use Rattle.std.specs.Prelude.{◌≡◌, IfOk};
ghost use Rattle.rtp_media_sections.specs.Agreement.{is_named};

use rtp_wire::Ssrc;
use std::alloc::{AllocError, Global};
use std::collections::BTreeSet;
use std::marker::Model;

/// SSRCs in the order in which a section names them, and as a set for lookup.
#[derive(Debug, Drop)]
pub(crate) struct SsrcList {
    listed: Vec<Ssrc>,
    set: BTreeSet<u32>,
}

impl Model for SsrcList {
    ghost use Rattle.std.specs.Prelude.{List, ℕ};
    ghost use Rattle.rtp_media_sections.specs.Agreement.{IsSetOf};

    ghost Value = { List ℕ };

    ghost view = { λ l. l.listed.items };

    ghost invariant = { λ l. IsSetOf l.listed.items l.set };
}

impl SsrcList {
    /// These SSRCs.
    pub(crate) fn of(alloc: Global, listed: Vec<Ssrc>) -> Result<Self, AllocError>
        ensures { IfOk result (λ l. l ≡ listed.items) }
    {
        let mut set = BTreeSet::new(alloc);
        for ssrc in &listed {
            set.insert(ssrc.get())?;
        }
        Ok(SsrcList { listed, set })
    }

    /// They, in the order in which the section names them.
    pub(crate) fn as_slice(&self) -> &[Ssrc]
        ensures { result.now ≡ self.now }
    {
        self.listed.as_slice()
    }

    /// Whether the SSRC is among them.
    pub(crate) fn names(&self, ssrc: Ssrc) -> bool
        ensures { result ≡ is_named self.now ssrc }
    {
        self.set.contains(&ssrc.get())
    }
}
