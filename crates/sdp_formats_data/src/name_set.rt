//! The mids of sections, as a set.

ghost use Rattle.std.specs.Prelude.{◌≡◌, IfOk};
ghost use Rattle.std.specs.List.{list_any};
ghost use Rattle.sdp_formats_data.specs.WholeTexts.{are_apart, is_name};

use rtp_wire::Mid;
use std::alloc::{AllocError, Global};
use std::collections::BTreeSet;
use std::marker::Model;

/// A list of names, as a set by which one is found, and whether none is twice.
#[derive(Drop)]
pub struct NameSet<'a> {
    listed: &'a [Mid],
    set: BTreeSet<&'a str>,
    apart: bool,
}

impl<'a> Model for NameSet<'a> {
    ghost use Rattle.std.specs.Prelude.{List, ℕ};
    ghost use Rattle.sdp_formats_data.specs.NameSets.{IsSetOf};

    ghost Value = { List (List ℕ) };

    ghost view = { λ s. s.listed.now };

    ghost invariant = { λ s. IsSetOf s.listed.now s.set s.apart };
}

impl<'a> NameSet<'a> {
    /// These names.
    ///
    /// # Errors
    ///
    /// `AllocError` if memory runs out.
    pub fn of(alloc: Global, listed: &'a [Mid]) -> Result<NameSet<'a>, AllocError>
        ensures { IfOk result (λ s. s ≡ listed.now) }
    {
        let mut set = BTreeSet::new(alloc);
        let mut apart = true;
        for place in (0..listed.len()).rev() {
            apart &= set.insert(listed[place].as_str())?;
        }
        Ok(NameSet { listed, set, apart })
    }

    /// Whether a name is among them.
    pub fn has(&self, name: Mid) -> bool
        ensures { result ≡ list_any (is_name name) self.now }
    {
        self.set.contains(name.as_str())
    }

    /// Whether none is twice.
    pub fn are_apart(&self) -> bool
        ensures { result ≡ are_apart self.now }
    {
        self.apart
    }
}
