//! The sections that share one transport.

ghost use Rattle.std.specs.Prelude.{◌≡◌, IfOk};
ghost use Rattle.rtp_media_browsers.specs.Names.{is_among};
ghost use Rattle.rtp_media_browsers.specs.Places.{is_bundled_only, is_outside};

use crate::lines::has_bundle_only;
use rtp_media_sections::mid_of;
use rtp_wire::Mid;
use sdp_formats_data::{MediaLine, NameSet};
use std::alloc::{AllocError, Global};
use std::marker::Model;

/// The names of a BUNDLE group; none, if there is no group.
#[derive(Drop)]
pub(crate) struct Bundle<'a> {
    names: NameSet<'a>,
    is_empty: bool,
}

impl<'a> Model for Bundle<'a> {
    ghost use Rattle.std.specs.Prelude.{◌≡◌, ◌==◌, length, List, ℕ};

    ghost Value = { List (List ℕ) };

    ghost view = { λ b. b.names };

    ghost invariant = { λ b. b.is_empty ≡ (length b.names == 0) };
}

impl<'a> Bundle<'a> {
    /// The group of these names.
    pub(crate) fn of(alloc: Global, listed: &'a [Mid]) -> Result<Bundle<'a>, AllocError>
        ensures { IfOk result (λ b. b ≡ listed.now) }
    {
        Ok(Bundle {
            names: NameSet::of(alloc, listed)?,
            is_empty: listed.is_empty(),
        })
    }

    fn has(&self, name: Mid) -> bool
        ensures { result ≡ is_among self.now name }
    {
        self.names.has(name)
    }

    /// Whether port 0 only means that the section has no transport of its own.
    pub(crate) fn has_only(&self, section: &MediaLine) -> bool
        ensures { result ≡ is_bundled_only self.now section.now }
    {
        has_bundle_only(section.attrs.as_slice()) && self.has(mid_of(section))
    }

    /// Whether there is a group, and the section is outside of it.
    pub(crate) fn is_without(&self, section: &MediaLine) -> bool
        ensures { result ≡ is_outside self.now section.now }
    {
        !self.is_empty && !self.has(mid_of(section))
    }
}
