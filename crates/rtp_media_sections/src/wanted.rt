//! Sections as an end wants them.

ghost use Rattle.std.specs.Prelude.{◌≡◌, ◌↔◌, IsTrue};
ghost use Rattle.rtp_media_sections.specs.Repairs.{ArePairsOf};
ghost use Rattle.rtp_media_sections.specs.Sections.{are_sound, is_sound};

use crate::repairs::are_sound_pairs;
use media_types::MediaKind;
use rtp_wire::{Direction, Mid, Ssrc};
use std::marker::Model;

/// A section as an end wants it.
#[derive(Debug, Drop)]
pub struct SectionSpec {
    /// The name of the section (RFC 5888 4).
    pub mid: Mid,
    /// Audio or video.
    pub kind: MediaKind,
    /// Which way media shall flow, as this end sees it.
    pub dir: Direction,
    /// The SSRCs that this end sends under (RFC 5576 4.1).
    pub ssrcs: Vec<Ssrc>,
    /// Pairs of one of them and the SSRC under which its packets are sent again (RFC 4588 8.3).
    pub repairs: Vec<(Ssrc, Ssrc)>,
}

impl Model for SectionSpec {
    ghost use Rattle.rtp_media_sections.specs.Sections.{Wanted};

    ghost Value = { Wanted };

    ghost view = { λ s. record {
      mid = s.mid;
      kind = s.kind;
      dir = s.dir;
      ssrcs = s.ssrcs.items;
      repairs = s.repairs.items;
    } };
}

impl SectionSpec {
    /// Whether the RTX pairs fit the SSRCs: the repaired SSRCs are distinct and among the SSRCs;
    /// the RTX SSRCs are distinct and not among them. Trivially true without pairs.
    pub fn is_sound(&self) -> bool
        ensures value { result ≡ is_sound self.now }
        ensures exactly { IsTrue result ↔ ArePairsOf self.now.ssrcs self.now.repairs }
    {
        are_sound_pairs(self.ssrcs.as_slice(), self.repairs.as_slice())
    }
}

/// Whether each section is sound.
pub fn are_sound(sections: &[SectionSpec]) -> bool
    ensures { result ≡ are_sound sections.now }
{
    sections.iter().all(|section| section.is_sound())
}
