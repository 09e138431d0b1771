//! What an exchange agreed on.

ghost use Rattle.std.specs.Prelude.{◌≡◌, ◌==◌, IfOk};
ghost use Rattle.std.specs.Str.{bytes_eq};
ghost use Rattle.rtp_media_sections.specs.Agreement.{agreed, agreed_by_accept, agreed_by_answer, fixed_section};
ghost use Rattle.rtp_media_sections.specs.Agreement.{is_named, row_in};
ghost use Rattle.rtp_media_sections.specs.Lines.{ssrcs_of};
ghost use Rattle.rtp_media_sections.specs.Repairs.{repairing_of};

mod by_text;

use crate::extmaps::map_of_extmaps;
use crate::repairs::{repairing_of, repairs_in};
use crate::sections::Section;
use crate::ssrc_list::SsrcList;
use crate::wanted::SectionSpec;
use media_types::MediaKind;
use rtp_wire::{ExtensionMap, Mid, Pt, Ssrc};
use sdp_formats_rounds::CodecConfig;
use sdp_formats_rows::PayloadParams;
use std::alloc::{AllocError, Global};
use std::marker::Model;

/// A section as an exchange left it.
#[derive(Debug)]
pub struct AgreedSection {
    mid: Mid,
    kind: MediaKind,
    rows: Vec<PayloadParams>,
    exts: ExtensionMap,
    own_ssrcs: SsrcList,
    remote_ssrcs: SsrcList,
    own_repairs: Vec<(Ssrc, Ssrc)>,
    remote_repairs: Vec<(Ssrc, Ssrc)>,
    sends: bool,
    receives: bool,
    by_text: bool,
}

/// Written by hand, so that crates that drop this type need no proof about its fields.
impl Drop for AgreedSection {
    fn drop(self) {
        let AgreedSection {
            mid: _mid,
            kind: _kind,
            rows: _rows,
            exts: _exts,
            own_ssrcs: _own_ssrcs,
            remote_ssrcs: _remote_ssrcs,
            own_repairs: _own_repairs,
            remote_repairs: _remote_repairs,
            sends: _sends,
            receives: _receives,
            by_text: _by_text,
        } = self;
    }
}

impl Model for AgreedSection {
    ghost use Rattle.rtp_media_sections.specs.Agreement.{Agreed};

    ghost Value = { Agreed };

    ghost view = { λ a. record {
      mid = a.mid;
      kind = a.kind;
      rows = a.rows.items;
      map = a.exts;
      own_ssrcs = a.own_ssrcs;
      remote_ssrcs = a.remote_ssrcs;
      own_repairs = a.own_repairs.items;
      remote_repairs = a.remote_repairs.items;
      sends = a.sends;
      receives = a.receives;
      by_text = a.by_text;
    } };
}

/// The row of Opus at type 111.
fn fixed_rows(alloc: Global) -> Result<Vec<PayloadParams>, AllocError>
    ensures { IfOk result (λ rows. rows.items ≡ fixed_section.rows) }
{
    let mut config = CodecConfig::empty(alloc);
    config.enable_opus(true, false)?;
    let mut rows = Vec::new(alloc);
    rows.extend_from_slice(config.params())?;
    Ok(rows)
}

/// SSRC 44 alone.
fn fixed_ssrcs(alloc: Global) -> Result<SsrcList, AllocError>
    ensures { IfOk result (λ ssrcs. ssrcs ≡ fixed_section.own_ssrcs) }
{
    SsrcList::of(alloc, vec![in alloc; Ssrc::from(44)]?)
}

impl AgreedSection {
    /// What both fixed ends agree on: section `0`, Opus at type 111, no header extension, SSRC 44 at either side.
    ///
    /// # Errors
    ///
    /// `AllocError` if memory runs out.
    pub fn fixed(alloc: Global) -> Result<Self, AllocError>
        ensures { IfOk result (λ a. a ≡ fixed_section) }
    {
        Ok(AgreedSection {
            mid: Mid::from("0"),
            kind: MediaKind::Audio,
            rows: fixed_rows(alloc)?,
            exts: ExtensionMap::empty(),
            own_ssrcs: fixed_ssrcs(alloc)?,
            remote_ssrcs: fixed_ssrcs(alloc)?,
            own_repairs: Vec::new(alloc),
            remote_repairs: Vec::new(alloc),
            sends: true,
            receives: true,
            by_text: false,
        })
    }

    /// Its name (RFC 5888).
    pub fn mid(&self) -> Mid
        ensures { result ≡ self.now.mid }
    {
        self.mid
    }

    /// Whether it is of audio or of video.
    pub fn kind(&self) -> MediaKind
        ensures { result ≡ self.now.kind }
    {
        self.kind
    }

    /// The rows that both ends have, in the answer's order.
    pub fn rows(&self) -> &[PayloadParams]
        ensures { result.now ≡ self.now.rows }
    {
        self.rows.as_slice()
    }

    /// The pairs of an SSRC and that of its repairs that this end names (RFC 4588 8.3).
    pub fn own_repairs(&self) -> &[(Ssrc, Ssrc)]
        ensures { result.now ≡ self.now.own_repairs }
    {
        self.own_repairs.as_slice()
    }

    /// The pairs of an SSRC and that of its repairs that the other end names, in the order in which its text has them.
    pub fn remote_repairs(&self) -> &[(Ssrc, Ssrc)]
        ensures { result.now ≡ self.now.remote_repairs }
    {
        self.remote_repairs.as_slice()
    }

    /// The SSRC under which this end repairs what it sends under another one.
    pub fn own_repair_of(&self, ssrc: Ssrc) -> Option<Ssrc>
        ensures { result ≡ repairing_of self.now.own_repairs ssrc }
    {
        repairing_of(self.own_repairs.as_slice(), ssrc)
    }

    /// The SSRC under which the other end repairs what it sends under another one.
    pub fn remote_repair_of(&self, ssrc: Ssrc) -> Option<Ssrc>
        ensures { result ≡ repairing_of self.now.remote_repairs ssrc }
    {
        repairing_of(self.remote_repairs.as_slice(), ssrc)
    }

    /// The SSRCs that the other end names, in the order in which its text has them (RFC 5576 4.1).
    pub fn remote_ssrcs(&self) -> &[Ssrc]
        ensures { result.now ≡ self.now.remote_ssrcs }
    {
        self.remote_ssrcs.as_slice()
    }

    /// Whether the section has this name.
    pub fn is_named(&self, mid: Mid) -> bool
        ensures { result ≡ bytes_eq self.now.mid mid }
    {
        self.mid.as_bytes() == mid.as_bytes()
    }

    /// The first row of this type.
    pub fn row_of(&self, pt: Pt) -> Option<PayloadParams>
        ensures { result ≡ row_in self.now.rows pt }
    {
        self.rows
            .iter()
            .copied()
            .find(|row| row.pt().get() == pt.get())
    }

    /// The header extensions that both ends have a number for, and their numbers.
    pub fn exts(&self) -> &ExtensionMap
        ensures { result.now ≡ self.now.map }
    {
        &self.exts
    }

    /// Whether media flows from this end.
    pub fn is_sending(&self) -> bool
        ensures { result ≡ self.now.sends }
    {
        self.sends
    }

    /// Whether media flows to this end.
    pub fn is_receiving(&self) -> bool
        ensures { result ≡ self.now.receives }
    {
        self.receives
    }

    /// Whether this end names the SSRC.
    pub fn names_own(&self, ssrc: Ssrc) -> bool
        ensures { result ≡ is_named self.now.own_ssrcs ssrc }
    {
        self.own_ssrcs.names(ssrc)
    }

    /// Whether the other end names the SSRC.
    pub fn names_remote(&self, ssrc: Ssrc) -> bool
        ensures { result ≡ is_named self.now.remote_ssrcs ssrc }
    {
        self.remote_ssrcs.names(ssrc)
    }
}

/// The SSRCs that a section names, except RTX SSRCs.
fn ssrcs_of(alloc: Global, section: &Section) -> Result<Vec<Ssrc>, AllocError>
    ensures { IfOk result (λ ssrcs. ssrcs.items ≡ ssrcs_of section.now) }
{
    let mut ssrcs = Vec::new(alloc);
    for source in &section.sources {
        if source.repairs.is_none() {
            ssrcs.push(source.ssrc)?;
        }
    }
    Ok(ssrcs)
}

/// A section of these texts that flows so: this end names the SSRCs and repairs that it wanted, the other one those of
/// its text.
fn agreed(
    alloc: Global,
    wanted: &SectionSpec,
    remote: &Section,
    answer: &Section,
    sends: bool,
    receives: bool,
) -> Result<AgreedSection, AllocError>
    ensures { IfOk result (λ a. a ≡ agreed wanted.now remote.now answer.now sends receives) }
{
    Ok(AgreedSection {
        mid: answer.mid,
        kind: answer.kind,
        rows: answer.rows.clone()?,
        exts: map_of_extmaps(alloc, answer.extmaps.as_slice())?,
        own_ssrcs: SsrcList::of(alloc, wanted.ssrcs.clone()?)?,
        remote_ssrcs: SsrcList::of(alloc, ssrcs_of(alloc, remote)?)?,
        own_repairs: wanted.repairs.clone()?,
        remote_repairs: repairs_in(alloc, remote.sources.as_slice())?,
        sends,
        receives,
        by_text: false,
    })
}

/// What the end agrees on that answers an offered section, by what its answer says.
///
/// # Errors
///
/// `AllocError` if memory runs out.
#[tactic(auto, unfolding(crate::specs::Agreement::agreed_by_answer))]
pub fn agreed_by_answer(
    alloc: Global,
    wanted: &SectionSpec,
    offer: &Section,
    answer: &Section,
) -> Result<AgreedSection, AllocError>
    ensures { IfOk result (λ a. a ≡ agreed_by_answer wanted.now offer.now answer.now) }
{
    let dir = answer.dir;
    agreed(
        alloc,
        wanted,
        offer,
        answer,
        dir.is_sending(),
        dir.is_receiving(),
    )
}

/// What the end agrees on that offered a section, by what the answer says.
///
/// # Errors
///
/// `AllocError` if memory runs out.
#[tactic(auto, unfolding(crate::specs::Agreement::agreed_by_accept))]
pub fn agreed_by_accept(
    alloc: Global,
    wanted: &SectionSpec,
    answer: &Section,
) -> Result<AgreedSection, AllocError>
    ensures { IfOk result (λ a. a ≡ agreed_by_accept wanted.now answer.now) }
{
    let dir = answer.dir;
    let sends = dir.is_receiving() && wanted.dir.is_sending();
    let receives = dir.is_sending() && wanted.dir.is_receiving();
    agreed(alloc, wanted, answer, answer, sends, receives)
}
