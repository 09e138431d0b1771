//! The sections of offers and answers as lines.

ghost use Rattle.std.specs.Prelude.{◌≡◌, ◌++◌, IfOk, OnOk, map};
ghost use Rattle.sdp_formats_rounds.specs.Types.{types_of, listed};
ghost use Rattle.rtp_media_sections.specs.Extensions.{extmap_line};
ghost use Rattle.rtp_media_sections.specs.Lines.{line_of, pair_line, row_lines, section_lines, source_line};
ghost use Rattle.rtp_media_sections.specs.Lines.{type_of, types_listed};

use crate::repairs::repairs_in;
use crate::sections::{Section, Source};
use media_types::MediaKind;
use rtp_wire::{Extension, Pt, Ssrc};
use sdp_formats_data::{MediaAttribute, MediaLine};
use sdp_formats_grammar::{Listed, Text};
use sdp_formats_rows::PayloadParams;
use sdp_formats_section_rows::AsMediaAttrs;
use sdp_formats_values::{MediaType, Proto};
use std::alloc::{AllocError, Global};

fn type_of(kind: MediaKind) -> MediaType
    ensures { result ≡ type_of kind }
{
    match kind {
        MediaKind::Audio => MediaType::Audio,
        MediaKind::Video => MediaType::Video,
    }
}

fn push_type(types: &mut Vec<Pt>, pt: Option<Pt>) -> Result<(), AllocError>
    ensures { OnOk result (types.new.items ≡ types.old.items ++ listed pt) }
{
    if let Some(pt) = pt {
        types.push(pt)?;
    }
    Ok(())
}

fn push_types(types: &mut Vec<Pt>, row: &PayloadParams) -> Result<(), AllocError>
    ensures { OnOk result (types.new.items ≡ types.old.items ++ types_of row.now) }
{
    types.push(row.pt())?;
    push_type(types, row.resend())?;
    push_type(types, row.red())
}

/// The types of rows, with those of their retransmissions and their RED types.
///
/// # Errors
///
/// `AllocError` if memory runs out.
pub fn types_listed(alloc: Global, rows: &[PayloadParams]) -> Result<Vec<Pt>, AllocError>
    ensures { IfOk result (λ types. types.items ≡ types_listed rows.now) }
{
    let mut types = Vec::new(alloc);
    for row in rows {
        push_types(&mut types, row)?;
    }
    Ok(types)
}

fn push_rows(
    alloc: Global,
    attrs: &mut Vec<MediaAttribute>,
    rows: &[PayloadParams],
) -> Result<(), AllocError>
    ensures { OnOk result (attrs.new.items ≡ attrs.old.items ++ row_lines rows.now) }
{
    for row in rows {
        let mut lines = row.as_media_attrs(alloc)?;
        attrs.append(&mut lines)?;
    }
    Ok(())
}

fn push_extmaps(
    alloc: Global,
    attrs: &mut Vec<MediaAttribute>,
    extmaps: &[(u8, Extension)],
) -> Result<(), AllocError>
    ensures { OnOk result (attrs.new.items ≡ attrs.old.items ++ map extmap_line extmaps.now) }
{
    for entry in extmaps {
        attrs.push(MediaAttribute::ExtMap {
            id: entry.0,
            ext: entry.1.clone(alloc)?,
        })?;
    }
    Ok(())
}

fn source_line(alloc: Global, source: &Source) -> Result<MediaAttribute, AllocError>
    ensures { IfOk result (λ line. line ≡ source_line source.now) }
{
    Ok(MediaAttribute::Ssrc {
        ssrc: source.ssrc,
        attr: Text::of(String::from_str(alloc, "cname")?),
        value: Text::of(String::from_str(alloc, "str0m")?),
    })
}

fn push_sources(
    alloc: Global,
    attrs: &mut Vec<MediaAttribute>,
    sources: &[Source],
) -> Result<(), AllocError>
    ensures { OnOk result (attrs.new.items ≡ attrs.old.items ++ map source_line sources.now) }
{
    for source in sources {
        attrs.push(source_line(alloc, source)?)?;
    }
    Ok(())
}

fn pair_line(alloc: Global, pair: &(Ssrc, Ssrc)) -> Result<MediaAttribute, AllocError>
    ensures { IfOk result (λ line. line ≡ pair_line pair.now) }
{
    Ok(MediaAttribute::SsrcGroup {
        semantics: Text::of(String::from_str(alloc, "FID")?),
        ssrcs: Listed::of(vec![in alloc; pair.0, pair.1]?),
    })
}

fn push_pairs(
    alloc: Global,
    attrs: &mut Vec<MediaAttribute>,
    pairs: &[(Ssrc, Ssrc)],
) -> Result<(), AllocError>
    ensures { OnOk result (attrs.new.items ≡ attrs.old.items ++ map pair_line pairs.now) }
{
    for pair in pairs {
        attrs.push(pair_line(alloc, pair)?)?;
    }
    Ok(())
}

/// The lines of a section of media: its name, direction, extensions, rows and sources.
fn section_lines(alloc: Global, section: &Section) -> Result<Vec<MediaAttribute>, AllocError>
    ensures { IfOk result (λ lines. lines.items ≡ section_lines section.now) }
{
    let mut lines = Vec::new(alloc);
    lines.push(MediaAttribute::Mid(section.mid))?;
    lines.push(MediaAttribute::from(section.dir))?;
    push_extmaps(alloc, &mut lines, section.extmaps.as_slice())?;
    push_rows(alloc, &mut lines, section.rows.as_slice())?;
    let pairs = repairs_in(alloc, section.sources.as_slice())?;
    push_pairs(alloc, &mut lines, pairs.as_slice())?;
    push_sources(alloc, &mut lines, section.sources.as_slice())?;
    Ok(lines)
}

impl Section {
    /// A section of media as it is written.
    ///
    /// # Errors
    ///
    /// `AllocError` if memory runs out.
    #[tactic(auto, unfolding(crate::specs::Lines::line_of))]
    pub fn to_line(&self, alloc: Global) -> Result<MediaLine, AllocError>
        ensures { IfOk result (λ m. m ≡ line_of self.now) }
    {
        let types = types_listed(alloc, self.rows.as_slice())?;
        let lines = section_lines(alloc, self)?;
        Ok(MediaLine {
            typ: type_of(self.kind),
            disabled: false,
            proto: Proto::Srtp,
            pts: Listed::of(types),
            bw: None,
            attrs: Listed::of(lines),
        })
    }
}
