//! What sections of texts say.

ghost use Rattle.std.specs.Prelude.{◌≡◌, ◌++◌, IfOk, OnOk};
ghost use Rattle.std.specs.List.{flat_map};
ghost use Rattle.sdp_formats_data.specs.Sections.{extmap_in};
ghost use Rattle.rtp_media_sections.specs.Lines.{section_of, sources_in};

use crate::read::{is_media_line, kind_of, mid_of};
use media_types::MediaKind;
use rtp_wire::{Direction, Extension, Mid, Ssrc};
use sdp_formats_data::{MediaAttribute, MediaLine};
use sdp_formats_rows::PayloadParams;
use sdp_formats_section_rows::RtpParams;
use std::alloc::{AllocError, Global};
use std::marker::Model;

/// A source that a section names (RFC 5576 4.1).
#[derive(Clone, Copy, Debug, Drop)]
pub struct Source {
    /// The SSRC of its packets.
    pub ssrc: Ssrc,
    /// The SSRC whose packets these send again (RFC 4588 8.3).
    pub repairs: Option<Ssrc>,
}

/// What a section of an offer or an answer says.
#[derive(Debug, Drop)]
pub struct Section {
    /// The name of the section (RFC 5888 4).
    pub mid: Mid,
    /// Audio or video.
    pub kind: MediaKind,
    /// Whether it is audio or video over RTP, and not of port 0 (RFC 3264 6).
    pub is_media: bool,
    /// Which way media shall flow, as the end of this text sees it.
    pub dir: Direction,
    /// Its rows, each with its types of retransmissions and of redundant audio.
    pub rows: Vec<PayloadParams>,
    /// Its lines of header extensions, in order, whatever their numbers (RFC 8285 5).
    pub extmaps: Vec<(u8, Extension)>,
    /// Its sources, each once.
    pub sources: Vec<Source>,
}

impl Model for Section {
    ghost use Rattle.rtp_media_sections.specs.Sections.{Section};

    ghost Value = { Section };

    ghost view = { λ s. record {
      mid = s.mid;
      kind = s.kind;
      is_media = s.is_media;
      dir = s.dir;
      rows = s.rows.items;
      extmaps = s.extmaps.items;
      sources = s.sources.items;
    } };
}

#[tactic(auto, unfolding(sdp_formats_data::specs::Sections::extmap_in))]
fn push_extmap(
    alloc: Global,
    extmaps: &mut Vec<(u8, Extension)>,
    line: &MediaAttribute,
) -> Result<(), AllocError>
    ensures { OnOk result (extmaps.new.items ≡ extmaps.old.items ++ extmap_in line.now) }
{
    if let MediaAttribute::ExtMap { id, ext } = line {
        extmaps.push((*id, ext.clone(alloc)?))?;
    }
    Ok(())
}

fn extmaps_in(alloc: Global, lines: &[MediaAttribute]) -> Result<Vec<(u8, Extension)>, AllocError>
    ensures { IfOk result (λ extmaps. extmaps.items ≡ flat_map extmap_in lines.now) }
{
    let mut extmaps = Vec::new(alloc);
    for line in lines {
        push_extmap(alloc, &mut extmaps, line)?;
    }
    Ok(extmaps)
}

fn sources_in(alloc: Global, line: &MediaLine) -> Result<Vec<Source>, AllocError>
    ensures { IfOk result (λ sources. sources.items ≡ sources_in line.now.attrs) }
{
    let infos = line.ssrc_info(alloc)?;
    let mut sources = Vec::new(alloc);
    for info in &infos {
        sources.push(Source {
            ssrc: info.ssrc,
            repairs: info.repairs,
        })?;
    }
    Ok(sources)
}

impl Section {
    /// What the lines of a section say.
    ///
    /// # Errors
    ///
    /// `AllocError` if memory runs out.
    #[tactic(auto, unfolding(crate::specs::Lines::section_of))]
    pub fn read(alloc: Global, line: &MediaLine) -> Result<Section, AllocError>
        ensures { IfOk result (λ section. section ≡ section_of line.now) }
    {
        Ok(Section {
            mid: mid_of(line),
            kind: kind_of(&line.typ),
            is_media: is_media_line(line),
            dir: line.direction(),
            rows: line.rtp_params(alloc)?,
            extmaps: extmaps_in(alloc, line.attrs.as_slice())?,
            sources: sources_in(alloc, line)?,
        })
    }
}
