//! The rows of a section.

ghost use Rattle.std.specs.Prelude.{◌≡◌, ◌++◌, None, IfOk, OnOk};
ghost use Rattle.std.specs.List.{flat_map};
ghost use Rattle.std.specs.Prelude.{if◌then◌else◌};
ghost use Rattle.media_types.specs.Codecs.{is_audio_codec};
ghost use Rattle.sdp_formats_section_rows.specs.Facts.{format_by, has_row_by, row_by, row_found, row_with};
ghost use Rattle.sdp_formats_section_rows.specs.SectionRows.{listed, rows_given, rows_of};

use crate::facts::{TypeFacts, facts_of, find_facts};
use crate::given::{is_amr_wb, most_of, with_events};
use crate::mapped::{Mapping, mappings};
use crate::maps::ToCodecSpec;
use crate::type_lists::{media_types_in, types_mapped_to};
use media_types::Codec;
use rtp_wire::Pt;
use sdp_formats_data::MediaLine;
use sdp_formats_rows::{FormatParams, PayloadParams};
use std::alloc::{AllocError, Global};

fn format_by(codec: Codec, facts: &TypeFacts) -> Option<FormatParams>
    ensures { result ≡ format_by codec facts.now }
{
    if codec.is_tele() {
        return match most_of(facts.events) {
            Some(most) => Some(with_events(most)),
            None => None,
        };
    }
    if is_amr_wb(codec) && facts.is_declined {
        return None;
    }
    Some(facts.format)
}

fn red_of(codec: Codec, facts: &TypeFacts) -> Option<Pt>
    ensures { result ≡ (if is_audio_codec codec then facts.now.red else None) }
{
    if codec.is_audio() { facts.red } else { None }
}

/// The row of a mapped type and its format.
fn row_with(mapping: &Mapping, facts: &TypeFacts, format: FormatParams) -> PayloadParams
    ensures { result ≡ row_with mapping.now facts.now format }
{
    let pt = mapping.pt;
    let red = red_of(mapping.map.codec, facts);
    let is_video = mapping.map.codec.is_video();
    let row = PayloadParams::new(pt, None, mapping.map.to_codec_spec(format));
    let mut row = row.with_types(pt, facts.resend, red);
    row.set_fb_transport_cc(facts.feedback.transport_cc);
    row.set_fb_nack(is_video || facts.feedback.nack);
    row.set_fb_pli(is_video || facts.feedback.pli);
    row.set_fb_fir(is_video || facts.feedback.fir);
    row.set_fb_remb(is_video || facts.feedback.remb);
    row
}

fn has_row(codec: Codec, facts: &TypeFacts) -> bool
    ensures { result ≡ has_row_by codec facts.now }
{
    codec.is_audio() || codec.is_video() || (codec.is_tele() && facts.is_listed)
}

fn row_by(mapping: &Mapping, facts: &TypeFacts) -> Option<PayloadParams>
    ensures { result ≡ row_by mapping.now facts.now }
{
    let codec = mapping.map.codec;
    if !has_row(codec, facts) {
        return None;
    }
    match format_by(codec, facts) {
        Some(format) => Some(row_with(mapping, facts, format)),
        None => None,
    }
}

fn row_found(all: &[TypeFacts], mapping: &Mapping) -> Option<PayloadParams>
    ensures { result ≡ row_found all.now mapping.now }
{
    match find_facts(all, mapping.pt) {
        Some(facts) => row_by(mapping, facts),
        None => None,
    }
}

fn push_if(rows: &mut Vec<PayloadParams>, row: Option<PayloadParams>) -> Result<(), AllocError>
    ensures { OnOk result (rows.new.items ≡ rows.old.items ++ listed row) }
{
    match row {
        Some(row) => {
            rows.push(row)?;
            Ok(())
        }
        None => Ok(()),
    }
}

// A type is one byte, so that there are at most 256 to look through for each mapping.
fn rows_of(
    alloc: Global,
    section: &MediaLine,
    mappings: &[Mapping],
) -> Result<Vec<PayloadParams>, AllocError>
    ensures { IfOk result (λ rows. rows.items
        ≡ flat_map (rows_given section.now.pts section.now.attrs mappings.now) mappings.now) }
{
    let resend_types = types_mapped_to(alloc, Codec::Rtx, mappings)?;
    let red_types = types_mapped_to(alloc, Codec::Red, mappings)?;
    let types = media_types_in(alloc, mappings)?;
    let all = facts_of(
        alloc,
        section,
        resend_types.as_slice(),
        red_types.as_slice(),
        types.as_slice(),
    )?;
    let mut rows = Vec::new(alloc);
    for mapping in mappings {
        push_if(&mut rows, row_found(all.as_slice(), mapping))?;
    }
    Ok(rows)
}

/// Sections as they list rows.
pub trait RtpParams {
    /// The rows of a section: for each payload type that a line `a=rtpmap` maps, then for each static type of its list
    /// that none maps, the row that the section's lines give (RFC 8866 6.6 and 6.15, RFC 4585 4.2, RFC 4588 8.6).
    ///
    /// Types of audio and video have rows, and those of telephone events that the section lists. A type whose format is
    /// declined has none. The last type of retransmissions that names a type counts, and so does the last RED type.
    ///
    /// # Errors
    ///
    /// `AllocError` if memory runs out.
    fn rtp_params(&self, alloc: Global) -> Result<Vec<PayloadParams>, AllocError>;
}

impl RtpParams for MediaLine {
    fn rtp_params(&self, alloc: Global) -> Result<Vec<PayloadParams>, AllocError>
        ensures { IfOk result (λ rows. rows.items ≡ rows_of self.now.pts self.now.attrs) }
    {
        let mappings = mappings(alloc, self.pts.as_slice(), self.attrs.as_slice())?;
        rows_of(alloc, self, mappings.as_slice())
    }
}
