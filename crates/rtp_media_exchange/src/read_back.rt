//! Printed sections as agreements take them.

ghost use Rattle.std.specs.Prelude.{◌≡◌, map, IfOk};
ghost use Rattle.rtp_media_exchange.specs.Answering.{read_back};
ghost use Rattle.rtp_media_sections.specs.PrintedSections.{named};
ghost use Rattle.sdp_formats_laws.specs.RowsBack.{unlocked};

use rtp_media_sections::Section;
use rtp_wire::Extension;
use sdp_formats_rows::PayloadParams;
use std::alloc::{AllocError, Global};

/// The row as it is before an exchange settles it.
fn unlocked(row: &PayloadParams) -> PayloadParams
    ensures { result ≡ unlocked row.now }
{
    let fresh = PayloadParams::new(row.pt(), row.resend(), row.spec());
    let mut fresh = fresh.with_types(row.pt(), row.resend(), row.red());
    fresh.set_fb_transport_cc(row.fb_transport_cc());
    fresh.set_fb_nack(row.fb_nack());
    fresh.set_fb_pli(row.fb_pli());
    fresh.set_fb_fir(row.fb_fir());
    fresh.set_fb_remb(row.fb_remb());
    fresh
}

fn all_unlocked(alloc: Global, rows: &[PayloadParams]) -> Result<Vec<PayloadParams>, AllocError>
    ensures { IfOk result (λ fresh. fresh.items ≡ map unlocked rows.now) }
{
    let mut fresh = Vec::new(alloc);
    for row in rows {
        fresh.push(unlocked(row))?;
    }
    Ok(fresh)
}

/// An extension by its URI.
fn named(alloc: Global, entry: &(u8, Extension)) -> Result<(u8, Extension), AllocError>
    ensures { IfOk result (λ e. e ≡ named entry.now) }
{
    let ext = Extension::from_sdp_uri(alloc, entry.1.as_uri())?;
    Ok((entry.0, ext))
}

fn all_named(alloc: Global, entries: &[(u8, Extension)]) -> Result<Vec<(u8, Extension)>, AllocError>
    ensures { IfOk result (λ names. names.items ≡ map named entries.now) }
{
    let mut names = Vec::new(alloc);
    for entry in entries {
        names.push(named(alloc, entry)?)?;
    }
    Ok(names)
}

fn read_back(alloc: Global, section: &Section) -> Result<Section, AllocError>
    ensures { IfOk result (λ s. s ≡ read_back section.now) }
{
    Ok(Section {
        mid: section.mid,
        kind: section.kind,
        is_media: section.is_media,
        dir: section.dir,
        rows: all_unlocked(alloc, section.rows.as_slice())?,
        extmaps: all_named(alloc, section.extmaps.as_slice())?,
        sources: Vec::new(alloc),
    })
}

/// What agreements take of printed sections: what is read of them again, but for their sources, which no agreement
/// takes of an answer.
///
/// # Errors
///
/// `AllocError` if memory runs out.
pub(crate) fn all_read_back(alloc: Global, sections: &[Section]) -> Result<Vec<Section>, AllocError>
    ensures { IfOk result (λ back. back.items ≡ map read_back sections.now) }
{
    let mut back = Vec::new(alloc);
    for section in sections {
        back.push(read_back(alloc, section)?)?;
    }
    Ok(back)
}
