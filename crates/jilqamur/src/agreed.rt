//! What an end agreed on.
//! Each call returns `CLOSED` at a closed handle, and changes nothing then.

ghost use Rattle.std.specs.Prelude.{◌≡◌};
ghost use Rattle.std.specs.Option.{option_copied};
ghost use Rattle.jilqamur.specs.Codes.{closed, nothing};
ghost use Rattle.jilqamur.specs.Copies.{IsFetched};
ghost use Rattle.jilqamur.specs.Handles.{AtObject};
ghost use Rattle.jilqamur.specs.Agreed.{TellsRow, TellsSection, TellsSsrc, codec_of, name_of, row_in, row_told};
ghost use Rattle.jilqamur.specs.Agreed.{section_at, section_told, ssrc_in};
ghost use Rattle.jilqamur.specs.Held.{end_in};

use crate::codes;
use crate::copying::copy_out;
use crate::handle::EndHandle;
use crate::object::Object;
use crate::row::WireRow;
use rtp_media_ends::End;
use rtp_media_sections::AgreedSection;
use sdp_formats_rows::PayloadParams;

/// What is told of an agreed section beside its name.
#[repr(C)]
#[derive(Clone, Copy, Drop)]
pub struct WireSection {
    /// Whether it is of video, else of audio.
    pub is_video: bool,
    /// Whether media flows from this end.
    pub sends: bool,
    /// Whether media flows to this end.
    pub receives: bool,
    /// How many rows both ends have.
    pub rows: usize,
    /// How many SSRCs the other end names.
    pub ssrcs: usize,
}

/// What is told of a section.
fn section_told(section: &AgreedSection) -> WireSection
    ensures { result ≡ section_told section.now }
{
    WireSection {
        is_video: section.kind().is_video(),
        sends: section.is_sending(),
        receives: section.is_receiving(),
        rows: section.rows().len(),
        ssrcs: section.remote_ssrcs().len(),
    }
}

/// What is told of a row.
fn row_told(row: &PayloadParams) -> WireRow
    ensures { result ≡ row_told row.now }
{
    let spec = row.spec();
    let (resend, red) = (row.resend(), row.red());
    WireRow {
        payload_type: row.pt().get(),
        has_resend: resend.is_some(),
        resend: resend.map_or(0, |pt| pt.get()),
        has_red: red.is_some(),
        red: red.map_or(0, |pt| pt.get()),
        clock_rate: spec.clock_rate.get(),
        has_channels: spec.channels.is_some(),
        channels: spec.channels.unwrap_or(0),
    }
}

/// The agreed section of this place.
fn section_at(end: &Option<End>, index: usize) -> Option<&AgreedSection>
    ensures { option_copied result ≡ section_at end.now index }
{
    end.as_ref()?.agreed_sections().get(index)
}

/// Copies the mid of the agreed section with this index (from 0, in the order of the texts) and
/// writes its other properties: `OK`; or `TOO_SMALL`, leaving the buffer unchanged, with `needed`
/// the mid's length in bytes. `NOTHING` if there is no agreed section with this index.
#[unsafe(no_mangle)]
pub extern "C" fn jilqamur_end_agreed_section(
    end: &mut EndHandle,
    index: usize,
    buffer: &mut [u8],
    needed: &mut usize,
    told: &mut WireSection,
) -> u32
    ensures name { AtObject (end_in end.old) (end_in end.new) result
        (λ p after. IsFetched (name_of (section_at p.end index)) buffer.old result needed.new buffer.new) }
    ensures told { AtObject (end_in end.old) (end_in end.new) result
        (λ p after. TellsSection (section_at p.end index) told.old told.new) }
    ensures closed { result ≡ closed
        → (buffer.new ≡ buffer.old) × (needed.new ≡ needed.old) × (told.new ≡ told.old) }
    ensures nothing { result ≡ nothing → needed.new ≡ needed.old }
    ensures unchanged { end_in end.new ≡ end_in end.old }
{
    if !end.slot.is_open() {
        return codes::CLOSED;
    }
    let Object::End(held) = end.slot.place.held() else {
        unreachable!();
    };
    let Some(section) = section_at(&held.end, index) else {
        return codes::NOTHING;
    };
    *told = section_told(section);
    copy_out(section.mid().as_str().as_bytes(), buffer, needed)
}

/// Copies the codec's name of the row of this place in the agreed section of that place, both counted from 0, and
/// tells its numbers: `OK`, or `TOO_SMALL`, and the buffer is unchanged; `needed` is the name's length in bytes.
/// `NOTHING` if there is none of that place.
#[unsafe(no_mangle)]
pub extern "C" fn jilqamur_end_agreed_row(
    end: &mut EndHandle,
    section: usize,
    index: usize,
    buffer: &mut [u8],
    needed: &mut usize,
    told: &mut WireRow,
) -> u32
    ensures codec { AtObject (end_in end.old) (end_in end.new) result
        (λ p after. IsFetched (codec_of (row_in (section_at p.end section) index)) buffer.old result needed.new
        buffer.new) }
    ensures told { AtObject (end_in end.old) (end_in end.new) result
        (λ p after. TellsRow (row_in (section_at p.end section) index) told.old told.new) }
    ensures closed { result ≡ closed
        → (buffer.new ≡ buffer.old) × (needed.new ≡ needed.old) × (told.new ≡ told.old) }
    ensures nothing { result ≡ nothing → needed.new ≡ needed.old }
    ensures unchanged { end_in end.new ≡ end_in end.old }
{
    if !end.slot.is_open() {
        return codes::CLOSED;
    }
    let Object::End(held) = end.slot.place.held() else {
        unreachable!();
    };
    let Some(section) = section_at(&held.end, section) else {
        return codes::NOTHING;
    };
    let Some(row) = section.rows().get(index) else {
        return codes::NOTHING;
    };
    *told = row_told(row);
    copy_out(row.spec().codec.as_str().as_bytes(), buffer, needed)
}

/// Tells the SSRC of this place, counted from 0, among those that the other end names in the agreed section of that
/// place: `OK`, or `NOTHING` if there is none, and `told` is unchanged.
#[unsafe(no_mangle)]
pub extern "C" fn jilqamur_end_agreed_ssrc(
    end: &mut EndHandle,
    section: usize,
    index: usize,
    told: &mut u32,
) -> u32
    ensures ssrc { AtObject (end_in end.old) (end_in end.new) result
        (λ p after. TellsSsrc (ssrc_in (section_at p.end section) index) told.old result told.new) }
    ensures closed { result ≡ closed → told.new ≡ told.old }
    ensures unchanged { end_in end.new ≡ end_in end.old }
{
    if !end.slot.is_open() {
        return codes::CLOSED;
    }
    let Object::End(held) = end.slot.place.held() else {
        unreachable!();
    };
    let Some(section) = section_at(&held.end, section) else {
        return codes::NOTHING;
    };
    let Some(ssrc) = section.remote_ssrcs().get(index) else {
        return codes::NOTHING;
    };
    *told = ssrc.get();
    codes::OK
}
