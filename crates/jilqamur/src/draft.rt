//! What an end is made of and what it exchanges, gathered call by call.

ghost use Rattle.std.specs.Prelude.{◌≡◌, ◌≢◌, [], IfOk};
ghost use Rattle.rtp_wire.specs.Maps.{empty_map};
ghost use Rattle.sdp_formats_rows.specs.DefaultRows.{default_rows};
ghost use Rattle.jilqamur.specs.Codes.{ok, memory};
ghost use Rattle.jilqamur.specs.DraftedRows.{row_of, row_outcome};
ghost use Rattle.jilqamur.specs.Drafts.{empty_draft, with_repair, with_row, with_rows, with_section};
ghost use Rattle.jilqamur.specs.Drafts.{with_extension};
ghost use Rattle.jilqamur.specs.Drafts.{kind_of, section_of, section_outcome, extension_outcome};
ghost use Rattle.jilqamur.specs.Requests.{HasRequest, IsRequest};
ghost use Rattle.rtp_media_sections.specs.Answered.{flow};

use crate::codes;
use crate::copying::text_in;
use crate::row::{WireRow, row_of};
use media_types::MediaKind;
use rtp_media_browsers::SectionRequest;
use rtp_media_sections::{SectionSpec, flow};
use rtp_wire::{Direction, Extension, ExtensionMap, Frequency, Mid, Ssrc};
use sdp_formats_rounds::CodecConfig;
use sdp_formats_rows::PayloadParams;
use std::alloc::{AllocError, Global};
use std::marker::Model;
use std::mem;

/// The draft: rows and extension map of the next end; sections of the next offer or answer; requests
/// for the sections of a browser's offer; and the (SSRC, RTX SSRC) pairs of the next section or
/// request.
pub struct Draft {
    rows: Vec<PayloadParams>,
    exts: ExtensionMap,
    sections: Vec<SectionSpec>,
    requests: Vec<SectionRequest>,
    repairs: Vec<(Ssrc, Ssrc)>,
}

/// Written by hand, so that crates that drop this type need no proof about its fields.
impl Drop for Draft {
    fn drop(self) {
        let Draft {
            rows: _rows,
            exts: _exts,
            sections: _sections,
            requests: _requests,
            repairs: _repairs,
        } = self;
    }
}

impl Model for Draft {
    ghost use Rattle.jilqamur.specs.Drafts.{DraftState};
    ghost use Rattle.rtp_wire.specs.Replay.{window_code};
    ghost use Rattle.std.specs.Coded.{codes};

    ghost Value = { DraftState };

    ghost coded = { Prim.hlevel (codes, window_code) };

    ghost view = { λ d. record {
      rows = d.rows.items;
      exts = d.exts;
      sections = d.sections.items;
      requests = d.requests.items;
      repairs = d.repairs.items;
    } };
}

fn kind_of(is_video: bool) -> MediaKind
    ensures { result ≡ kind_of is_video }
{
    if is_video {
        MediaKind::Video
    } else {
        MediaKind::Audio
    }
}

fn ssrcs_of(alloc: Global, ssrcs: &[u32]) -> Result<Vec<Ssrc>, AllocError>
    ensures { IfOk result (λ all. all.items ≡ ssrcs.now) }
{
    ssrcs.iter().map(|ssrc| Ssrc::from(*ssrc)).collect(alloc)
}

/// The request for a section, or that it be rejected.
fn request_of(
    is_accepted: bool,
    direction: Direction,
    ssrcs: Vec<Ssrc>,
    repairs: Vec<(Ssrc, Ssrc)>,
) -> SectionRequest
    ensures { IsRequest is_accepted direction ssrcs.items repairs.items result }
{
    if !is_accepted {
        return SectionRequest::Reject;
    }
    SectionRequest::Accept {
        direction,
        ssrcs,
        repairs,
    }
}

impl Draft {
    /// One without rows, header extensions and sections.
    pub fn empty(alloc: Global) -> Self
        ensures { result ≡ empty_draft }
    {
        Draft {
            rows: Vec::new(alloc),
            exts: ExtensionMap::empty(),
            sections: Vec::new(alloc),
            requests: Vec::new(alloc),
            repairs: Vec::new(alloc),
        }
    }

    /// Appends a row to the draft, with a codec by name and the parameters of an `a=fmtp` line, and
    /// returns `OK`; or `OUT_OF_RANGE` for a clock rate of 0, otherwise `NOT_TEXT`, or `MEMORY`,
    /// and nothing has changed.
    pub fn add_row(&mut self, row: &WireRow, codec: &[u8], format: &[u8]) -> u32
        ensures outcome { result ≢ memory → result ≡ row_outcome row.now codec.now format.now }
        ensures added { result ≡ ok → self.new ≡ with_row self.old (row_of row.now codec.now format.now) }
        ensures unchanged { result ≢ ok → self.new ≡ self.old }
    {
        let Some(clock_rate) = Frequency::new(row.clock_rate) else {
            return codes::OUT_OF_RANGE;
        };
        let Some(codec) = text_in(codec) else {
            return codes::NOT_TEXT;
        };
        let Some(format) = text_in(format) else {
            return codes::NOT_TEXT;
        };
        match self.rows.push(row_of(row, clock_rate, codec, format)) {
            Ok(()) => codes::OK,
            Err(_) => codes::MEMORY,
        }
    }

    /// Puts the default rows of Opus, VP8, H.264, H.265, VP9 and AV1 after those of the draft, in this order, and
    /// returns `OK`; or `MEMORY`, and nothing has changed.
    pub fn add_default_rows(&mut self, alloc: Global) -> u32
        ensures outcome { result ≢ memory → result ≡ ok }
        ensures added { result ≡ ok → self.new ≡ with_rows self.old default_rows }
        ensures unchanged { result ≢ ok → self.new ≡ self.old }
    {
        let Ok(config) = CodecConfig::new_with_defaults(alloc) else {
            return codes::MEMORY;
        };
        match self.rows.extend_from_slice(config.params()) {
            Ok(()) => codes::OK,
            Err(_) => codes::MEMORY,
        }
    }

    /// Gives a header extension this id in the draft's map, replacing any that had it, and returns
    /// `OK`; or `OUT_OF_RANGE` for an id outside 1 to 16, otherwise `NOT_TEXT`, or `MEMORY`, and
    /// nothing has changed.
    pub fn set_extension(&mut self, alloc: Global, id: u8, uri: &[u8]) -> u32
        ensures outcome { result ≢ memory → result ≡ extension_outcome id uri.now }
        ensures put { result ≡ ok → self.new ≡ with_extension self.old id uri.now }
        ensures unchanged { result ≢ ok → self.new ≡ self.old }
    {
        if id < 1 || id > 16 {
            return codes::OUT_OF_RANGE;
        }
        let Some(uri) = text_in(uri) else {
            return codes::NOT_TEXT;
        };
        match Extension::from_sdp_uri(alloc, uri) {
            Ok(extension) => {
                self.exts.set(id, extension);
                codes::OK
            }
            Err(_) => codes::MEMORY,
        }
    }

    /// Makes one SSRC the RTX SSRC of another in the next section or request (RFC 4588 8.3), and
    /// returns `OK`; or `MEMORY`, and nothing has changed.
    pub fn add_repair(&mut self, ssrc: u32, repair: u32) -> u32
        ensures outcome { result ≢ memory → result ≡ ok }
        ensures added { result ≡ ok → self.new ≡ with_repair self.old ssrc repair }
        ensures unchanged { result ≢ ok → self.new ≡ self.old }
    {
        match self.repairs.push((Ssrc::from(ssrc), Ssrc::from(repair))) {
            Ok(()) => codes::OK,
            Err(_) => codes::MEMORY,
        }
    }

    /// The pairs for the next section.
    pub fn repairs(&self) -> Result<Vec<(Ssrc, Ssrc)>, AllocError>
        ensures { IfOk result (λ pairs. pairs.items ≡ self.now.repairs) }
    {
        Ok(self.repairs.clone()?)
    }

    /// Appends a section to the next offer or answer, with the pairs collected so far, which are
    /// used up, and returns `OK`; or `NOT_TEXT`, or `MEMORY`, and nothing has changed.
    pub fn add_section(
        &mut self,
        alloc: Global,
        mid: &[u8],
        is_video: bool,
        sends: bool,
        receives: bool,
        ssrcs: &[u32],
    ) -> u32
        ensures outcome { result ≢ memory → result ≡ section_outcome mid.now }
        ensures added { result ≡ ok → self.new ≡ with_section self.old
            (section_of mid.now is_video sends receives ssrcs.now self.old.repairs) }
        ensures unchanged { result ≢ ok → self.new ≡ self.old }
    {
        let Some(mid) = text_in(mid) else {
            return codes::NOT_TEXT;
        };
        let (Ok(ssrcs), Ok(repairs)) = (ssrcs_of(alloc, ssrcs), self.repairs()) else {
            return codes::MEMORY;
        };
        let section = SectionSpec {
            mid: Mid::from(mid),
            kind: kind_of(is_video),
            dir: flow(sends, receives),
            ssrcs,
            repairs,
        };
        match self.sections.push(section) {
            Ok(()) => {
                self.repairs = Vec::new(alloc);
                codes::OK
            }
            Err(_) => codes::MEMORY,
        }
    }

    /// Puts a request after those for the sections of the next browser's offer, with the repairs that are there, which
    /// are used up, and returns `OK`; or `MEMORY`, and nothing has changed.
    pub fn add_request(
        &mut self,
        alloc: Global,
        is_accepted: bool,
        sends: bool,
        receives: bool,
        ssrcs: &[u32],
    ) -> u32
        ensures outcome { result ≢ memory → result ≡ ok }
        ensures added { result ≡ ok → HasRequest self.old is_accepted (flow sends receives) ssrcs.now self.new }
        ensures unchanged { result ≢ ok → self.new ≡ self.old }
    {
        let (Ok(ssrcs), Ok(repairs)) = (ssrcs_of(alloc, ssrcs), self.repairs()) else {
            return codes::MEMORY;
        };
        let request = request_of(is_accepted, flow(sends, receives), ssrcs, repairs);
        match self.requests.push(request) {
            Ok(()) => {
                self.repairs = Vec::new(alloc);
                codes::OK
            }
            Err(_) => codes::MEMORY,
        }
    }

    /// The requests, which are used up; all else stays.
    pub fn take_requests(&mut self, alloc: Global) -> Vec<SectionRequest>
        ensures requests { result.items ≡ self.old.requests }
        ensures rest { self.new ≡ record self.old { requests = [] } }
    {
        mem::replace(&mut self.requests, Vec::new(alloc))
    }

    /// The rows, as a config, and the map of header extensions, which are used up; sections and requests stay.
    pub fn take_media(&mut self, alloc: Global) -> (CodecConfig, ExtensionMap)
        ensures config { result.0 ≡ record { rows = self.old.rows; distances = [] } }
        ensures exts { result.1 ≡ self.old.exts }
        ensures rest { self.new ≡ record self.old { rows = []; exts = empty_map } }
    {
        let rows = mem::replace(&mut self.rows, Vec::new(alloc));
        let exts = mem::replace(&mut self.exts, ExtensionMap::empty());
        (CodecConfig::new_from_payload_params(rows), exts)
    }

    /// The sections, which are used up; all else stays.
    pub fn take_sections(&mut self, alloc: Global) -> Vec<SectionSpec>
        ensures sections { result.items ≡ self.old.sections }
        ensures rest { self.new ≡ record self.old { sections = [] } }
    {
        mem::replace(&mut self.sections, Vec::new(alloc))
    }
}
