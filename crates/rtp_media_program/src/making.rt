//! The commands that make ends.

ghost use Rattle.std.specs.Prelude.{◌≡◌, IfOk};
ghost use Rattle.rtp_media_program.specs.Making.{AnswersExt, AnswersFixed, AnswersRow, MakesEnd};
ghost use Rattle.rtp_media_program.specs.Making.{drafted_row, format_for};

use crate::draft::EndAndDraft;
use crate::end_error_names::end_error_name;
use crate::exchange::{EndCommand, ExtCommand, RowCommand};
use crate::memory_name::memory;
use crate::owned::Word;
use crate::replies::one;
use crate::reply::Reply;
use media_types::Codec;
use rtp_media_ends::End;
use rtp_wire::{Extension, ExtensionMap, Frequency, Pt, SessionId};
use sdp_formats_data::Session;
use sdp_formats_rounds::CodecConfig;
use sdp_formats_rows::{CodecSpec, FormatParams, PayloadParams};
use std::alloc::{AllocError, Global};
use std::mem;

/// The format of a command.
fn format_for(text: &Option<Word>) -> FormatParams
    ensures { result ≡ format_for text.now }
{
    match text {
        Some(text) => FormatParams::parse_line(text.as_str()),
        None => FormatParams::default(),
    }
}

/// The row that a command drafts.
fn drafted_row(command: &RowCommand, clock_rate: Frequency) -> PayloadParams
    requires { clock_rate ≡ command.now.clock_rate }
    ensures { result ≡ drafted_row command.now }
{
    let spec = CodecSpec {
        codec: Codec::from(command.codec.as_str()),
        clock_rate,
        channels: command.channels,
        format: format_for(&command.format),
    };
    let row = PayloadParams::new(Pt::from(command.pt), command.resend.map(Pt::from), spec);
    match command.red {
        Some(red) => row.with_red(Pt::from(red)),
        None => row,
    }
}

/// Puts a row into the draft: an error line, if its clock rate is 0.
///
/// # Errors
/// If memory runs out.
pub fn draft_row(
    alloc: Global,
    kept: &mut EndAndDraft,
    command: RowCommand,
) -> Result<Vec<Reply>, AllocError>
    ensures { IfOk result (λ replies. AnswersRow kept.old command kept.new replies.items) }
{
    let Some(clock_rate) = Frequency::new(command.clock_rate) else {
        return one(alloc, Reply::ErrorLine);
    };
    kept.rows.push(drafted_row(&command, clock_rate))?;
    one(alloc, Reply::Done)
}

/// Puts a header extension into the draft: an error line, if its number isn't one of 1 to 16.
///
/// # Errors
/// If memory runs out.
pub fn draft_ext(
    alloc: Global,
    kept: &mut EndAndDraft,
    command: ExtCommand,
) -> Result<Vec<Reply>, AllocError>
    ensures { IfOk result (λ replies. AnswersExt kept.old command kept.new replies.items) }
{
    if command.id < 1 || command.id > 16 {
        return one(alloc, Reply::ErrorLine);
    }
    let ext = Extension::from_sdp_uri(alloc, command.uri.as_str())?;
    kept.exts.set(command.id, ext);
    one(alloc, Reply::Done)
}

/// Makes an end of a draft, which is emptied, refused or not.
///
/// # Errors
/// If memory for the reply runs out; a refusal is a reply.
#[tactic(auto, using(rtp_media_ends::proofs::BareSession::refused_bare))]
pub fn make_end(
    alloc: Global,
    kept: &mut EndAndDraft,
    command: EndCommand,
) -> Result<Vec<Reply>, AllocError>
    ensures { IfOk result (λ replies. MakesEnd kept.old command kept.new replies.items) }
{
    let rows = mem::replace(&mut kept.rows, Vec::new(alloc));
    let exts = mem::replace(&mut kept.exts, ExtensionMap::empty());
    let config = CodecConfig::new_from_payload_params(rows);
    let session = Session::new(alloc, SessionId::from(command.session));
    match End::new(alloc, config, session, exts) {
        Ok(end) => {
            kept.end = Some(end);
            one(alloc, Reply::Done)
        }
        Err(error) => one(alloc, Reply::Refused(end_error_name(error))),
    }
}

/// Makes the fixed end: of one section, `0`, with Opus under type 111, and SSRC 44 at both sides.
///
/// # Errors
/// If memory for the reply runs out.
pub fn make_fixed(alloc: Global, end: &mut Option<End>) -> Result<Vec<Reply>, AllocError>
    ensures { IfOk result (λ replies. AnswersFixed end.old end.new replies.items) }
{
    match End::fixed(alloc) {
        Ok(fixed) => {
            *end = Some(fixed);
            one(alloc, Reply::Done)
        }
        Err(_) => one(alloc, Reply::Refused(memory())),
    }
}
