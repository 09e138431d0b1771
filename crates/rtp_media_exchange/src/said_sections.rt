//! The sections that a text says.

ghost use Rattle.std.specs.Prelude.{◌≡◌, map, IfErr, IfOk};
ghost use Rattle.rtp_media_exchange.specs.Reading.{IsUnread};
ghost use Rattle.rtp_media_exchange.specs.Says.{SaysOnly, SaysSections};
ghost use Rattle.rtp_media_sections.specs.Lines.{section_of};

use crate::errors::ExchangeError;
use rtp_media_sections::Section;
use sdp_formats_data::{MediaLine, Sdp, SdpError};
use sdp_formats_reader::sdp_parser;
use std::alloc::{AllocError, Global};

fn read_lines(alloc: Global, text: &str) -> Result<Vec<MediaLine>, ExchangeError>
    ensures says { IfOk result (λ lines. SaysOnly text.now lines.items) }
    ensures refused { IfErr result (λ e. IsUnread text.now e) }
{
    match sdp_parser(alloc, text) {
        Ok((sdp, _)) => {
            let Sdp { media_lines, .. } = sdp;
            Ok(media_lines.into_vec())
        }
        Err(SdpError::Memory) => Err(ExchangeError::Memory),
        Err(fault) => Err(ExchangeError::Unreadable(fault)),
    }
}

fn read_sections(alloc: Global, lines: &[MediaLine]) -> Result<Vec<Section>, AllocError>
    ensures { IfOk result (λ sections. sections.items ≡ map section_of lines.now) }
{
    let mut sections = Vec::new(alloc);
    for line in lines {
        sections.push(Section::read(alloc, line)?)?;
    }
    Ok(sections)
}

/// What the sections of a text say, each read once; what is from the first line on that fits nowhere is passed
/// over.
///
/// # Errors
///
/// `Unreadable` with the reader's error; or `Memory`.
pub(crate) fn read(alloc: Global, text: &str) -> Result<Vec<Section>, ExchangeError>
    ensures says { IfOk result (λ sections. SaysSections text.now sections.items) }
    ensures refused { IfErr result (λ e. IsUnread text.now e) }
{
    let lines = read_lines(alloc, text)?;
    let sections = read_sections(alloc, lines.as_slice())?;
    Ok(sections)
}
