//! The commands.

use crate::formats::{Formats, take_up};
use crate::info::info;
use crate::profiles::{idc, level, profile};
use crate::samples::{head, keyframe, pack, pushed, read, short_packets, unit};
use crate::units::{header, shows, units};
use crate::{boxed, events, redundancy, vp8};
use payload_core::RedSender;
use std::alloc::{AllocError, Global};
use words_and_replies::CommandLine;

/// What lines set for the lines after them: a payload format, and the state for redundancy.
#[derive(Drop)]
pub(crate) struct Kept {
    formats: Option<Formats>,
    sender: RedSender,
}

impl Kept {
    /// No payload format was taken up, and no payload was sent.
    pub(crate) fn new(alloc: Global) -> Result<Kept, AllocError> {
        Ok(Kept {
            formats: None,
            sender: RedSender::new(alloc, &[])?,
        })
    }
}

/// Answers a line by what those before it set.
pub(crate) fn answer(line: &mut CommandLine<'_>, kept: &mut Kept) {
    let Some(command) = line.command() else {
        return;
    };
    match command {
        "codec" => take_up(line, &mut kept.formats),
        "boxed" => boxed::answer(line),
        "red" => redundancy::answer(line, &mut kept.sender),
        "vp8" => vp8::answer(line),
        "event" => events::answer(line),
        "units" => units(line),
        "shows" => shows(line),
        "header" => header(line),
        "profile" => profile(line),
        "idc" => idc(line),
        "level" => level(line),
        _ => match &mut kept.formats {
            Some(formats) => of_format(line, formats, command),
            None => line.refuse("no codec yet"),
        },
    }
}

/// What a command gives about the payload format that was taken up last.
fn of_format(line: &mut CommandLine<'_>, formats: &mut Formats, command: &str) {
    match command {
        "pack" => pack(line, &mut formats.payloader),
        "read" => read(line, &formats.format),
        "push" => pushed(line, formats),
        "pop" => unit(line, formats.buffer.pop()),
        "drain" => unit(line, formats.buffer.drain()),
        "short" => short_packets(line, &formats.format),
        "head" => head(line, &formats.format),
        "keyframe" => keyframe(line, formats.format.codec),
        "info" => info(line, formats.format.codec),
        _ => line.refuse(format_args!("no command {command}")),
    }
}
