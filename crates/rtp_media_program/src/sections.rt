//! The sections that a line names.

ghost use Rattle.std.specs.Prelude.{◌≡◌, ◌≢◌, ℕ, ◌^◌, List, ◌∷◌, IfErr};
ghost use Rattle.std.specs.Option.{option_copied};
ghost use Rattle.rtp_media_program.specs.Sections.{kind_of, direction_of, colon_parts, colon_parts_in, plus_parts};
ghost use Rattle.rtp_media_program.specs.Sections.{plus_parts_in, repair_of, source_of, sources_of};
ghost use Rattle.rtp_media_program.specs.Sections.{section_of, sections_of, sections_then_slash};
ghost use Rattle.rtp_media_program.specs.Words.{ended, number_below};
ghost use Rattle.rtp_media_program.specs.Misreads.{Reads};

use crate::fields::{number_up_to, split_comma};
use crate::misread::Misread;
use crate::owned::Word;
use crate::words::WordsLeft;
use media_types::MediaKind;
use rtp_wire::Direction;
use std::alloc::Global;
use std::marker::Model;

/// `SSRC` or `SSRC+REPAIR`: a synchronization source, and the one that repairs it (RFC 5576 4.1, RFC 4588 8.3).
#[derive(Clone, Copy, Debug, PartialEq, Eq, Drop)]
pub struct SourceWord {
    /// The source.
    pub ssrc: u32,
    /// The source that sends its datagrams again.
    pub repair: Option<u32>,
}

/// The synchronization sources that a section names.
#[derive(Drop)]
pub struct Sources {
    items: Vec<SourceWord>,
}

impl Model for Sources {
    ghost use Rattle.std.specs.Prelude.{List};
    ghost use Rattle.rtp_media_program.specs.declared.sections.SourceWord.{SourceWord};

    ghost Value = { List SourceWord };

    ghost view = { λ s. s.items.items };
}

impl Sources {
    /// The sources.
    pub fn as_slice(&self) -> &[SourceWord]
        ensures { result.now ≡ self.now }
    {
        self.items.as_slice()
    }
}

/// `MID:KIND:DIR:SOURCE,SOURCE`: a section as an end wants it.
pub struct SectionWord {
    /// The media identification (RFC 5888 4), which may be empty here.
    pub mid: Word,
    /// Audio or video.
    pub kind: MediaKind,
    /// Which way the end wants media to flow.
    pub direction: Direction,
    /// The synchronization sources that the end sends under.
    pub sources: Sources,
}

/// Written by hand, so that crates that drop this type need no proof about its fields.
impl Drop for SectionWord {
    fn drop(self) {
        let SectionWord {
            mid: _mid,
            kind: _kind,
            direction: _direction,
            sources: _sources,
        } = self;
    }
}

/// Sections, one after the other.
#[derive(Drop)]
pub struct Sections {
    items: Vec<SectionWord>,
}

impl Model for Sections {
    ghost use Rattle.std.specs.Prelude.{List};
    ghost use Rattle.rtp_media_program.specs.declared.sections.SectionWord.{SectionWord};

    ghost Value = { List SectionWord };

    ghost view = { λ s. s.items.items };
}

impl Sections {
    /// The sections.
    pub fn as_slice(&self) -> &[SectionWord]
        ensures { result.now ≡ self.now }
    {
        self.items.as_slice()
    }
}

/// The kind of media that a word names.
fn kind_of(word: &str) -> Option<MediaKind>
    ensures { result ≡ kind_of word.now }
{
    match word {
        "audio" => Some(MediaKind::Audio),
        "video" => Some(MediaKind::Video),
        _ => None,
    }
}

/// The direction that a word names.
fn direction_of(word: &str) -> Option<Direction>
    ensures { result ≡ direction_of word.now }
{
    match word {
        "sendrecv" => Some(Direction::SendRecv),
        "sendonly" => Some(Direction::SendOnly),
        "recvonly" => Some(Direction::RecvOnly),
        "inactive" => Some(Direction::Inactive),
        _ => None,
    }
}

/// The text before the first plus sign, and what follows that sign.
fn split_plus(text: &str) -> (&str, Option<&str>)
    ensures { plus_parts text.now ≡ result.0.now ∷ plus_parts_in (option_copied result.1) }
{
    match text.split_once('+') {
        Some((part, rest)) => (part, Some(rest)),
        None => (text, None),
    }
}

/// A number of 32 bits.
fn ssrc_of(word: &str) -> Result<u32, Misread>
    ensures value { Reads result (number_below (2 ^ 32) word.now) }
    ensures never_memory { IfErr result (λ e. e ≢ Misread.Memory) }
{
    match number_up_to(word, u32::MAX as u64) {
        Some(number) => Ok(number as u32),
        None => Err(Misread::NotUnderstood),
    }
}

/// No part is left.
fn end_of_plus_parts(parts: Option<&str>) -> Result<(), Misread>
    ensures value { Reads result (ended (plus_parts_in (option_copied parts.entry)) tt) }
    ensures never_memory { IfErr result (λ e. e ≢ Misread.Memory) }
{
    match parts {
        None => Ok(()),
        Some(_) => Err(Misread::NotUnderstood),
    }
}

/// The source that repairs, of the parts after a source.
fn repair_of(parts: Option<&str>) -> Result<Option<u32>, Misread>
    ensures value { Reads result (repair_of (plus_parts_in (option_copied parts.entry))) }
    ensures never_memory { IfErr result (λ e. e ≢ Misread.Memory) }
{
    let Some(rest) = parts else {
        return Ok(None);
    };
    let (part, rest) = split_plus(rest);
    let ssrc = ssrc_of(part)?;
    end_of_plus_parts(rest)?;
    Ok(Some(ssrc))
}

/// The source of a word.
#[tactic(auto, unfolding(crate::specs::Sections::source_of))]
fn source_of(word: &str) -> Result<SourceWord, Misread>
    ensures value { Reads result (source_of word.now) }
    ensures never_memory { IfErr result (λ e. e ≢ Misread.Memory) }
{
    let (ssrc, rest) = split_plus(word);
    let ssrc = ssrc_of(ssrc)?;
    let repair = repair_of(rest)?;
    Ok(SourceWord { ssrc, repair })
}

/// The sources that are between single commas, or none at a dash.
fn sources_of(alloc: Global, word: &str) -> Result<Sources, Misread>
    ensures { Reads result (sources_of word.now) }
{
    let mut items = Vec::new(alloc);
    if word == "-" {
        return Ok(Sources { items });
    }
    let mut rest = Some(word);
    while let Some(text) = rest {
        let (source, after) = split_comma(text);
        items.push(source_of(source)?)?;
        rest = after;
    }
    Ok(Sources { items })
}

/// The text before the first colon, and what follows that colon.
fn split_colon(text: &str) -> (&str, Option<&str>)
    ensures { colon_parts text.now ≡ result.0.now ∷ colon_parts_in (option_copied result.1) }
{
    match text.split_once(':') {
        Some((part, rest)) => (part, Some(rest)),
        None => (text, None),
    }
}

/// No part is left.
fn end_of_parts(parts: Option<&str>) -> Result<(), Misread>
    ensures { Reads result (ended (colon_parts_in (option_copied parts.entry)) tt) }
{
    match parts {
        None => Ok(()),
        Some(_) => Err(Misread::NotUnderstood),
    }
}

/// The section of a word.
#[tactic(auto, unfolding(crate::specs::Sections::section_of))]
fn section_of(alloc: Global, word: &str) -> Result<SectionWord, Misread>
    ensures { Reads result (section_of word.now) }
{
    let (mid, Some(rest)) = split_colon(word) else {
        return Err(Misread::NotUnderstood);
    };
    let (kind, Some(rest)) = split_colon(rest) else {
        return Err(Misread::NotUnderstood);
    };
    let (direction, Some(rest)) = split_colon(rest) else {
        return Err(Misread::NotUnderstood);
    };
    let (sources, rest) = split_colon(rest);
    end_of_parts(rest)?;
    let (Some(kind), Some(direction)) = (kind_of(kind), direction_of(direction)) else {
        return Err(Misread::NotUnderstood);
    };
    let sources = sources_of(alloc, sources)?;
    Ok(SectionWord {
        mid: Word::from_str(alloc, mid)?,
        kind,
        direction,
        sources,
    })
}

/// The sections of all words that are left.
///
/// # Errors
///
/// `NotUnderstood` if a word is no section; or `Memory`.
pub fn section_words(alloc: Global, words: WordsLeft<'_>) -> Result<Sections, Misread>
    ensures { Reads result (sections_of words.entry) }
{
    let mut items = Vec::new(alloc);
    let mut rest = words;
    while let Ok((word, after)) = rest.next() {
        items.push(section_of(alloc, word)?)?;
        rest = after;
    }
    Ok(Sections { items })
}

/// The sections of the words before a slash, and the words after it.
///
/// # Errors
///
/// `NotUnderstood` if there is no slash, or a word before it is no section; or `Memory`.
pub fn sections_before_slash(
    alloc: Global,
    words: WordsLeft<'_>,
) -> Result<(Sections, WordsLeft<'_>), Misread>
    ensures { Reads result (sections_then_slash words.entry) }
{
    let mut items = Vec::new(alloc);
    let mut rest = words;
    loop {
        let (word, after) = rest.next()?;
        rest = after;
        if word == "/" {
            return Ok((Sections { items }, rest));
        }
        items.push(section_of(alloc, word)?)?;
    }
}
