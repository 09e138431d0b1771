//! Datagrams in lines of hexadecimal, with or without milliseconds in front.

ghost use Rattle.std.specs.Prelude.{◌≡◌, ◌≢◌, ◌+◌, ◌++◌, ◌<◌, ◌≤◌, ◌==◌, [], IfErr, IfOk, IfSome, OnOk, drop, length};
ghost use Rattle.std.specs.Prelude.{map, option_map, position, take, ℕ};
ghost use Rattle.std.specs.Option.{option_to_list};
ghost use Rattle.media_files_captures.specs.HexLines.{IsBadAt, IsHexText, datagram_at, datagram_in, datagram_shown};
ghost use Rattle.media_files_captures.specs.HexLines.{decimal, hex_bytes, hex_line, line_length, line_shown, said};
ghost use Rattle.media_files_captures.specs.HexLines.{said_shown};
ghost use Rattle.media_files_captures.specs.HexLines.{trimmed, with_digit};

use crate::numbers::rest_from;
use hex::FromHexError;
use std::alloc::{AllocError, Global};
use thiserror::Error;

/// A datagram that a line says.
#[derive(Debug, Drop)]
pub struct HexDatagram {
    /// When it came, in milliseconds, if the line says it.
    pub milliseconds: Option<u64>,
    /// Its bytes.
    pub bytes: Vec<u8>,
}

/// Why a text of hexadecimal can't be read.
#[derive(Clone, Copy, Debug, PartialEq, Eq, Drop, Error)]
pub enum HexError {
    /// The line with this number (from 1) is not a datagram.
    #[error("line {0}: no hexadecimal digits in pairs, with or without milliseconds in front")]
    BadLine(u64),
    /// There is no memory for the datagrams.
    #[error("out of memory")]
    Memory,
}

impl From<AllocError> for HexError {
    ghost use Rattle.std.specs.Prelude.{◌≡◌};
    ghost use Rattle.media_files_captures.specs.declared.hex_lines.HexError.TheVariants.{Memory};

    ghost from_gives = { λ _ e. e ≡ Memory };

    fn from(_error: AllocError) -> Self {
        HexError::Memory
    }
}

/// The bytes of digits in pairs.
#[tactic(auto, unfolding(crate::specs::HexLines::hex_bytes))]
fn hex_bytes(alloc: Global, text: &[u8]) -> Result<Option<Vec<u8>>, AllocError>
    ensures { IfOk result (λ r. option_map (λ v. v.items) r ≡ hex_bytes text.now) }
{
    match hex::decode(alloc, text) {
        Ok(bytes) => Ok(Some(bytes)),
        Err(error) => match error {
            FromHexError::OutOfMemory => Err(AllocError),
            _ => Ok(None),
        },
    }
}

/// A number with a decimal digit after it.
#[tactic(auto, unfolding(crate::specs::HexLines::with_digit))]
fn with_digit(number: u64, digit: u8) -> Option<u64>
    ensures { result ≡ with_digit number digit }
{
    if !(b'0'..=b'9').contains(&digit) {
        return None;
    }
    number.checked_mul(10)?.checked_add((digit - b'0') as u64)
}

/// The number of decimal digits.
#[tactic(auto, unfolding(crate::specs::HexLines::decimal))]
fn decimal(text: &[u8]) -> Option<u64>
    ensures { result ≡ decimal text.now }
{
    if text.is_empty() {
        return None;
    }
    let mut number = 0;
    for digit in text {
        number = with_digit(number, *digit)?;
    }
    Some(number)
}

/// Where the first blank of a line is.
fn blank_of(line: &[u8]) -> Option<usize>
    ensures value { result ≡ position (λ b. b == 32) line.now }
    ensures within { IfSome result (λ n. n < length line.now) }
{
    line.iter().position(|byte| *byte == b' ')
}

/// The datagram in a line whose milliseconds end at a place.
fn datagram_at(
    alloc: Global,
    blank: Option<usize>,
    line: &[u8],
) -> Result<Option<HexDatagram>, AllocError>
    requires { IfSome blank (λ n. n < length line.now) }
    ensures { IfOk result (λ d. option_map datagram_shown d ≡ datagram_at blank line.now) }
{
    let Some(end) = blank else {
        let bytes = hex_bytes(alloc, line)?;
        return Ok(bytes.map(|bytes| HexDatagram {
            milliseconds: None,
            bytes,
        }));
    };
    let Some(milliseconds) = decimal(&line[..end]) else {
        return Ok(None);
    };
    let Some(bytes) = hex_bytes(alloc, rest_from(line, end + 1))? else {
        return Ok(None);
    };
    Ok(Some(HexDatagram {
        milliseconds: Some(milliseconds),
        bytes,
    }))
}

/// The datagram in a line.
#[tactic(auto, unfolding(crate::specs::HexLines::datagram_in))]
fn datagram_in(alloc: Global, line: &[u8]) -> Result<Option<HexDatagram>, AllocError>
    ensures { IfOk result (λ d. option_map datagram_shown d ≡ datagram_in line.now) }
{
    datagram_at(alloc, blank_of(line), line)
}

/// What a line says, if it is no bad one: nothing, or a datagram.
#[tactic(auto, unfolding(crate::specs::HexLines::said))]
fn said(alloc: Global, line: &[u8]) -> Result<Option<Option<HexDatagram>>, AllocError>
    ensures { IfOk result (λ s. said_shown s ≡ said line.now) }
{
    if line.is_empty() || line[0] == b'#' {
        return Ok(Some(None));
    }
    match datagram_in(alloc, line)? {
        Some(datagram) => Ok(Some(Some(datagram))),
        None => Ok(None),
    }
}

/// A line without a carriage return at its end.
#[tactic(auto, unfolding(crate::specs::HexLines::trimmed))]
fn trimmed(line: &[u8]) -> &[u8]
    ensures { result.now ≡ trimmed line.now }
{
    if line.is_empty() {
        return line;
    }
    let last = line.len() - 1;
    if line[last] == b'\r' {
        &line[..last]
    } else {
        line
    }
}

/// How long the first line of a text is, without its line feed.
fn line_len(text: &[u8]) -> usize
    ensures value { result ≡ line_length text.now }
    ensures within { result ≤ length text.now }
{
    text.iter().take_while(|byte| **byte != b'\n').count()
}

/// What follows a line feed at a place, or nothing at the end.
fn behind_line(text: &[u8], len: usize) -> &[u8]
    requires { len ≤ length text.now }
    ensures value { result.now ≡ drop (len + 1) text.now }
    ensures shorter { 0 < length text.now → length result.now < length text.now }
{
    if len < text.len() {
        rest_from(text, len + 1)
    } else {
        &[]
    }
}

/// What the first line of a text says, and what follows it; None for a bad line.
#[tactic(auto, unfolding(crate::specs::HexLines::hex_line))]
fn hex_line(alloc: Global, text: &[u8]) -> Result<Option<(Option<HexDatagram>, &[u8])>, AllocError>
    requires { 0 < length text.now }
    ensures value { IfOk result (λ l. line_shown l ≡ hex_line text.now) }
    ensures shorter { IfOk result (λ l. IfSome l (λ s. length s.1.now < length text.now)) }
{
    let len = line_len(text);
    let Some(said) = said(alloc, trimmed(&text[..len]))? else {
        return Ok(None);
    };
    Ok(Some((said, behind_line(text, len))))
}

/// Takes what a line says, if it is a datagram.
fn take_said(said: Option<HexDatagram>, datagrams: &mut Vec<HexDatagram>) -> Result<(), AllocError>
    ensures { OnOk result (map datagram_shown datagrams.new.items
        ≡ map datagram_shown datagrams.old.items ++ option_to_list (option_map datagram_shown said)) }
{
    if let Some(datagram) = said {
        datagrams.push(datagram)?;
    }
    Ok(())
}

/// The datagrams in lines of hexadecimal digits in pairs, each with or without a decimal number of milliseconds and a
/// blank in front. Empty lines and those that begin with '#' say nothing; a line may end with a carriage return.
///
/// # Errors
/// A line is none of these (the first such line is named), or there is no memory for the datagrams.
pub fn read_hex_lines(alloc: Global, text: &[u8]) -> Result<Vec<HexDatagram>, HexError>
    ensures value { IfOk result (λ v. IsHexText text.now (map datagram_shown v.items)) }
    ensures refused { IfErr result (λ e. e ≢ HexError.Memory
        → (number : ℕ) × (e ≡ HexError.BadLine number) × IsBadAt text.now number) }
{
    let mut datagrams = Vec::new(alloc);
    let mut rest = text;
    let mut number = 0;
    while !rest.is_empty() {
        number += 1;
        let Some((said, behind)) = hex_line(alloc, rest)? else {
            return Err(HexError::BadLine(number));
        };
        take_said(said, &mut datagrams)?;
        rest = behind;
    }
    Ok(datagrams)
}
