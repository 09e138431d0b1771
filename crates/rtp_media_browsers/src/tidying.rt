//! Lines of browsers' texts that browsers take and the reader refuses.

ghost use Rattle.std.specs.Prelude.{◌≡◌, ◌++◌, IfOk, OnOk};
ghost use Rattle.std.specs.String.{string_bytes};
ghost use Rattle.rtp_media_browsers.specs.Known.{known_line};
ghost use Rattle.rtp_media_browsers.specs.Tidied.{begins, behind_line, behind_section, closing, ended, has_type};
ghost use Rattle.rtp_media_browsers.specs.Tidied.{is_again, is_blank, is_left_out, mapped_type, name_line, next_number};
ghost use Rattle.rtp_media_browsers.specs.Tidied.{start, tidied, with_type, written_line};

use crate::known::known_line;
use sdp_formats_grammar::{first_part, halves, number_8, stripped};
use std::alloc::{AllocError, Global};
use std::marker::Model;

/// What the lines of a text so far leave open.
#[derive(Drop)]
struct Passed {
    in_section: bool,
    is_closed: bool,
    is_named: bool,
    types: Vec<u8>,
    number: u64,
}

impl Model for Passed {
    ghost use Rattle.rtp_media_browsers.specs.Tidied.{Passing};

    ghost Value = { Passing };

    ghost view = { λ p. record {
      in_section = p.in_section;
      is_closed = p.is_closed;
      is_named = p.is_named;
      types = p.types.items;
      number = p.number;
    } };
}

/// Whether a line begins with these words.
fn begins(words: &str, line: &str) -> bool
    ensures { result ≡ begins words.now line.now }
{
    stripped(line, words).is_some()
}

/// Whether there is nothing in a line but its CR.
fn is_blank(line: &str) -> bool
    ensures { result ≡ is_blank line.now }
{
    line.is_empty() || line == "\r"
}

/// The payload type that a line maps.
fn mapped_type(line: &str) -> Option<u8>
    ensures { result ≡ mapped_type line.now }
{
    let rest = stripped(line, "a=rtpmap:")?;
    match number_8(halves(rest, ' ').0) {
        Ok(pt) => Some(pt),
        Err(_) => None,
    }
}

fn has_type(types: &[u8], pt: u8) -> bool
    ensures { result ≡ has_type types.now pt }
{
    types.iter().any(|other| *other == pt)
}

/// Whether this type is mapped already.
fn is_again(types: &[u8], pt: Option<u8>) -> bool
    ensures { result ≡ is_again types.now pt }
{
    match pt {
        Some(pt) => has_type(types, pt),
        None => false,
    }
}

/// The number of the next section; the last one that there is stays.
fn next_number(number: u64) -> u64
    ensures { result ≡ next_number number }
{
    if number == u64::MAX {
        return number;
    }
    number + 1
}

fn push_type(types: &mut Vec<u8>, pt: Option<u8>) -> Result<(), AllocError>
    ensures { OnOk result (types.new.items ≡ with_type types.old.items pt) }
{
    match pt {
        Some(pt) => {
            types.push(pt)?;
            Ok(())
        }
        None => Ok(()),
    }
}

/// Adds the name of a section by its place.
fn push_name(alloc: Global, number: u64, out: &mut String) -> Result<(), AllocError>
    ensures { OnOk result (string_bytes out.new ≡ string_bytes out.old ++ name_line number) }
{
    let line = format!(in alloc; "a=mid:place_{number}\r\n")?;
    out.push_str(line.as_str())
}

/// Adds a line with its end.
fn push_ended(alloc: Global, line: &str, out: &mut String) -> Result<(), AllocError>
    ensures { OnOk result (string_bytes out.new ≡ string_bytes out.old ++ ended line.now) }
{
    let text = format!(in alloc; "{line}\n")?;
    out.push_str(text.as_str())
}

impl Passed {
    fn start(alloc: Global) -> Passed
        ensures { result ≡ start }
    {
        Passed {
            in_section: false,
            is_closed: false,
            is_named: false,
            types: Vec::new(alloc),
            number: 0,
        }
    }

    /// Whether a line is left out.
    #[tactic(auto, unfolding(crate::specs::Tidied::is_left_out))]
    fn leaves_out(&self, line: &str) -> bool
        ensures { result ≡ is_left_out self.now line.now }
    {
        let again = is_again(self.types.as_slice(), mapped_type(line));
        is_blank(line) || (self.in_section && ((self.is_closed && begins("b=", line)) || again))
    }

    /// Goes on after the line of a new section.
    fn pass_section(&mut self)
        ensures { self.new ≡ behind_section self.old }
    {
        if self.in_section {
            self.number = next_number(self.number);
        }
        self.in_section = true;
        self.is_closed = false;
        self.is_named = false;
        self.types.clear();
    }

    /// Goes on after any other line.
    fn pass_line(&mut self, line: &str) -> Result<(), AllocError>
        ensures { OnOk result (self.new ≡ behind_line self.old line.now) }
    {
        push_type(&mut self.types, mapped_type(line))?;
        self.is_closed = self.is_closed || begins("b=", line) || begins("a=", line);
        self.is_named = self.is_named || begins("a=mid:", line);
        Ok(())
    }

    /// Adds a name to a section that has none.
    #[tactic(auto, unfolding(crate::specs::Tidied::closing))]
    fn push_closing(&self, alloc: Global, out: &mut String) -> Result<(), AllocError>
        ensures { OnOk result (string_bytes out.new ≡ string_bytes out.old ++ closing self.now) }
    {
        if !self.in_section || self.is_named {
            return Ok(());
        }
        push_name(alloc, self.number, out)
    }

    /// Adds the line of a new section, and a name before it if the last one has none.
    fn push_section(
        &mut self,
        alloc: Global,
        line: &str,
        out: &mut String,
    ) -> Result<(), AllocError>
        ensures after { OnOk result (self.new ≡ behind_section self.old) }
        ensures text { OnOk result (string_bytes out.new
            ≡ string_bytes out.old ++ closing self.old ++ ended line.now) }
    {
        self.push_closing(alloc, out)?;
        self.pass_section();
        push_ended(alloc, line, out)
    }

    /// Adds any other line, of format parameters those that are known.
    fn push_other(&mut self, alloc: Global, line: &str, out: &mut String) -> Result<(), AllocError>
        ensures after { OnOk result (self.new ≡ behind_line self.old line.now) }
        ensures text { OnOk result (string_bytes out.new ≡ string_bytes out.old ++ ended (known_line line.now)) }
    {
        self.pass_line(line)?;
        let known = known_line(alloc, line)?;
        push_ended(alloc, known.as_str(), out)
    }

    /// Adds what is written of a line.
    #[tactic(auto, unfolding(crate::specs::Tidied::written_line))]
    fn push_line(&mut self, alloc: Global, line: &str, out: &mut String) -> Result<(), AllocError>
        ensures after { OnOk result (self.new ≡ (written_line self.old line.now).1) }
        ensures text { OnOk result (string_bytes out.new ≡ string_bytes out.old ++ (written_line self.old line.now).0) }
    {
        if self.leaves_out(line) {
            return Ok(());
        }
        if begins("m=", line) {
            return self.push_section(alloc, line, out);
        }
        self.push_other(alloc, line, out)
    }
}

/// A text without the lines that browsers pass over: empty ones, a section's later lines of bandwidth and those after
/// an attribute (RFC 8866 5), and further maps of a payload type. A section without a name gets that of its place. Of
/// format parameters only those that are known stay.
///
/// # Errors
///
/// `AllocError` if memory runs out.
pub(crate) fn tidied(alloc: Global, text: &str) -> Result<String, AllocError>
    ensures { IfOk result (λ t. string_bytes t ≡ tidied text.now) }
{
    let mut passed = Passed::start(alloc);
    let mut out = String::new(alloc);
    let mut rest = Some(text);
    while let Some(left) = rest {
        let (line, behind) = first_part(left, '\n');
        passed.push_line(alloc, line, &mut out)?;
        rest = behind;
    }
    passed.push_closing(alloc, &mut out)?;
    Ok(out)
}
