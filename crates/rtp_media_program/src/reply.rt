//! What the program prints.

ghost use Rattle.std.specs.Prelude.{◌≡◌, ◌++◌, IfOk, OnOk, OnErr, string_bytes, [], ◌∷◌, decimal};
ghost use Rattle.std.specs.List.{flat_map};
ghost use Rattle.rtp_media_program.specs.declared.reply.Reply.TheVariants.{Came, Taken, NextUnit};
ghost use Rattle.rtp_media_program.specs.ReplyLines.{reply_text, hex_text, is_error_line, text_line};

use crate::owned::Bytes;
use std::alloc::{AllocError, Global};
use std::marker::Model;

/// The name of an error's variant, without what the variant holds.
#[derive(Drop)]
pub struct ErrorName {
    name: &'static str,
}

impl Model for ErrorName {
    ghost use Rattle.std.specs.Prelude.{ℕ, List};

    ghost Value = { List ℕ };

    ghost view = { λ n. n.name.now };
}

impl ErrorName {
    /// This name.
    pub fn new(name: &'static str) -> ErrorName
        ensures { result ≡ name.now }
    {
        ErrorName { name }
    }

    /// The name as it is printed.
    pub fn as_str(&self) -> &'static str
        ensures { result.now ≡ self.now }
    {
        self.name
    }
}

/// One printed line.
#[derive(Drop)]
pub enum Reply {
    /// `ok`: the call succeeded.
    Done,
    /// `error line`: the line isn't understood, or its conditions fail.
    ErrorLine,
    /// `refused NAME`: the call refused.
    Refused(ErrorName),
    /// `sender N`: the number of a new sending stream.
    Sender(usize),
    /// `receiver N`: the number of a new receiving stream.
    Receiver(usize),
    /// `datagram HEX`: a datagram to be sent.
    Datagram(Bytes),
    /// `unreadable`: the bytes are no datagram.
    Unreadable,
    /// `foreign`: no receiving stream has its SSRC and payload type.
    Foreign,
    /// `damaged`: its padding or its redundancy can't be read, or its payload is empty or of another type.
    Damaged,
    /// `refused`: its number came before, or is out of the window.
    NotTaken,
    /// `taken N NUMBER`: a receiving stream took it under this widened number.
    Taken {
        /// The number of the receiving stream.
        stream: usize,
        /// The widened sequence number.
        number: u64,
    },
    /// `forwarder R`: the number of a new forwarder.
    Forwarder(usize),
    /// `came N NUMBER`: a packet of this widened number came to a receiving stream, to be sent on.
    Came {
        /// The number of the receiving stream.
        stream: usize,
        /// The widened sequence number.
        number: u64,
    },
    /// `unsent`: the packet isn't one that is sent on.
    NotSent,
    /// `next NUMBER`: the number that a sending stream's next datagram gets.
    Next(u64),
    /// `missing NUMBER`: a number that a receiving stream misses.
    Missing(u64),
    /// `unit FIRST LAST TIME HEX`: a unit of a receiving stream.
    NextUnit {
        /// The widened number of its first packet.
        first: u64,
        /// The widened number of its last packet.
        last: u64,
        /// Its time.
        time: u64,
        /// Its bytes.
        unit: Bytes,
    },
    /// `none`: no unit is ready.
    NoUnit,
    /// `fault NAME`: the poll failed.
    Fault(ErrorName),
    /// `text HEX`: the text of an offer or an answer.
    Text(Bytes),
    /// `none`: no offer is pending.
    NoOffer,
}

impl Reply {
    /// The line that is printed, its line feed included.
    ///
    /// # Errors
    /// Only if memory runs out.
    pub fn text(&self, alloc: Global) -> Result<String, AllocError>
        ensures { IfOk result (λ text. string_bytes text ≡ reply_text self.now) }
    {
        match self {
            Reply::Done => String::from_str(alloc, "ok\n"),
            Reply::ErrorLine => String::from_str(alloc, "error line\n"),
            Reply::Refused(name) => named(alloc, "refused", name.as_str()),
            Reply::Sender(stream) => numbered(alloc, "sender", *stream),
            Reply::Receiver(stream) => numbered(alloc, "receiver", *stream),
            Reply::Datagram(bytes) => hex_line(alloc, "datagram", bytes),
            Reply::Unreadable => String::from_str(alloc, "unreadable\n"),
            Reply::Foreign => String::from_str(alloc, "foreign\n"),
            Reply::Damaged => String::from_str(alloc, "damaged\n"),
            Reply::NotTaken => String::from_str(alloc, "refused\n"),
            Reply::Taken { stream, number } => taken(alloc, *stream, *number),
            Reply::Forwarder(forwarder) => numbered(alloc, "forwarder", *forwarder),
            Reply::Came { stream, number } => came(alloc, *stream, *number),
            Reply::NotSent => String::from_str(alloc, "unsent\n"),
            Reply::Next(number) => counted(alloc, "next", *number),
            Reply::Missing(number) => counted(alloc, "missing", *number),
            Reply::NextUnit {
                first,
                last,
                time,
                unit,
            } => next_unit(alloc, *first, *last, *time, unit),
            Reply::NoUnit => String::from_str(alloc, "none\n"),
            Reply::Fault(name) => named(alloc, "fault", name.as_str()),
            Reply::Text(bytes) => hex_line(alloc, "text", bytes),
            Reply::NoOffer => String::from_str(alloc, "none\n"),
        }
    }

    /// Is it an `error line`?
    pub fn is_error_line(&self) -> bool
        ensures { result ≡ is_error_line self.now }
    {
        matches!(self, Reply::ErrorLine)
    }

    /// Prints the line at the end of `out`.
    ///
    /// # Errors
    /// Only if memory runs out; `out` is then unchanged.
    pub fn append_to(&self, alloc: Global, out: &mut Vec<u8>) -> Result<(), AllocError>
        ensures ok { OnOk result (out.new.items ≡ out.old.items ++ reply_text self.now) }
        ensures err { OnErr result (out.new.items ≡ out.old.items) }
    {
        let text = self.text(alloc)?;
        out.extend_from_slice(text.as_bytes())
    }
}

/// Two words as a line.
fn named(alloc: Global, first: &str, second: &str) -> Result<String, AllocError>
    ensures { IfOk result (λ text. string_bytes text ≡ text_line (first.now ∷ second.now ∷ [])) }
{
    format!(in alloc; "{first} {second}\n")
}

/// A word and a number as a line.
fn numbered(alloc: Global, word: &str, number: usize) -> Result<String, AllocError>
    ensures { IfOk result (λ text. string_bytes text ≡ text_line (word.now ∷ decimal number ∷ [])) }
{
    format!(in alloc; "{word} {number}\n")
}

/// A word and a sequence number as a line.
fn counted(alloc: Global, word: &str, number: u64) -> Result<String, AllocError>
    ensures { IfOk result (λ text. string_bytes text ≡ text_line (word.now ∷ decimal number ∷ [])) }
{
    format!(in alloc; "{word} {number}\n")
}

/// A word and bytes as a line.
fn hex_line(alloc: Global, word: &str, bytes: &Bytes) -> Result<String, AllocError>
    ensures { IfOk result (λ text. string_bytes text ≡ text_line (word.now ∷ hex_text bytes.now ∷ [])) }
{
    named(alloc, word, hex_text(alloc, bytes)?.as_str())
}

/// What is printed of a datagram that a receiving stream took.
fn taken(alloc: Global, stream: usize, number: u64) -> Result<String, AllocError>
    ensures { IfOk result (λ text. string_bytes text ≡ reply_text (Taken stream number)) }
{
    format!(in alloc; "taken {stream} {number}\n")
}

/// What is printed of a packet that came to be sent on.
fn came(alloc: Global, stream: usize, number: u64) -> Result<String, AllocError>
    ensures { IfOk result (λ text. string_bytes text ≡ reply_text (Came stream number)) }
{
    format!(in alloc; "came {stream} {number}\n")
}

/// What is printed of a unit: of these numbers of its first and last packet, this time, and these bytes.
fn next_unit(
    alloc: Global,
    first: u64,
    last: u64,
    time: u64,
    unit: &Bytes,
) -> Result<String, AllocError>
    ensures { IfOk result (λ text. string_bytes text ≡ reply_text (NextUnit first last time unit.now)) }
{
    let unit = hex_text(alloc, unit)?;
    format!(in alloc; "unit {first} {last} {time} {unit}\n")
}

/// Bytes as hexadecimal digits in lower case, or a dash for none.
fn hex_text(alloc: Global, bytes: &Bytes) -> Result<String, AllocError>
    ensures { IfOk result (λ text. string_bytes text ≡ hex_text bytes.now) }
{
    let bytes = bytes.as_slice();
    if bytes.is_empty() {
        return String::from_str(alloc, "-");
    }
    hex::encode(alloc, bytes)
}

/// Prints replies one after the other.
///
/// # Errors
/// Only if memory runs out.
pub fn print(alloc: Global, replies: &[Reply]) -> Result<Vec<u8>, AllocError>
    ensures { IfOk result (λ text. text.items ≡ flat_map reply_text replies.now) }
{
    let mut text = Vec::new(alloc);
    for reply in replies {
        reply.append_to(alloc, &mut text)?;
    }
    Ok(text)
}
