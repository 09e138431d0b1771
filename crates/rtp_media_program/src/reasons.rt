//! Why a line is an `error line`, or was refused.

ghost use Rattle.std.specs.Prelude.{◌≡◌, ◌||◌, is_some};
ghost use Rattle.rtp_media_program.specs.ExplainedReplies.{is_error_line, says_no};

use crate::fields::number_up_to;
use crate::forms::{form_of, misfit};
use crate::known::{Known, KnownEnd};
use crate::line_buffer::MAX_LINE_LENGTH;
use crate::lines::{number_or_zero_at, word_at};
use crate::reason::Reason;
use crate::refusals::refusal_of;

/// The reason for a line that is too long names this number.
const _: () = prove!(MAX_LINE_LENGTH == 1_048_576);

/// Why the reply to a line says no, if it does.
pub fn reason_for<'a>(known: &Known, line: &'a [u8], reply: &str) -> Option<Reason<'a>>
    ensures { is_some result ≡ (is_error_line reply.now || says_no reply.now) }
{
    if reply == "error line" {
        return Some(error_of(known, line));
    }
    refusal_of(reply)
}

/// Why a line isn't understood, or its conditions fail.
fn error_of<'a>(known: &Known, line: &'a [u8]) -> Reason<'a> {
    if line.len() > MAX_LINE_LENGTH {
        return Reason::words("the line is longer than 1048576 bytes");
    }
    let Ok(line) = str::from_utf8(line) else {
        return Reason::words("the line isn't UTF-8");
    };
    if line.ends_with('\r') {
        return Reason::words("the line ends with a carriage return");
    }
    if line.starts_with(' ') || line.ends_with(' ') || line.contains("  ") {
        return Reason::words("words are parted by one blank, and none stands at the ends");
    }
    let verb = word_at(line, 0);
    let Some(form) = form_of(verb) else {
        return Reason::around("no line begins with `", verb, "`; `help` lists the lines");
    };
    let unfit = if verb == "connect" {
        unfit_section(line)
    } else {
        unfit_word(form, line)
    };
    unfit
        .or(unmet(known, line))
        .unwrap_or(Reason::words("its conditions fail"))
}

/// The first word that doesn't fit the form, is superfluous, or is missing. Slashes are allowed
/// between the sections of `connect`.
fn unfit_word<'a>(form: &'static str, line: &'a str) -> Option<Reason<'a>> {
    let mut names = form.split(' ');
    for word in line.split(' ') {
        let Some(name) = names.next().or(further_name(form)) else {
            return Some(left_over(form, word));
        };
        if word == "/" && form.starts_with("connect ") {
            continue;
        }
        if let Some(reason) = misfit(name, word) {
            return Some(reason);
        }
    }
    missing(form, names.next()?)
}

/// The name of a form's further words, if it has one.
fn further_name(form: &str) -> Option<&str> {
    let (_, last) = form.rsplit_once(' ')?;
    if last.ends_with("..") {
        return Some(last);
    }
    None
}

/// A word for which the form has no name.
fn left_over<'a>(form: &'a str, word: &'a str) -> Reason<'a> {
    let parts = ["`", word, "` is one word too many: `", form, "`", "", ""];
    Reason { parts }
}

/// No word stands for a name of the form, if it needs one.
fn missing<'a>(form: &'a str, name: &'a str) -> Option<Reason<'a>> {
    if name.ends_with("..") || name.ends_with(']') {
        return None;
    }
    let parts = [name, " is missing: `", form, "`", "", "", ""];
    Some(Reason { parts })
}

/// The first section of a line `connect` that isn't one, or that no slash parts them.
fn unfit_section(line: &str) -> Option<Reason<'_>> {
    if let Some(reason) = unfit_word("connect SECTION..", line) {
        return Some(reason);
    }
    if line.contains(" / ") || line.ends_with(" /") {
        return None;
    }
    Some(Reason::words("no `/` parts the sections"))
}

/// The condition that a well-formed line doesn't meet.
fn unmet<'a>(known: &Known, line: &'a str) -> Option<Reason<'a>> {
    let (verb, letter, stream) = (word_at(line, 0), word_at(line, 1), word_at(line, 2));
    let missing = unmet_ends(known, verb, letter);
    if missing.is_some() {
        return missing;
    }
    match verb {
        "row" => Some(Reason::words("CLOCK has to be 1 or more")),
        "ext" => Some(Reason::around("", stream, " is no number of a header extension: 1 to 16")),
        "accept" => Some(Reason::words("HEX isn't a text of UTF-8")),
        "answer" => Some(Reason::words(
            "HEX isn't a text of UTF-8, or a section's pairs of SSRCs aren't sound",
        )),
        "offer" | "connect" => Some(Reason::words(
            "a section names an SSRC twice in its pairs, or one that repairs among those that send",
        )),
        "send" => Some(unsound(line)),
        "open" => Some(Reason::words("HELD has to be 4096 to 16384")),
        "switch" | "leave" | "ends" | "reserve" => Some(no_forwarder(letter)),
        "forward" => unmet_streams(known, verb, letter, stream).or(Some(no_forwarder(word_at(
            line, 3,
        )))),
        _ => unmet_streams(known, verb, letter, stream),
    }
}

/// The missing end among those that a line needs.
fn unmet_ends<'a>(known: &Known, verb: &str, letter: &'a str) -> Option<Reason<'a>> {
    match verb {
        "row" | "ext" | "switch" | "leave" | "ends" | "reserve" => None,
        "connect" | "play" => unmade(known.end("a"), "a").or(unmade(known.end("b"), "b")),
        _ => unmade(known.end(letter), letter),
    }
}

/// The stream that isn't there, of those that a line needs.
fn unmet_streams<'a>(
    known: &Known,
    verb: &str,
    first: &'a str,
    second: &'a str,
) -> Option<Reason<'a>> {
    match verb {
        "play" => unopened(known.end("a"), true, first, "a").or(unopened(
            known.end("b"),
            false,
            second,
            "b",
        )),
        "sample" | "repair" | "next" | "skip" | "forward" => unopened(
            known.end(first),
            true,
            second,
            first,
        ),
        "poll" | "missing" | "pass" | "empty" | "keep" => {
            unopened(known.end(first), false, second, first)
        }
        _ => None,
    }
}

/// A forwarder that isn't there.
fn no_forwarder(number: &str) -> Reason<'_> {
    Reason::around("no forwarder ", number, ": `forwarder FIRST` makes one")
}

/// An end that isn't there.
fn unmade<'a>(end: &KnownEnd, letter: &'a str) -> Option<Reason<'a>> {
    if end.is_made() {
        return None;
    }
    let parts = [
        "no end ",
        letter,
        ": `fixed ",
        letter,
        "` or `end ",
        letter,
        " SESSION` makes one",
    ];
    Some(Reason { parts })
}

/// A stream that isn't there.
fn unopened<'a>(
    end: &KnownEnd,
    is_sender: bool,
    stream: &'a str,
    letter: &'a str,
) -> Option<Reason<'a>> {
    if let Some(number) = number_up_to(stream, u64::MAX)
        && end.has_stream(number, is_sender)
    {
        return None;
    }
    let way = if is_sender { "sending" } else { "receiving" };
    let parts = ["no ", way, " stream ", stream, " of ", letter, ""];
    Some(Reason { parts })
}

/// What is wrong with the parameters of a sending stream.
fn unsound(line: &str) -> Reason<'_> {
    let mtu = number_or_zero_at(line, 6);
    let fault = if number_or_zero_at(line, 5) >= 32_768 {
        "FIRST has to be below 32768"
    } else if mtu == 0 {
        "MTU has to be 1 or more"
    } else if number_or_zero_at(line, 9) > 32_767 {
        "PICTUREID has to be 32767 or less"
    } else if mtu == 1 {
        "MTU has to be 2 or more with redundancy"
    } else if !do_rise(word_at(line, 8)) {
        "DISTANCES have to rise, within 1 to 8"
    } else {
        return Reason::around(
            "no row of type ",
            word_at(line, 4),
            " is agreed that has a RED type, so DISTANCES has to be `-`",
        );
    };
    Reason::words(fault)
}

/// Whether comma-separated numbers are strictly increasing, from 1 to 8.
fn do_rise(distances: &str) -> bool {
    let mut least = 0;
    for word in distances.split(',') {
        match number_up_to(word, 8) {
            Some(distance) if least < distance => least = distance,
            _ => return false,
        }
    }
    true
}
