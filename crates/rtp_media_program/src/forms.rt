//! The forms of lines, and which words fit them.

use crate::fields::number_up_to;
use crate::lines::word_at;
use crate::reason::Reason;

/// The forms of all lines, as a user may ask for them.
pub(crate) const FORMS: &str = "\
fixed E
row E PT RTX RED CODEC CLOCK CHANNELS FMTP
ext E ID URI
end E SESSION
offer E SECTION..
answer E HEX SECTION..
accept E HEX
withdraw E
connect SECTION.. / SECTION..
send E MID SSRC PT FIRST MTU LIMIT DISTANCES PICTUREID
open E MID SSRC PT HOLDBACK [HELD]
sample E N TIME HEX [mid=TEXT]
receive E HEX
poll E N
repair E N HEX
next E N
skip E N NUMBER
missing E N
pass E N NUMBER
empty E N NUMBER
keep E N NUMBER
close E N
queue TIME HEX
play TX RX ITEM..
forwarder FIRST
switch R SOURCE NUMBER TIMESTAMP AT
forward E N R HEX
leave R NUMBER
ends R NUMBER
reserve R COUNT
help
# a comment
";

/// What a word must be, by its name in a form.
#[derive(Clone, Copy)]
enum Shape {
    Letter,
    Number(u64),
    NumberOrNone(u64),
    Numbers,
    Hex,
    Section,
    Item,
    MidOption,
}

const UP_TO_32_BITS: &str = "a number up to 4294967295";

const UP_TO_64_BITS: &str = "a number of decimal digits, below 2^64";

const BYTE_OR_NONE: &str = "a number up to 255, or `-` for none";

/// The names of the forms that not all texts fit, each with what a word for it has to be, and that in words.
const NAMES: [(&str, Shape, &str); 29] = [
    ("E", Shape::Letter, "`a` or `b`"),
    ("SSRC", Shape::Number(0xffff_ffff), UP_TO_32_BITS),
    ("CLOCK", Shape::Number(0xffff_ffff), UP_TO_32_BITS),
    ("PT", Shape::Number(255), "a number up to 255"),
    ("ID", Shape::Number(255), "a number up to 255"),
    ("RTX", Shape::NumberOrNone(255), BYTE_OR_NONE),
    ("RED", Shape::NumberOrNone(255), BYTE_OR_NONE),
    ("CHANNELS", Shape::NumberOrNone(255), BYTE_OR_NONE),
    (
        "PICTUREID",
        Shape::NumberOrNone(65_535),
        "a number up to 65535, or `-` for none",
    ),
    (
        "DISTANCES",
        Shape::Numbers,
        "numbers up to 255 parted by commas, or `-` for none",
    ),
    (
        "HEX",
        Shape::Hex,
        "hexadecimal digits, two a byte, or `-` for no bytes",
    ),
    (
        "SECTION..",
        Shape::Section,
        "MID:KIND:DIR:SOURCE,SOURCE, as `0:video:sendrecv:44+45` where 45 repairs 44, with `-` for no source",
    ),
    (
        "ITEM..",
        Shape::Item,
        "`a` or `r` and a place, `f` and hexadecimal digits, or `p`",
    ),
    ("[mid=TEXT]", Shape::MidOption, "`mid=` and a text"),
    ("FIRST", Shape::Number(u64::MAX), UP_TO_64_BITS),
    ("MTU", Shape::Number(u64::MAX), UP_TO_64_BITS),
    ("LIMIT", Shape::Number(u64::MAX), UP_TO_64_BITS),
    ("HOLDBACK", Shape::Number(u64::MAX), UP_TO_64_BITS),
    ("[HELD]", Shape::Number(u64::MAX), UP_TO_64_BITS),
    ("N", Shape::Number(u64::MAX), UP_TO_64_BITS),
    ("NUMBER", Shape::Number(u64::MAX), UP_TO_64_BITS),
    ("TIME", Shape::Number(u64::MAX), UP_TO_64_BITS),
    ("TX", Shape::Number(u64::MAX), UP_TO_64_BITS),
    ("RX", Shape::Number(u64::MAX), UP_TO_64_BITS),
    ("R", Shape::Number(u64::MAX), UP_TO_64_BITS),
    ("SOURCE", Shape::Number(u64::MAX), UP_TO_64_BITS),
    ("TIMESTAMP", Shape::Number(0xffff_ffff), UP_TO_32_BITS),
    ("AT", Shape::Number(0xffff_ffff), UP_TO_32_BITS),
    ("COUNT", Shape::Number(u64::MAX), UP_TO_64_BITS),
];

/// The kinds and directions that a section may have.
const MEDIA: [&str; 8] = [
    "audio:sendrecv",
    "audio:sendonly",
    "audio:recvonly",
    "audio:inactive",
    "video:sendrecv",
    "video:sendonly",
    "video:recvonly",
    "video:inactive",
];

/// The form of the lines that begin with a word.
pub(crate) fn form_of(verb: &str) -> Option<&'static str> {
    for form in FORMS.lines() {
        if word_at(form, 0) == verb {
            return Some(form);
        }
    }
    None
}

/// What is wrong with a word, given its name in a form.
pub(crate) fn misfit<'a>(name: &'a str, word: &'a str) -> Option<Reason<'a>> {
    for (known, shape, wanted) in &NAMES {
        if *known == name && !fits(*shape, word) {
            let parts = [name, " is `", word, "`, and has to be ", wanted, "", ""];
            return Some(Reason { parts });
        }
    }
    None
}

/// Whether a word is what it has to be.
fn fits(shape: Shape, word: &str) -> bool {
    let is_none = word == "-";
    match shape {
        Shape::Letter => word == "a" || word == "b",
        Shape::Number(most) => is_number(word, most),
        Shape::NumberOrNone(most) => is_none || is_number(word, most),
        Shape::Numbers => is_none || are_numbers(word, 255),
        Shape::Hex => is_hex(word),
        Shape::Section => is_section(word),
        Shape::Item => is_item(word),
        Shape::MidOption => word.starts_with("mid="),
    }
}

fn is_number(word: &str, most: u64) -> bool {
    number_up_to(word, most).is_some()
}

fn are_numbers(word: &str, most: u64) -> bool {
    for part in word.split(',') {
        if !is_number(part, most) {
            return false;
        }
    }
    true
}

fn is_hex(word: &str) -> bool {
    for byte in word.bytes() {
        if !byte.is_ascii_hexdigit() {
            return word == "-";
        }
    }
    !word.is_empty() && word.len() % 2 == 0
}

/// Whether sources are separated by commas, each an SSRC, or an SSRC and its RTX SSRC.
fn are_sources(word: &str) -> bool {
    for source in word.split(',') {
        let (ssrc, repair) = source.split_once('+').unwrap_or((source, "0"));
        if !is_number(ssrc, 0xffff_ffff) || !is_number(repair, 0xffff_ffff) {
            return false;
        }
    }
    true
}

fn is_item(word: &str) -> bool {
    if let Some(place) = word.strip_prefix("a").or(word.strip_prefix("r")) {
        return is_number(place, u64::MAX);
    }
    match word.strip_prefix("f") {
        Some(digits) => is_hex(digits),
        None => word == "p",
    }
}

fn is_section(word: &str) -> bool {
    let Some((_, word)) = word.split_once(':') else {
        return false;
    };
    let Some((media, sources)) = word.rsplit_once(':') else {
        return false;
    };
    MEDIA.contains(&media) && (sources == "-" || are_sources(sources))
}
