//! The values of a line of format parameters.

ghost use Rattle.std.specs.Prelude.{◌≡◌, None};
ghost use Rattle.std.specs.List.{list_any};
ghost use Rattle.std.specs.Option.{option_copied};
ghost use Rattle.sdp_formats_rows.specs.LineValues.{has_level, gives_level, is_key, field_value, last_value};
ghost use Rattle.sdp_formats_grammar.specs.Split.{parts};

use sdp_formats_grammar::first_part;
use sdp_formats_values::Key;

/// Does a part of the line give a tier or level?
pub fn gives_level(line: &str) -> bool
    ensures { result ≡ list_any gives_level (parts 59 line.now) }
{
    let mut rest = Some(line);
    while let Some(text) = rest {
        let (part, after) = first_part(text, ';');
        if part_gives_level(part) {
            return true;
        }
        rest = after;
    }
    false
}

/// Does a part give a tier or level?
fn part_gives_level(part: &str) -> bool
    ensures { result ≡ gives_level part.now }
{
    let (key, rest) = first_part(part, '=');
    match rest {
        Some(rest) => {
            let _ = first_part(rest, '=');
            has_level(Key::named(key.trim()))
        }
        None => false,
    }
}

/// Is it the key of a tier or level?
fn has_level(key: Option<Key>) -> bool
    ensures { result ≡ has_level key }
{
    match key {
        Some(key) => key.is_level(),
        None => false,
    }
}

/// Is the other one the same key?
fn is_key(key: Key, other: Option<Key>) -> bool
    ensures { result ≡ is_key key other }
{
    match other {
        Some(other) => other.as_str() == key.as_str(),
        None => false,
    }
}

/// The value of a part under this key, else the one before.
fn field_value<'a>(part: &'a str, key: Key, before: Option<&'a str>) -> Option<&'a str>
    ensures { option_copied result ≡ field_value key (parts 61 part.now) (option_copied before.entry) }
{
    let (name, rest) = first_part(part, '=');
    match rest {
        Some(rest) => {
            let (value, _) = first_part(rest, '=');
            if is_key(key, Key::named(name.trim())) {
                return Some(value.trim());
            }
            before
        }
        None => before,
    }
}

/// The last value of a key.
pub fn last_value<'a>(line: &'a str, key: Key) -> Option<&'a str>
    ensures { option_copied result ≡ last_value key (parts 59 line.now) None }
{
    let mut found = None;
    let mut rest = Some(line);
    while let Some(text) = rest {
        let (part, after) = first_part(text, ';');
        found = field_value(part, key, found);
        rest = after;
    }
    found
}
