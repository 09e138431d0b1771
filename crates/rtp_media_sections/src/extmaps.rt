//! The header extensions that sections list.

ghost use Rattle.std.specs.Prelude.{◌≡◌, length, IfOk, OnOk};
ghost use Rattle.std.specs.List.{list_all};
ghost use Rattle.rtp_media_sections.specs.Extensions.{answered_extmaps, entries_of, is_answered, is_numbered};
ghost use Rattle.rtp_media_sections.specs.Extensions.{is_word, is_word_byte, is_writable_map, map_of_extmaps};
ghost use Rattle.rtp_media_sections.specs.Extensions.{with_entry};

use rtp_wire::{Extension, ExtensionMap, MAX_ID};
use std::alloc::{AllocError, Global};

fn is_word_byte(byte: u8) -> bool
    ensures { result ≡ is_word_byte byte }
{
    byte != b' ' && byte != b'\r' && byte != b'\n'
}

fn are_word_bytes(bytes: &[u8]) -> bool
    ensures { result ≡ list_all is_word_byte bytes.now }
{
    bytes.iter().all(|byte| is_word_byte(*byte))
}

fn is_word(text: &str) -> bool
    ensures { result ≡ is_word text.now }
{
    !text.is_empty() && are_word_bytes(text.as_bytes())
}

/// Whether each extension of a map can be in a line: its text isn't empty, and has neither a blank nor a line end.
pub fn is_writable(exts: &ExtensionMap) -> bool
    ensures writable { result ≡ is_writable_map exts.now }
    ensures numbers { length exts.now ≡ 16 }
{
    let mut writable = true;
    for (_, ext) in exts.iter() {
        writable = writable && is_word(ext.as_uri());
    }
    writable
}

/// The extensions of a map with their numbers, in rising number (RFC 8285 8).
pub(crate) fn entries_of(
    alloc: Global,
    exts: &ExtensionMap,
) -> Result<Vec<(u8, Extension)>, AllocError>
    ensures { IfOk result (λ entries. entries.items ≡ entries_of exts.now) }
{
    let mut entries = Vec::new(alloc);
    for (id, ext) in exts.iter() {
        entries.push((id, ext.clone(alloc)?))?;
    }
    Ok(entries)
}

fn is_numbered(id: u8) -> bool
    ensures { result ≡ is_numbered id }
{
    id >= 1 && id <= MAX_ID
}

fn is_answered(exts: &ExtensionMap, offered: &(u8, Extension)) -> bool
    ensures { result ≡ is_answered exts.now offered.now }
{
    is_numbered(offered.0) && exts.id_of(&offered.1).is_some()
}

/// The offered extensions that an end with this map answers, in their order and under their numbers.
pub(crate) fn answered_extmaps(
    alloc: Global,
    exts: &ExtensionMap,
    offered: &[(u8, Extension)],
) -> Result<Vec<(u8, Extension)>, AllocError>
    ensures { IfOk result (λ answered. answered.items ≡ answered_extmaps exts.now offered.now) }
{
    let mut answered = Vec::new(alloc);
    for entry in offered {
        if is_answered(exts, entry) {
            answered.push((entry.0, entry.1.clone(alloc)?))?;
        }
    }
    Ok(answered)
}

fn set_entry(
    alloc: Global,
    exts: &mut ExtensionMap,
    entry: &(u8, Extension),
) -> Result<(), AllocError>
    ensures { OnOk result (exts.new ≡ with_entry exts.old entry.now) }
{
    if is_numbered(entry.0) {
        exts.set(entry.0, entry.1.clone(alloc)?);
    }
    Ok(())
}

/// The map that a section's list says: of several extensions of one number the last counts.
///
/// # Errors
///
/// `AllocError` if memory runs out.
pub fn map_of_extmaps(
    alloc: Global,
    extmaps: &[(u8, Extension)],
) -> Result<ExtensionMap, AllocError>
    ensures { IfOk result (λ exts. exts ≡ map_of_extmaps extmaps.now) }
{
    let mut exts = ExtensionMap::empty();
    for entry in extmaps {
        set_entry(alloc, &mut exts, entry)?;
    }
    Ok(exts)
}
