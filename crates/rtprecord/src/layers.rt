//! Layers of pictures of VP9, each a frame of its own (RFC 9628 4.2).

use std::alloc::AllocError;
use std::collections::BTreeMap;

/// What the payload of a packet has of a layer.
#[derive(Clone, Copy)]
struct Part {
    /// Whether a layer begins with it.
    is_begin: bool,
    /// How many bytes of the layer it has.
    len: u32,
}

/// The parts of layers in packets that no unit has yet, by the packets' numbers.
#[derive(Drop)]
pub(crate) struct Layers {
    parts: BTreeMap<u64, Part>,
}

/// Whether a bit of a byte is set, counted from the most significant one.
fn has(byte: u8, bit: u8) -> bool {
    byte & (0x80u8 >> (bit % 8)) != 0
}

/// How many bytes the differences to earlier pictures have, from a place on.
fn differences(payload: &[u8], at: usize) -> Option<usize> {
    for count in 0..3usize {
        let byte = *payload.get(at.checked_add(count)?)?;
        if byte % 2 == 0 || count == 2 {
            return Some(count.saturating_add(1));
        }
    }
    None
}

/// How many bytes the structure of layers has, from a place on.
fn structure(payload: &[u8], at: usize) -> Option<usize> {
    let first = *payload.get(at)?;
    let mut len = 1usize;
    if has(first, 3) {
        len = len.saturating_add(4usize.saturating_mul((first / 32) as usize + 1));
    }
    if has(first, 4) {
        let pictures = *payload.get(at.checked_add(len)?)?;
        len = len.saturating_add(1);
        for _ in 0..pictures {
            let picture = *payload.get(at.checked_add(len)?)?;
            len = len
                .saturating_add(1)
                .saturating_add((picture / 4 % 4) as usize);
        }
    }
    Some(len)
}

/// How many bytes the descriptor in front of a payload has.
fn descriptor_len(payload: &[u8]) -> Option<usize> {
    let first = *payload.first()?;
    let (is_flexible, mut at) = (has(first, 3), 1usize);
    if has(first, 0) {
        at = at.saturating_add(if has(*payload.get(at)?, 0) { 2 } else { 1 });
    }
    if has(first, 2) {
        at = at.saturating_add(if is_flexible { 1 } else { 2 });
    }
    if is_flexible && has(first, 1) {
        at = at.saturating_add(differences(payload, at)?);
    }
    if has(first, 6) {
        at = at.saturating_add(structure(payload, at)?);
    }
    Some(at)
}

/// What a payload has of a layer.
fn part_of(payload: &[u8]) -> Option<Part> {
    let len = payload.len().checked_sub(descriptor_len(payload)?)?;
    Some(Part {
        is_begin: has(*payload.first()?, 4),
        len: u32::try_from(len).ok()?,
    })
}

impl Layers {
    /// No parts.
    pub(crate) fn new(alloc: std::alloc::Global) -> Layers {
        Layers {
            parts: BTreeMap::new(alloc),
        }
    }

    /// Notes what the payload of a packet has of a layer.
    pub(crate) fn note(&mut self, number: u64, payload: &[u8]) -> Result<(), AllocError> {
        if let Some(part) = part_of(payload) {
            self.parts.insert(number, part)?;
        }
        Ok(())
    }

    /// The sizes of the layers that a unit's packets have, which have the numbers from the first to the last; the last
    /// part counts to the last layer. The parts of packets before them are forgotten, as no unit of them will come.
    pub(crate) fn take(
        &mut self,
        first: u64,
        last: u64,
        sizes: &mut Vec<u32>,
    ) -> Result<(), AllocError> {
        for _ in 0..self.parts.len() {
            match self.parts.first_key_value() {
                Some((number, _)) if *number <= last => {}
                _ => break,
            }
            let Some((number, part)) = self.parts.pop_first() else {
                break;
            };
            if number < first {
                continue;
            }
            if part.is_begin || sizes.is_empty() {
                sizes.push(part.len)?;
            } else if let Some(size) = sizes.last_mut() {
                *size = size.saturating_add(part.len);
            }
        }
        Ok(())
    }
}
