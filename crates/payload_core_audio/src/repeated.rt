//! Older payloads of a packet, taken from the history as they are written (RFC 2198).

ghost use Rattle.payload_core_audio.specs.Red.{header};
ghost use Rattle.payload_core_audio.specs.RedHistory.{kept_of};
ghost use Rattle.payload_core_audio.specs.RedSending.{masked};
ghost use Rattle.payload_core_audio.specs.RedViews.{old_block};
ghost use Rattle.payload_core_audio.specs.RedWrapping.{IsLongestPrefix, bytes_of, levels};
ghost use Rattle.std.specs.Option.{option_to_list};
ghost use Rattle.std.specs.Prelude.{◌≡◌, ◌+◌, ◌<◌, ◌≤◌, ◌++◌, ◌∷◌, [], All, OnOk, flat_map, length, map, option_map};
ghost use Rattle.std.specs.Prelude.{reverse, take};

use crate::history::{KeptPayload, level};
use crate::spelling::{OldPayload, fields_fit, push_header};
use std::alloc::AllocError;

/// The block at a distance, if there is one that fits its header.
fn fitting_level(history: &[KeptPayload], time: u32, distance: u32) -> Option<OldPayload<'_>>
    requires { 0 < distance }
    ensures { levels (map kept_of history.now) (distance ∷ []) time ≡ option_to_list (option_map old_block result) }
{
    let old = level(history, time, distance)?;
    if !fields_fit(old.timestamp_offset, old.payload) {
        return None;
    }
    Some(old)
}

/// How many of the distances, nearest first, are those of the longest prefix of blocks that has room beside a primary
/// payload of this size; and how long the packet is with them.
pub fn reach(
    history: &[KeptPayload],
    distances: &[u32],
    time: u32,
    size: usize,
    budget: usize,
) -> (usize, usize)
    requires in_range { All (λ d. (0 < d) × (d ≤ 8)) distances.now }
    requires wrapped { size + 1 ≤ budget }
    ensures few { result.0 ≤ length distances.now }
    ensures longest { let blocks = levels (map kept_of history.now) distances.now time in
        IsLongestPrefix budget size blocks
        (length (levels (map kept_of history.now) (take result.0 distances.now) time)) }
    ensures len { result.1 ≡ 1 + bytes_of (levels (map kept_of history.now) (take result.0 distances.now) time)
        + size }
{
    let mut len = size + 1;
    for (i, distance) in distances.iter().enumerate() {
        if let Some(old) = fitting_level(history, time, *distance) {
            let bytes = 4 + old.payload.len();
            if budget - len < bytes {
                return (i, len);
            }
            len += bytes;
        }
    }
    (distances.len(), len)
}

/// Appends the headers of the blocks at these distances, oldest first.
pub fn push_headers(
    history: &[KeptPayload],
    distances: &[u32],
    time: u32,
    packet: &mut Vec<u8>,
) -> Result<(), AllocError>
    requires { All (λ d. (0 < d) × (d ≤ 8)) distances.now }
    ensures { OnOk result (packet.new.items ≡ packet.old.items
        ++ flat_map header (map masked (reverse (levels (map kept_of history.now) distances.now time)))) }
{
    for place in (0..distances.len()).rev() {
        if let Some(old) = fitting_level(history, time, distances[place]) {
            push_header(packet, &old)?;
        }
    }
    Ok(())
}

/// Appends the payloads of the blocks at these distances, oldest first.
pub fn push_payloads(
    history: &[KeptPayload],
    distances: &[u32],
    time: u32,
    packet: &mut Vec<u8>,
) -> Result<(), AllocError>
    requires { All (λ d. (0 < d) × (d ≤ 8)) distances.now }
    ensures { OnOk result (packet.new.items ≡ packet.old.items
        ++ flat_map (λ b. b.payload) (map masked (reverse (levels (map kept_of history.now) distances.now time)))) }
{
    for place in (0..distances.len()).rev() {
        if let Some(old) = fitting_level(history, time, distances[place]) {
            packet.extend_from_slice(old.payload)?;
        }
    }
    Ok(())
}
