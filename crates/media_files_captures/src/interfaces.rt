//! Interfaces of pcapng captures (draft-ietf-opsawg-pcapng 4.2).

ghost use Rattle.std.specs.Prelude.{◌≡◌, ◌≤◌, length};
ghost use Rattle.media_files_captures.specs.Pcapng.{interface_of, is_wanted, option_byte, padded, resolution_of};
ghost use Rattle.media_files_captures.specs.PcapngViews.{block_shown};

use crate::captures::Resolution;
use crate::frames::LinkType;
use crate::numbers::{ByteOrder, rest_from, u16_at, u32_at};
use crate::pcap::link_of;
use crate::pcapng::PcapngBlock;

// The code of the option that says the resolution.
const RESOLUTION: u16 = 9;

/// An interface on which packets were captured.
#[derive(Debug, Clone, Copy)]
pub struct Interface {
    /// How its packets begin.
    pub link: LinkType,
    /// How many bytes of a packet are kept at most; 0 for all.
    pub snap_len: u32,
    /// What a tick of its times is.
    pub resolution: Resolution,
}

/// So many bytes filled up to fours.
pub(crate) fn padded(len: u16) -> usize
    ensures value { result ≡ padded len }
    ensures more { len ≤ result }
{
    (len as usize + 3) / 4 * 4
}

/// Whether an option has this code and one byte.
fn is_wanted(order: ByteOrder, code: u16, bytes: &[u8]) -> bool
    requires { 4 ≤ length bytes.now }
    ensures { result ≡ is_wanted order code bytes.now }
{
    u16_at(order, bytes, 0) == code && u16_at(order, bytes, 2) == 1
}

/// The value of the first option with a code, if it has one byte, among at most so many options.
#[tactic(auto, unfolding(crate::specs::Pcapng::option_byte))]
fn option_byte(most: usize, order: ByteOrder, code: u16, bytes: &[u8]) -> Option<u8>
    ensures { result ≡ option_byte most order code bytes.now }
{
    let mut rest = bytes;
    for _passed in 0..most {
        if rest.len() < 4 || u16_at(order, rest, 0) == 0 {
            return None;
        }
        let end = 4 + padded(u16_at(order, rest, 2));
        if rest.len() < end {
            return None;
        }
        if is_wanted(order, code, rest) {
            return Some(rest[4]);
        }
        rest = rest_from(rest, end);
    }
    None
}

/// The resolution that an option says, and microseconds if there is none.
fn resolution_of(option: Option<u8>) -> Resolution
    ensures { result ≡ resolution_of option }
{
    match option {
        None => Resolution::Decimal(6),
        Some(number) if number < 128 => Resolution::Decimal(number),
        Some(number) => Resolution::Binary(number - 128),
    }
}

/// The interface that a block describes.
#[tactic(auto, unfolding(crate::specs::Pcapng::interface_of))]
pub fn interface_of(block: &PcapngBlock<'_>) -> Interface
    requires { 8 ≤ length block.now.body.now }
    ensures { result ≡ interface_of (block_shown block.now) }
{
    let options = rest_from(block.body, 8);
    Interface {
        link: link_of(u16_at(block.order, block.body, 0)),
        snap_len: u32_at(block.order, block.body, 4),
        resolution: resolution_of(option_byte(block.body.len(), block.order, RESOLUTION, options)),
    }
}
