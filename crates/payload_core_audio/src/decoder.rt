//! Reading payloads with redundancy (RFC 2198 3).

ghost use Rattle.payload_core_audio.specs.Red.{IsNotRed};
ghost use Rattle.payload_core_audio.specs.RedReading.{IsReadAs, block_at, count_of_blocks, offset_at, pt_at, read_red};
ghost use Rattle.payload_core_audio.specs.RedReading.{size_at, size_of_blocks};
ghost use Rattle.payload_core_audio.specs.RedViews.{items_left};
ghost use Rattle.std.specs.Prelude.{◌≡◌, ◌+◌, ◌*◌, ◌<◌, ◌≤◌, IfErr, IfOk, IfSome, MatchResult, None, Some, drop};
ghost use Rattle.std.specs.Prelude.{length, take};

use crate::block::RedBlock;
use crate::spelling::MAX_BLOCKS;
use payload_core_base::{PacketError, byte_at};

/// Reads packets of older payloads and a primary one.
#[derive(Clone, Copy, Debug, Drop)]
pub struct RedDecoder;

/// The payloads of a RED packet, borrowed from it: the redundant ones in wire order (at most 32),
/// then the primary one.
#[derive(Clone, Copy, Debug, Drop)]
pub struct RedBlocks<'a> {
    headers: &'a [u8],
    payloads: &'a [u8],
    left: usize,
}

/// What is before and after this many bytes, if there are so many.
fn parted(text: &[u8], size: usize) -> (&[u8], &[u8])
    ensures front { result.0.now ≡ take size text.now }
    ensures behind { result.1.now ≡ drop size text.now }
{
    text.split_at(size.min(text.len()))
}

/// The offset in the header that is in front.
fn offset_at(headers: &[u8]) -> u32
    ensures { result ≡ offset_at headers.now }
{
    u32::from(byte_at(headers, 1)) * 64 + u32::from(byte_at(headers, 2) / 4)
}

/// The length in the header that is in front.
fn size_at(headers: &[u8]) -> usize
    ensures value { result ≡ size_at headers.now }
    ensures few { result < 1024 }
{
    usize::from(byte_at(headers, 2) % 4) * 256 + usize::from(byte_at(headers, 3))
}

/// How many headers are before the first with F clear; None if they are more than 32.
fn count_of_blocks(packet: &[u8]) -> Option<usize>
    ensures value { result ≡ count_of_blocks packet.now }
    ensures few { IfSome result (λ count. count ≤ 32) }
{
    for count in 0..=MAX_BLOCKS {
        if byte_at(packet, 4 * count) < 128 {
            return Some(count);
        }
    }
    None
}

/// The number of payload bytes of n blocks.
fn size_of_blocks(count: usize, packet: &[u8]) -> usize
    requires { count ≤ 32 }
    ensures value { result ≡ size_of_blocks count packet.now }
    ensures few { result ≤ 32768 }
{
    let mut size = 0;
    let mut headers = packet;
    for _ in 0..count {
        size += size_at(headers);
        headers = parted(headers, 4).1;
    }
    size
}

impl RedDecoder {
    /// The payloads of a packet: its blocks in their order, and then its primary payload, each as it lies in
    /// the packet (RFC 2198 3). No memory is taken.
    ///
    /// # Errors
    /// `ErrRedCorruptedPacket` for a packet whose headers or blocks pass its end, or that has more than 32 blocks.
    pub fn decode(packet: &[u8]) -> Result<RedBlocks<'_>, PacketError>
        ensures read { MatchResult result (λ blocks. read_red packet.now ≡ Some (items_left blocks))
            (λ e. read_red packet.now ≡ None) }
        ensures few { IfOk result (λ blocks. length (items_left blocks) ≤ 33) }
        ensures handed_out { IfOk result (λ blocks. IsReadAs packet.now (items_left blocks)) }
        ensures refused { IfErr result (λ e. (e ≡ PacketError.ErrRedCorruptedPacket) × IsNotRed packet.now) }
    {
        let Some(count) = count_of_blocks(packet) else {
            return Err(PacketError::ErrRedCorruptedPacket);
        };
        let headers = 4 * count + 1;
        if packet.len() < headers + size_of_blocks(count, packet) {
            return Err(PacketError::ErrRedCorruptedPacket);
        }
        Ok(RedBlocks {
            headers: packet,
            payloads: parted(packet, headers).1,
            left: count + 1,
        })
    }
}

impl<'a> Iterator for RedBlocks<'a> {
    ghost use Rattle.std.specs.Iterator.{YieldsFirstBy, at_most};
    ghost use Rattle.payload_core_audio.specs.RedViews.{item_of, items_left};

    type Item = RedBlock<'a>;

    ghost next_gives = { YieldsFirstBy item_of items_left };

    ghost remaining = { λ blocks. at_most blocks.left };

    fn next(&mut self) -> Option<RedBlock<'a>> {
        if self.left == 0 {
            return None;
        }
        self.left -= 1;
        if self.left == 0 {
            return Some(RedBlock {
                pt: byte_at(self.headers, 0) % 128,
                timestamp_offset: 0,
                payload: self.payloads,
                primary: true,
            });
        }
        let headers = self.headers;
        let (payload, payloads) = parted(self.payloads, size_at(headers));
        self.headers = parted(headers, 4).1;
        self.payloads = payloads;
        Some(RedBlock {
            pt: byte_at(headers, 0) % 128,
            timestamp_offset: offset_at(headers),
            payload,
            primary: false,
        })
    }
}
