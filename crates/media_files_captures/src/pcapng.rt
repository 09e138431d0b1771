//! Capture files of pcapng (draft-ietf-opsawg-pcapng).

ghost use Rattle.std.specs.Prelude.{◌≡◌, ◌≢◌, ◌+◌, ◌++◌, ◌<◌, ◌≤◌, false, true, IfErr, IfOk, IfSome, OnErr, OnOk};
ghost use Rattle.std.specs.Prelude.{length, map};
ghost use Rattle.media_files_captures.specs.Captures.{seen};
ghost use Rattle.media_files_captures.specs.Pcapng.{block, block_at, enhanced, interfaces_after, is_length, is_pcapng};
ghost use Rattle.media_files_captures.specs.Pcapng.{IsPcapng, kept_of, order_of, packet_at, packet_in, reader, simple};
ghost use Rattle.media_files_captures.specs.Pcapng.{with_interface};
ghost use Rattle.media_files_captures.specs.PcapngViews.{HoldsBlocks, LeadsTo, block_shown, packet_seen, read_block};
ghost use Rattle.media_files_captures.specs.PcapngViews.{reader_shown};
ghost use Rattle.std.specs.Option.{option_to_list};

use crate::captures::{Capture, CaptureError, CapturedPacket};
use crate::interfaces::{Interface, interface_of};
use crate::numbers::{ByteOrder, rest_from, u16_at, u32_at};
use std::alloc::{AllocError, Global};

// The type of a section's header, the same in both byte orders.
const SECTION: u32 = 0x0a0d_0d0a;

// The number after a section's length, in its byte order.
const BYTE_ORDER: u32 = 0x1a2b_3c4d;

// The types of blocks that describe an interface, or have a packet.
const INTERFACE: u32 = 1;

const OLD_PACKET: u32 = 2;

const SIMPLE_PACKET: u32 = 3;

const ENHANCED_PACKET: u32 = 6;

/// A block of a file.
#[derive(Debug, Clone, Copy)]
pub struct PcapngBlock<'a> {
    /// The byte order of its section.
    pub order: ByteOrder,
    /// Its type.
    pub kind: u32,
    /// What is between its lengths.
    pub body: &'a [u8],
}

/// Where reading is.
#[derive(Debug, Clone, Copy)]
pub struct PcapngReader<'a> {
    /// The byte order of the section.
    pub order: ByteOrder,
    /// What is left.
    pub rest: &'a [u8],
}

/// What the blocks that are read say of those that follow.
#[derive(Debug, Drop)]
pub struct PcapngSection {
    /// The byte order of the section.
    pub order: ByteOrder,
    /// The interfaces that it describes, by their numbers.
    pub interfaces: Vec<Interface>,
}

impl PcapngSection {
    ghost use Rattle.std.specs.Prelude.{◌≡◌, []};
    ghost use Rattle.media_files_captures.specs.declared.numbers.ByteOrder.TheVariants.{Big};

    /// The start of a file, whose first block says the byte order.
    pub fn new(alloc: Global) -> PcapngSection
        ensures order { result.order ≡ Big }
        ensures interfaces { result.interfaces.items ≡ [] }
    {
        PcapngSection {
            order: ByteOrder::Big,
            interfaces: Vec::new(alloc),
        }
    }
}

/// The byte order of a block: a section's header says its own.
fn order_of(before: ByteOrder, bytes: &[u8]) -> ByteOrder
    requires { 12 ≤ length bytes.now }
    ensures { result ≡ order_of before bytes.now }
{
    if u32_at(ByteOrder::Big, bytes, 0) != SECTION {
        return before;
    }
    if u32_at(ByteOrder::Big, bytes, 8) == BYTE_ORDER {
        ByteOrder::Big
    } else {
        ByteOrder::Little
    }
}

/// The block in front of these bytes, in this byte order.
#[tactic(auto, unfolding(crate::specs::Pcapng::block_at))]
fn block_at<'a>(order: ByteOrder, bytes: &'a [u8]) -> Option<(PcapngBlock<'a>, PcapngReader<'a>)>
    requires { 12 ≤ length bytes.now }
    ensures value { read_block result ≡ block_at order bytes.now }
    ensures shorter { IfSome result (λ b. length b.1.rest.now < length bytes.now) }
{
    let len = u32_at(order, bytes, 4) as usize;
    if len < 12 || len % 4 != 0 || bytes.len() < len {
        return None;
    }
    let block = PcapngBlock {
        order,
        kind: u32_at(order, bytes, 0),
        body: &bytes[8..len - 4],
    };
    let behind = PcapngReader {
        order,
        rest: rest_from(bytes, len),
    };
    Some((block, behind))
}

/// The block in front of what is left, and where reading is after it.
#[tactic(auto, unfolding(crate::specs::Pcapng::block))]
fn block(reader: PcapngReader<'_>) -> Option<(PcapngBlock<'_>, PcapngReader<'_>)>
    ensures value { read_block result ≡ block (reader_shown reader.entry) }
    ensures shorter { IfSome result (λ b. length b.1.rest.now < length reader.entry.rest.now) }
{
    if reader.rest.len() < 12 {
        return None;
    }
    block_at(order_of(reader.order, reader.rest), reader.rest)
}

/// The packet of an interface whose bytes are from a place on.
fn packet_at<'a>(
    interface: &Interface,
    ticks: u64,
    original_len: u32,
    kept: usize,
    place: usize,
    body: &'a [u8],
) -> Option<CapturedPacket<'a>>
    requires { place + kept < 18446744073709551616 }
    ensures { packet_seen result ≡ packet_at interface.now ticks original_len kept place body.now }
{
    if body.len() < place + kept {
        return None;
    }
    Some(CapturedPacket {
        ticks,
        resolution: interface.resolution,
        link: interface.link,
        original_len,
        bytes: &body[place..place + kept],
    })
}

/// The packet in an enhanced block of an interface, or in an old one.
fn enhanced<'a>(
    interface: &Interface,
    order: ByteOrder,
    body: &'a [u8],
) -> Option<CapturedPacket<'a>>
    requires { 20 ≤ length body.now }
    ensures { packet_seen result ≡ enhanced order body.now interface.now }
{
    let high = u32_at(order, body, 4) as u64;
    let low = u32_at(order, body, 8) as u64;
    let kept = u32_at(order, body, 12) as usize;
    let original_len = u32_at(order, body, 16);
    packet_at(
        interface,
        high * 4294967296 + low,
        original_len,
        kept,
        20,
        body,
    )
}

/// How many bytes of a packet an interface keeps.
fn kept_of(snap_len: u32, len: u32) -> u32
    ensures { result ≡ kept_of snap_len len }
{
    if snap_len == 0 {
        return len;
    }
    snap_len.min(len)
}

/// The packet in a simple block, of the first interface.
fn simple<'a>(interface: &Interface, order: ByteOrder, body: &'a [u8]) -> Option<CapturedPacket<'a>>
    requires { 4 ≤ length body.now }
    ensures { packet_seen result ≡ simple order body.now interface.now }
{
    let original_len = u32_at(order, body, 0);
    let kept = kept_of(interface.snap_len, original_len) as usize;
    packet_at(interface, 0, original_len, kept, 4, body)
}

/// The packet in a block, if it is of an interface of its section.
#[tactic(auto, unfolding(crate::specs::Pcapng::packet_in))]
fn packet_in<'a>(interfaces: &[Interface], block: &PcapngBlock<'a>) -> Option<CapturedPacket<'a>>
    ensures { packet_seen result ≡ packet_in interfaces.now (block_shown block.now) }
{
    match block.kind {
        ENHANCED_PACKET if block.body.len() >= 20 => {
            let number = u32_at(block.order, block.body, 0);
            enhanced(interfaces.get(number as usize)?, block.order, block.body)
        }
        SIMPLE_PACKET if block.body.len() >= 4 => {
            simple(interfaces.first()?, block.order, block.body)
        }
        OLD_PACKET if block.body.len() >= 20 => {
            let number = u16_at(block.order, block.body, 0);
            enhanced(interfaces.get(number as usize)?, block.order, block.body)
        }
        _ => None,
    }
}

/// Takes the packet in a block, if it has one.
fn take_packet<'a>(
    interfaces: &[Interface],
    block: &PcapngBlock<'a>,
    packets: &mut Vec<CapturedPacket<'a>>,
) -> Result<(), AllocError>
    ensures { OnOk result (map seen packets.new.items
        ≡ map seen packets.old.items ++ option_to_list (packet_in interfaces.now (block_shown block.now))) }
{
    if let Some(packet) = packet_in(interfaces, block) {
        packets.push(packet)?;
    }
    Ok(())
}

/// Takes the interface that a block describes; a section begins with none.
#[tactic(auto, unfolding(crate::specs::Pcapng::interfaces_after))]
fn take_interface(
    block: &PcapngBlock<'_>,
    interfaces: &mut Vec<Interface>,
) -> Result<(), AllocError>
    ensures taken { OnOk result (interfaces.new.items ≡ interfaces_after interfaces.old.items (block_shown block.now)) }
    ensures unchanged { OnErr result (interfaces.new.items ≡ interfaces.old.items) }
{
    if block.kind == SECTION {
        interfaces.clear();
        return Ok(());
    }
    if block.kind == INTERFACE && block.body.len() >= 8 {
        interfaces.push(interface_of(block))?;
    }
    Ok(())
}

/// Whether a file begins with the header of a section, which a pcapng file does.
pub fn is_pcapng(file: &[u8]) -> bool
    ensures { result ≡ is_pcapng file.now }
{
    file.len() >= 12 && u32_at(ByteOrder::Big, file, 0) == SECTION
}

/// The packets of blocks, up to the first block that isn't whole: of all blocks, or of a piece of them, after which
/// reading goes on with what is left and the bytes that follow. The section is then the one that the blocks lead to.
///
/// # Errors
/// There is no memory for the lists; the section is then one that some of the blocks lead to.
pub fn read_pcapng_blocks<'a>(
    alloc: Global,
    section: &mut PcapngSection,
    bytes: &'a [u8],
) -> Result<Capture<'a>, AllocError>
    ensures read { IfOk result (λ c.
        HoldsBlocks section.old section.new bytes.now (map seen c.packets.items) c.unread.now) }
    ensures led { OnErr result (LeadsTo section.old section.new bytes.now) }
{
    let mut packets = Vec::new(alloc);
    let mut reader = PcapngReader {
        order: section.order,
        rest: bytes,
    };
    while let Some((next, behind)) = block(reader) {
        take_packet(&section.interfaces, &next, &mut packets)?;
        take_interface(&next, &mut section.interfaces)?;
        section.order = behind.order;
        reader = behind;
    }
    Ok(Capture {
        packets,
        unread: reader.rest,
    })
}

/// The packets of a pcapng file: those in enhanced, simple and old packet blocks of interfaces that their section
/// describes. A section has its own byte order and interfaces, an interface its own link type and resolution. Packets
/// of simple blocks have no time.
///
/// # Errors
/// The bytes don't begin with the header of a section, or there is no memory for the lists.
pub fn read_pcapng(alloc: Global, file: &[u8]) -> Result<Capture<'_>, CaptureError>
    ensures value { IfOk result (λ c. IsPcapng file.now (map seen c.packets.items) c.unread.now) }
    ensures refused { IfErr result (λ e. e ≢ CaptureError.Memory
        → (e ≡ CaptureError.UnknownFormat) × (is_pcapng file.now ≡ false)) }
    ensures known { IfOk result (λ _. is_pcapng file.now ≡ true) }
{
    if !is_pcapng(file) {
        return Err(CaptureError::UnknownFormat);
    }
    let mut section = PcapngSection::new(alloc);
    Ok(read_pcapng_blocks(alloc, &mut section, file)?)
}
