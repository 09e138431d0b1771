//! Superframes of VP9 (VP9 bitstream specification, Annex B).

ghost use Rattle.std.specs.Prelude.{◌≡◌, ◌+◌, ◌++◌, ◌≤◌, OnOk, fold, length, max};
ghost use Rattle.std.specs.List.{flat_map};
ghost use Rattle.media_files.specs.Superframe.{index_of, marker, size_bytes, superframe_index, width_of};

use std::alloc::AllocError;

/// How many bytes hold a size.
fn width_of(size: u32) -> usize
    ensures value { result ≡ width_of size }
    ensures few { (1 ≤ result) × (result ≤ 4) }
{
    match size {
        0..=0xff => 1,
        0x100..=0xffff => 2,
        0x1_0000..=0xff_ffff => 3,
        _ => 4,
    }
}

/// The greatest of the sizes.
fn greatest(sizes: &[u32]) -> u32
    ensures { result ≡ fold max 0 sizes.now }
{
    let mut greatest = 0;
    for size in sizes {
        greatest = greatest.max(*size);
    }
    greatest
}

/// Writes a size.
#[tactic(auto, unfolding(media_files_captures::specs::Numbers::u32_le))]
fn push_size(width: usize, size: u32, out: &mut Vec<u8>) -> Result<(), AllocError>
    requires { width ≤ 4 }
    ensures { OnOk result (out.new.items ≡ out.old.items ++ size_bytes width size) }
{
    out.extend_from_slice(&size.to_le_bytes()[..width])
}

/// Writes sizes, each in this many bytes.
fn push_sizes(width: usize, sizes: &[u32], out: &mut Vec<u8>) -> Result<(), AllocError>
    requires { width ≤ 4 }
    ensures { OnOk result (out.new.items ≡ out.old.items ++ flat_map (size_bytes width) sizes.now) }
{
    for size in sizes {
        push_size(width, *size, out)?;
    }
    Ok(())
}

/// The first and last byte of an index.
fn marker(width: usize, count: usize) -> u8
    requires width { (1 ≤ width) × (width ≤ 4) }
    requires count { (1 ≤ count) × (count ≤ 8) }
    ensures { result ≡ marker width count }
{
    (192 + 8 * (width - 1) + (count - 1)) as u8
}

/// Writes the index after the frames of a superframe that have these sizes: nothing after one frame, or after more than
/// the eight that an index can count.
#[tactic(auto, unfolding(crate::specs::Superframe::superframe_index))]
pub fn push_superframe_index(sizes: &[u32], out: &mut Vec<u8>) -> Result<(), AllocError>
    ensures { OnOk result (out.new.items ≡ out.old.items ++ superframe_index sizes.now) }
{
    if sizes.len() < 2 || sizes.len() > 8 {
        return Ok(());
    }
    let width = width_of(greatest(sizes));
    let marker = marker(width, sizes.len());
    out.push(marker)?;
    push_sizes(width, sizes, out)?;
    out.push(marker)?;
    Ok(())
}
