//! Sequence parameter sets of H.264.

ghost use Rattle.std.specs.Prelude.{◌≡◌, ◌<◌, ◌≤◌, IfOk, IfSome};
ghost use Rattle.codec_headers.specs.Bits.{bits, gives, times};
ghost use Rattle.codec_headers.specs.H264.{chroma_format, cycle, fields, format_of_high, front, h264_size, has_format};
ghost use Rattle.codec_headers.specs.H264.{order, order_of, scale_after, scale_read, scales, scaling_list};
ghost use Rattle.codec_headers.specs.H264.{scaling_matrix, shown_of, size_after, sps};

use crate::bits::Bits;
use crate::nal::nal_payload;
use crate::picture::{PictureSize, cropping, shown, sub_height, sub_width};
use std::alloc::{AllocError, Global};

/// The scaling factor after another; None if no difference has the code.
#[tactic(auto, unfolding(crate::specs::H264::scale_after))]
fn scale_after(last: u32, code: u32) -> Option<u32>
    requires { last < 256 }
    ensures value { result ≡ scale_after last code }
    ensures small { IfSome result (λ scale. scale < 256) }
{
    if code > 256 || code == 255 {
        return None;
    }
    if code % 2 == 1 {
        return Some((last + (code + 1) / 2 + 256) % 256);
    }
    Some((last + 256 - code / 2) % 256)
}

/// The next scaling factor.
#[tactic(auto, unfolding(crate::specs::H264::scale_read))]
fn scale_read(bits: &mut Bits<'_>, last: u32) -> Option<u32>
    requires { last < 256 }
    ensures value { scale_read last bits.old ≡ gives result bits.new }
    ensures small { IfSome result (λ scale. scale < 256) }
{
    let code = bits.code()?;
    scale_after(last, code)
}

/// Passes over at most this many scaling factors.
fn skip_scales(bits: &mut Bits<'_>, count: u8) -> Option<()>
    ensures { scales count 8 bits.old ≡ gives result bits.new }
{
    let mut last = 8u32;
    for _passed in 0..count {
        last = scale_read(bits, last)?;
        if last == 0 {
            return Some(());
        }
    }
    Some(())
}

/// Passes over a scaling list, if it is there.
#[tactic(auto, unfolding(crate::specs::H264::scaling_list))]
fn skip_scaling_list(bits: &mut Bits<'_>, count: u8) -> Option<()>
    ensures { scaling_list count bits.old ≡ gives result bits.new }
{
    if !bits.flag()? {
        return Some(());
    }
    skip_scales(bits, count)
}

/// Passes over scaling lists of one size.
fn skip_scaling_lists(bits: &mut Bits<'_>, lists: u8, count: u8) -> Option<()>
    ensures { times lists (scaling_list count) bits.old ≡ gives result bits.new }
{
    for _passed in 0..lists {
        skip_scaling_list(bits, count)?;
    }
    Some(())
}

/// Passes over the scaling lists of a set.
#[tactic(auto, unfolding(crate::specs::H264::scaling_matrix))]
fn skip_scaling_matrix(bits: &mut Bits<'_>, format: u32) -> Option<()>
    ensures { scaling_matrix format bits.old ≡ gives result bits.new }
{
    if !bits.flag()? {
        return Some(());
    }
    skip_scaling_lists(bits, 6, 16)?;
    let large = if format == 3 { 6 } else { 2 };
    skip_scaling_lists(bits, large, 64)
}

/// Whether the sets of a profile say a chroma format.
fn has_format(profile: u32) -> bool
    ensures { result ≡ has_format profile }
{
    matches!(
        profile,
        100 | 110 | 122 | 244 | 44 | 83 | 86 | 118 | 128 | 138 | 139 | 134 | 135
    )
}

/// The chroma format that a set says.
#[tactic(auto, unfolding(crate::specs::H264::format_of_high))]
fn format_of_high(bits: &mut Bits<'_>) -> Option<u32>
    ensures { format_of_high bits.old ≡ gives result bits.new }
{
    let format = bits.code()?;
    bits.skip_if(format == 3, 1)?;
    bits.skip_code()?;
    bits.skip_code()?;
    bits.skip(1)?;
    skip_scaling_matrix(bits, format)?;
    Some(format)
}

/// The chroma format, 4:2:0 if the profile has no other.
#[tactic(auto, unfolding(crate::specs::H264::chroma_format))]
fn chroma_format(bits: &mut Bits<'_>, profile: u32) -> Option<u32>
    ensures { chroma_format profile bits.old ≡ gives result bits.new }
{
    if !has_format(profile) {
        return Some(1);
    }
    format_of_high(bits)
}

/// The chroma format, after what is in front of it.
#[tactic(auto, unfolding(crate::specs::H264::front))]
fn front(bits: &mut Bits<'_>) -> Option<u32>
    ensures { front bits.old ≡ gives result bits.new }
{
    bits.skip(8)?;
    let profile = bits.take(8)?;
    bits.skip(16)?;
    bits.skip_code()?;
    chroma_format(bits, profile)
}

/// Passes over a cycle of pictures.
#[tactic(auto, unfolding(crate::specs::H264::cycle))]
fn skip_cycle(bits: &mut Bits<'_>) -> Option<()>
    ensures { cycle bits.old ≡ gives result bits.new }
{
    bits.skip(1)?;
    bits.skip_codes(2)?;
    let count = bits.code()?;
    if count > 255 {
        return None;
    }
    bits.skip_codes(count as u8)
}

/// Passes over the order of pictures.
#[tactic(auto, unfolding(crate::specs::H264::order))]
fn skip_order(bits: &mut Bits<'_>) -> Option<()>
    ensures { order bits.old ≡ gives result bits.new }
{
    match bits.code()? {
        0 => bits.skip_code(),
        1 => skip_cycle(bits),
        _ => Some(()),
    }
}

/// How many fields a frame has in height.
#[tactic(auto, unfolding(crate::specs::H264::fields))]
fn fields(bits: &mut Bits<'_>) -> Option<u64>
    ensures value { fields bits.old ≡ gives result bits.new }
    ensures few { IfSome result (λ fields. fields ≤ 2) }
{
    if bits.flag()? {
        return Some(1);
    }
    bits.skip(1)?;
    Some(2)
}

/// The size of pictures of this many macroblocks.
fn shown_of(
    format: u32,
    columns: u32,
    rows: u32,
    fields: u64,
    cut: (u64, u64),
) -> Option<PictureSize>
    requires few { fields ≤ 2 }
    requires across { cut.0 < 8589934592 }
    requires down { cut.1 < 8589934592 }
    ensures { result ≡ shown_of format columns rows fields cut }
{
    let width = 16 * (columns as u64 + 1);
    let height = 16 * fields * (rows as u64 + 1);
    shown(
        width,
        sub_width(format) * cut.0,
        height,
        sub_height(format) * fields * cut.1,
    )
}

/// The size of pictures, after the chroma format.
#[tactic(auto, unfolding(crate::specs::H264::size_after))]
fn size_after(bits: &mut Bits<'_>, format: u32) -> Option<PictureSize>
    ensures { size_after format bits.old ≡ gives result bits.new }
{
    bits.skip_code()?;
    skip_order(bits)?;
    bits.skip_code()?;
    bits.skip(1)?;
    let columns = bits.code()?;
    let rows = bits.code()?;
    let fields = fields(bits)?;
    bits.skip(1)?;
    let cut = cropping(bits)?;
    shown_of(format, columns, rows, fields, cut)
}

/// The size of pictures in the payload of a sequence parameter set.
#[tactic(auto, unfolding(crate::specs::H264::sps))]
fn sps(payload: &[u8]) -> Option<PictureSize>
    ensures { result ≡ sps (bits payload.now) }
{
    let mut bits = Bits::new(payload);
    let format = front(&mut bits)?;
    size_after(&mut bits, format)
}

/// The size of pictures that a sequence parameter set of H.264 says (H.264 7.3.2.1.1), in luma samples after cropping.
/// None if the set ends before, says a scaling list or a cycle of pictures that H.264 doesn't have, or leaves nothing
/// of a picture. Its profile isn't checked, nor its type.
///
/// # Errors
/// There is no memory for the set's payload.
pub fn h264_size(alloc: Global, unit: &[u8]) -> Result<Option<PictureSize>, AllocError>
    ensures { IfOk result (λ size. size ≡ h264_size unit.now) }
{
    let payload = nal_payload(alloc, unit)?;
    Ok(sps(&payload))
}
