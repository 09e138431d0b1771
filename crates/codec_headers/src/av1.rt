//! Sequence headers of AV1.

ghost use Rattle.std.specs.Prelude.{◌≡◌, ◌<◌, ◌≤◌, IfSome};
ghost use Rattle.codec_headers.specs.Bits.{bits, gives, times};
ghost use Rattle.codec_headers.specs.Av1.{av1_sequence, delays, display, frame_ids, frame_size, inter_tools};
ghost use Rattle.codec_headers.specs.Av1.{integer_mv, level, model, pass_point, point, points, screen, sequence_header};
ghost use Rattle.codec_headers.specs.Av1.{tier_of, timing, timing_info, tools};
ghost use Rattle.codec_headers.specs.Av1Color.{color_config};

use crate::av1_color::{Av1Color, color_config};
use crate::bits::Bits;
use crate::picture::PictureSize;

/// The level and tier of an operating point.
#[derive(Debug, Clone, Copy, PartialEq, Eq)]
pub struct Av1Level {
    /// seq_level_idx, at most 31.
    pub level: u8,
    /// seq_tier, 0 or 1.
    pub tier: u8,
}

/// What a sequence header of AV1 says.
#[derive(Debug, Clone, Copy, PartialEq, Eq)]
pub struct Av1Sequence {
    /// seq_profile, at most 7.
    pub profile: u8,
    /// The level and tier of the first operating point.
    pub level: Av1Level,
    /// The greatest size of frames.
    pub size: PictureSize,
    /// The colours.
    pub color: Av1Color,
}

/// Passes over the model of decoders; how many bits a delay has.
#[tactic(auto, unfolding(crate::specs::Av1::model))]
fn model(bits: &mut Bits<'_>) -> Option<u8>
    ensures value { model bits.old ≡ gives result bits.new }
    ensures few { IfSome result (λ width. width ≤ 32) }
{
    let width = bits.take(5)?;
    bits.skip(42)?;
    Some((width + 1) as u8)
}

/// Passes over times; how many bits a delay has, 0 if there are none.
#[tactic(auto, unfolding(crate::specs::Av1::timing_info))]
fn timing_info(bits: &mut Bits<'_>) -> Option<u8>
    ensures value { timing_info bits.old ≡ gives result bits.new }
    ensures few { IfSome result (λ width. width ≤ 32) }
{
    bits.skip(64)?;
    if bits.flag()? {
        bits.skip_code()?;
    }
    if !bits.flag()? {
        return Some(0);
    }
    model(bits)
}

/// Passes over times if they are there; how many bits a delay has, 0 if there are none.
#[tactic(auto, unfolding(crate::specs::Av1::timing))]
fn timing(bits: &mut Bits<'_>) -> Option<u8>
    ensures value { timing bits.old ≡ gives result bits.new }
    ensures few { IfSome result (λ width. width ≤ 32) }
{
    if !bits.flag()? {
        return Some(0);
    }
    timing_info(bits)
}

/// The tier of a level.
#[tactic(auto, unfolding(crate::specs::Av1::tier_of))]
fn tier_of(bits: &mut Bits<'_>, level: u8) -> Option<u8>
    ensures { tier_of level bits.old ≡ gives result bits.new }
{
    if level <= 7 {
        return Some(0);
    }
    Some(bits.take(1)? as u8)
}

/// Passes over the delays of an operating point.
#[tactic(auto, unfolding(crate::specs::Av1::delays))]
fn skip_delays(bits: &mut Bits<'_>, width: u8) -> Option<()>
    requires { width ≤ 32 }
    ensures { delays width bits.old ≡ gives result bits.new }
{
    if width == 0 {
        return Some(());
    }
    let is_there = bits.flag()?;
    bits.skip_if(is_there, 2 * width as u16 + 1)
}

/// Passes over the display delay of an operating point.
#[tactic(auto, unfolding(crate::specs::Av1::display))]
fn skip_display(bits: &mut Bits<'_>, has_display: bool) -> Option<()>
    ensures { display has_display bits.old ≡ gives result bits.new }
{
    if !has_display {
        return Some(());
    }
    let is_there = bits.flag()?;
    bits.skip_if(is_there, 4)
}

/// An operating point.
#[tactic(auto, unfolding(crate::specs::Av1::point))]
fn point(bits: &mut Bits<'_>, width: u8, has_display: bool) -> Option<Av1Level>
    requires { width ≤ 32 }
    ensures { point width has_display bits.old ≡ gives result bits.new }
{
    bits.skip(12)?;
    let level = bits.take(5)? as u8;
    let tier = tier_of(bits, level)?;
    skip_delays(bits, width)?;
    skip_display(bits, has_display)?;
    Some(Av1Level { level, tier })
}

/// Passes over an operating point.
#[tactic(auto, unfolding(crate::specs::Av1::pass_point))]
fn skip_point(bits: &mut Bits<'_>, width: u8, has_display: bool) -> Option<()>
    requires { width ≤ 32 }
    ensures { pass_point width has_display bits.old ≡ gives result bits.new }
{
    let _point = point(bits, width, has_display)?;
    Some(())
}

/// Passes over this many operating points.
fn skip_points(bits: &mut Bits<'_>, count: u32, width: u8, has_display: bool) -> Option<()>
    requires { width ≤ 32 }
    ensures { times count (pass_point width has_display) bits.old ≡ gives result bits.new }
{
    for _passed in 0..count {
        skip_point(bits, width, has_display)?;
    }
    Some(())
}

/// The first operating point.
#[tactic(auto, unfolding(crate::specs::Av1::points))]
fn points(bits: &mut Bits<'_>) -> Option<Av1Level>
    ensures { points bits.old ≡ gives result bits.new }
{
    let width = timing(bits)?;
    let has_display = bits.flag()?;
    let more = bits.take(5)?;
    let first = point(bits, width, has_display)?;
    skip_points(bits, more, width, has_display)?;
    Some(first)
}

/// The level and tier of the first operating point.
#[tactic(auto, unfolding(crate::specs::Av1::level))]
fn level(bits: &mut Bits<'_>, is_reduced: bool) -> Option<Av1Level>
    ensures { level is_reduced bits.old ≡ gives result bits.new }
{
    if !is_reduced {
        return points(bits);
    }
    let level = bits.take(5)? as u8;
    Some(Av1Level { level, tier: 0 })
}

/// The greatest size of frames.
#[tactic(auto, using(crate::proofs::BitLemmas::within_sixteen), unfolding(crate::specs::Av1::frame_size))]
fn frame_size(bits: &mut Bits<'_>) -> Option<PictureSize>
    ensures { frame_size bits.old ≡ gives result bits.new }
{
    let width_bits = bits.take(4)? as u8;
    let height_bits = bits.take(4)? as u8;
    let width = bits.take(width_bits + 1)?;
    let height = bits.take(height_bits + 1)?;
    Some(PictureSize {
        width: width + 1,
        height: height + 1,
    })
}

/// Passes over the lengths of frame numbers.
#[tactic(auto, unfolding(crate::specs::Av1::frame_ids))]
fn skip_frame_ids(bits: &mut Bits<'_>) -> Option<()>
    ensures { frame_ids bits.old ≡ gives result bits.new }
{
    let is_there = bits.flag()?;
    bits.skip_if(is_there, 7)
}

/// Whether there may be screen content.
#[tactic(auto, unfolding(crate::specs::Av1::screen))]
fn screen(bits: &mut Bits<'_>) -> Option<bool>
    ensures { screen bits.old ≡ gives result bits.new }
{
    if bits.flag()? {
        return Some(true);
    }
    bits.flag()
}

/// Passes over the choice of integer motion vectors.
#[tactic(auto, unfolding(crate::specs::Av1::integer_mv))]
fn skip_integer_mv(bits: &mut Bits<'_>, has_screen: bool) -> Option<()>
    ensures { integer_mv has_screen bits.old ≡ gives result bits.new }
{
    if !has_screen {
        return Some(());
    }
    let is_chosen = bits.flag()?;
    bits.skip_if(!is_chosen, 1)
}

/// Passes over the tools of frames that follow others.
#[tactic(auto, unfolding(crate::specs::Av1::inter_tools))]
fn skip_inter_tools(bits: &mut Bits<'_>) -> Option<()>
    ensures { inter_tools bits.old ≡ gives result bits.new }
{
    bits.skip(4)?;
    let has_order = bits.flag()?;
    bits.skip_if(has_order, 2)?;
    let has_screen = screen(bits)?;
    skip_integer_mv(bits, has_screen)?;
    bits.skip_if(has_order, 3)
}

/// Passes over what is said between the size and the colours.
#[tactic(auto, unfolding(crate::specs::Av1::tools))]
fn skip_tools(bits: &mut Bits<'_>, is_reduced: bool) -> Option<()>
    ensures { tools is_reduced bits.old ≡ gives result bits.new }
{
    if is_reduced {
        return bits.skip(6);
    }
    skip_frame_ids(bits)?;
    bits.skip(3)?;
    skip_inter_tools(bits)?;
    bits.skip(3)
}

/// What a sequence header says.
#[tactic(auto, unfolding(crate::specs::Av1::sequence_header))]
fn sequence_header(bits: &mut Bits<'_>) -> Option<Av1Sequence>
    ensures { sequence_header bits.old ≡ gives result bits.new }
{
    let profile = bits.take(3)? as u8;
    bits.skip(1)?;
    let is_reduced = bits.flag()?;
    let level = level(bits, is_reduced)?;
    let size = frame_size(bits)?;
    skip_tools(bits, is_reduced)?;
    let color = color_config(bits, profile)?;
    Some(Av1Sequence {
        profile,
        level,
        size,
        color,
    })
}

/// What the content of a sequence header OBU says, after its header and its size (AV1 bitstream specification 5.5).
/// None if it ends before its colours, or says a time of 2^32 - 1 ticks or more.
pub fn av1_sequence(content: &[u8]) -> Option<Av1Sequence>
    ensures { result ≡ av1_sequence content.now }
{
    sequence_header(&mut Bits::new(content))
}
