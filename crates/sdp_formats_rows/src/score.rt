//! How well two codecs with their settings match.

ghost use Rattle.std.specs.Prelude.{◌≡◌};
ghost use Rattle.sdp_formats_rows.specs.Codecs.{is_codec};
ghost use Rattle.sdp_formats_rows.specs.Laws.{ScoreSymmetric, ScoresInRange};
ghost use Rattle.sdp_formats_rows.specs.Scores.{amr_wb_score, codec_score, is_mono, score, settings_score};

use crate::format_scores::{format_score, modes_score};
use crate::same::{alike, same_byte, same_format};
use crate::spec::CodecSpec;
use media_types::Codec;

/// Is it one channel, given or not?
fn is_mono(spec: &CodecSpec) -> bool
    ensures { result ≡ is_mono spec.now }
{
    spec.channels.unwrap_or(1) == 1
}

/// The points of two rows of AMR-WB: mono at both sides, and aligned alike (RFC 4867 8.3.1).
fn amr_wb_score(a: &CodecSpec, b: &CodecSpec) -> Option<usize>
    ensures { result ≡ amr_wb_score a.now b.now }
{
    if is_mono(a) && is_mono(b) && alike(a.format.octet_align, b.format.octet_align) {
        return modes_score(a.format.mode_set, b.format.mode_set);
    }
    None
}

/// The points of two rows of one codec at one clock rate: the same channels, and one format or its codec's table.
fn settings_score(a: &CodecSpec, b: &CodecSpec) -> Option<usize>
    ensures { result ≡ settings_score a.now b.now }
{
    if !same_byte(a.channels, b.channels) {
        return None;
    }
    if same_format(&a.format, &b.format) {
        return Some(100);
    }
    format_score(a.codec, &a.format, &b.format)
}

/// The points of two rows of one codec at one clock rate, by the rule of the codec.
fn codec_score(codec: Codec, a: &CodecSpec, b: &CodecSpec) -> Option<usize>
    ensures { result ≡ codec_score codec a.now b.now }
{
    match codec {
        Codec::Tele => Some(100),
        Codec::AmrWb => amr_wb_score(a, b),
        _ => settings_score(a, b),
    }
}

/// Is it the same codec?
fn is_codec(codec: Codec, other: Codec) -> bool
    ensures { result ≡ is_codec codec other }
{
    codec == other
}

/// How well two codecs with their settings match; other codecs and clock rates don't.
#[tactic(auto, unfolding(crate::specs::Scores::score))]
pub(crate) fn score(a: &CodecSpec, b: &CodecSpec) -> Option<usize>
    ensures { result ≡ score a.now b.now }
{
    if is_codec(a.codec, b.codec) && a.clock_rate.get() == b.clock_rate.get() {
        return codec_score(a.codec, a, b);
    }
    None
}

/// Scores are symmetric: how well a row matches another one is how well that one matches it.
pub fn scores_symmetric()
    ensures { ScoreSymmetric }
{}

/// Scores are in their range: rows that match do so by 1 to 100 points.
pub fn scores_in_range()
    ensures { ScoresInRange }
{}
