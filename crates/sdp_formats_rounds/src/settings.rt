//! The settings a match negotiates for a row.

ghost use Rattle.std.specs.Prelude.{◌≡◌};
ghost use Rattle.media_types.specs.declared.codec.Codec.TheVariants.{AmrWb, H265, H266, Tele};
ghost use Rattle.sdp_formats_rounds.specs.Negotiated.{negotiated, negotiated_channels, negotiated_format, with_h265};
ghost use Rattle.sdp_formats_rounds.specs.Negotiated.{with_h266};

use media_types::Codec;
use sdp_formats_rows::{CodecSpec, FormatParams, GivenH265, GivenH266, level_agreed};

fn with_events(ours: FormatParams, theirs: &FormatParams) -> FormatParams
    ensures { result ≡ negotiated_format Tele ours theirs.now }
{
    let most = ours.telephone_event_max.unwrap_or(16);
    let their_most = theirs.telephone_event_max.unwrap_or(16);
    FormatParams {
        telephone_event_max: Some(most.min(their_most)),
        ..ours
    }
}

fn with_h265(ours: FormatParams, theirs: &FormatParams, agreed: GivenH265) -> FormatParams
    ensures { result ≡ with_h265 ours theirs.now agreed }
{
    FormatParams {
        h265_profile_tier_level: agreed.level,
        profile_id: agreed.profile_id,
        sprop_max_don_diff: theirs.sprop_max_don_diff.or(ours.sprop_max_don_diff),
        ..ours
    }
}

fn with_h266(ours: FormatParams, theirs: &FormatParams, agreed: GivenH266) -> FormatParams
    ensures { result ≡ with_h266 ours theirs.now agreed }
{
    FormatParams {
        h266_profile_tier_level: agreed.level,
        profile_id: agreed.profile_id,
        sprop_max_don_diff: theirs.sprop_max_don_diff.or(ours.sprop_max_don_diff),
        ..ours
    }
}

fn negotiated_h265(ours: FormatParams, theirs: &FormatParams) -> FormatParams
    ensures { result ≡ negotiated_format H265 ours theirs.now }
{
    let own = GivenH265 {
        level: ours.h265_profile_tier_level,
        profile_id: ours.profile_id,
    };
    let given = GivenH265 {
        level: theirs.h265_profile_tier_level,
        profile_id: theirs.profile_id,
    };
    with_h265(ours, theirs, level_agreed(&own, &given))
}

fn negotiated_h266(ours: FormatParams, theirs: &FormatParams) -> FormatParams
    ensures { result ≡ negotiated_format H266 ours theirs.now }
{
    let own = GivenH266 {
        level: ours.h266_profile_tier_level,
        profile_id: ours.profile_id,
    };
    let given = GivenH266 {
        level: theirs.h266_profile_tier_level,
        profile_id: theirs.profile_id,
    };
    with_h266(ours, theirs, level_agreed(&own, &given))
}

fn negotiated_speech(ours: FormatParams, theirs: &FormatParams) -> FormatParams
    ensures { result ≡ negotiated_format AmrWb ours theirs.now }
{
    FormatParams {
        octet_align: theirs.octet_align,
        mode_set: ours.mode_set.or(theirs.mode_set),
        ..ours
    }
}

fn negotiated_format(codec: Codec, ours: FormatParams, theirs: &FormatParams) -> FormatParams
    ensures { result ≡ negotiated_format codec ours theirs.now }
{
    match codec {
        Codec::Tele => with_events(ours, theirs),
        Codec::H265 => negotiated_h265(ours, theirs),
        Codec::H266 => negotiated_h266(ours, theirs),
        Codec::AmrWb => negotiated_speech(ours, theirs),
        _ => ours,
    }
}

fn negotiated_channels(codec: Codec, ours: Option<u8>, theirs: Option<u8>) -> Option<u8>
    ensures { result ≡ negotiated_channels codec ours theirs }
{
    match codec {
        Codec::AmrWb => theirs,
        _ => ours,
    }
}

/// What a match with `theirs` leaves of a row's codec settings.
#[tactic(auto, unfolding(crate::specs::Negotiated::negotiated))]
pub fn negotiated(ours: CodecSpec, theirs: &CodecSpec) -> CodecSpec
    ensures { result ≡ negotiated ours theirs.now }
{
    CodecSpec {
        channels: negotiated_channels(ours.codec, ours.channels, theirs.channels),
        format: negotiated_format(ours.codec, ours.format, &theirs.format),
        ..ours
    }
}
