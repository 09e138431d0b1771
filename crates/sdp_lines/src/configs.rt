//! Commands on the config of an end: default rows of a codec, rows of video by numbers, and the distances of
//! redundancy.

use crate::rows::Change;
use crate::words::{maybe_type, number_of, type_of};
use sdp_formats::{Codec, CodecConfig, Joined, Pt};
use std::alloc::Global;
use words_and_replies::ReplyText;

/// `enable CODEC RED` and `disable CODEC RED`: the default rows of a codec in place of all that it has, or none; RED is
/// the word `red` if audio is to have a RED type.
pub(crate) fn enable(config: &mut CodecConfig, enabled: bool, words: &[&str]) -> Change {
    let [codec, red, ..] = words else {
        return None;
    };
    let red = *red == "red";
    Some(match Codec::from(*codec) {
        Codec::Opus => config.enable_opus(enabled, red),
        Codec::PCMU => config.enable_pcmu(enabled, red),
        Codec::PCMA => config.enable_pcma(enabled, red),
        Codec::G722 => config.enable_g722(enabled, red),
        Codec::CN => config.enable_comfort_noise(enabled),
        Codec::AmrWb => config.enable_amr_wb(enabled),
        Codec::Vp8 => config.enable_vp8(enabled),
        Codec::Vp9 => config.enable_vp9(enabled),
        Codec::Av1 => config.enable_av1(enabled),
        Codec::H264 => config.enable_h264(enabled),
        Codec::H265 => config.enable_h265(enabled),
        Codec::H266 => config.enable_h266(enabled),
        _ => return None,
    })
}

/// `video CODEC TYPE RESEND ..`: a row after the others, of H.264 in packetization mode 1 or another and of a
/// profile-level-id in hexadecimal, or of H.265 or H.266 of a profile, tier and level by their numbers.
pub(crate) fn add_video(config: &mut CodecConfig, words: &[&str]) -> Change {
    let [codec, pt, resend, numbers @ ..] = words else {
        return None;
    };
    let (pt, resend) = (type_of(pt)?, maybe_type(resend)?);
    match Codec::from(*codec) {
        Codec::H264 => add_h264(config, pt, resend, numbers),
        Codec::H265 => {
            let (profile_id, tier_flag, level_id) = level_of(numbers)?;
            Some(config.add_h265(pt, resend, profile_id, tier_flag, level_id))
        }
        Codec::H266 => {
            let (profile_id, tier_flag, level_id) = level_of(numbers)?;
            Some(config.add_h266(pt, resend, profile_id, tier_flag, level_id))
        }
        _ => None,
    }
}

fn add_h264(config: &mut CodecConfig, pt: Pt, resend: Option<Pt>, numbers: &[&str]) -> Change {
    let [mode, profile_level_id, ..] = numbers else {
        return None;
    };
    let profile_level_id = u32::from_str_radix(profile_level_id, 16).ok()?;
    Some(config.add_h264(pt, resend, *mode == "1", profile_level_id))
}

/// The numbers of a profile, a tier and a level.
fn level_of(numbers: &[&str]) -> Option<(u8, u8, u8)> {
    let [profile_id, tier_flag, level_id, ..] = numbers else {
        return None;
    };
    Some((
        number_of(profile_id)?,
        number_of(tier_flag)?,
        number_of(level_id)?,
    ))
}

/// `distances N ..`: sets the distances of redundancy, if some are given, and tells those in force.
pub(crate) fn put_distances(
    alloc: Global,
    config: &mut CodecConfig,
    words: &[&str],
    reply: &mut ReplyText,
) -> Option<()> {
    let mut given = Vec::new(alloc);
    for word in words {
        if given.push(word.parse::<u32>().ok()?).is_err() {
            reply.fail();
        }
    }
    if !given.is_empty() && config.set_red_distances(given.as_slice()).is_err() {
        reply.fail();
    }
    reply.say("[", &Joined(config.red_distances(), ", "));
    reply.put("]");
    Some(())
}
