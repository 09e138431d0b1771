//! Profiles and levels of H.264, H.265 and H.266, from their numbers and from the values of a session text.

use h26x_payload::{
    H264LevelIdc, H264ProfileIdc, H264ProfileLevel, H265ProfileTierLevel, H266ProfileTierLevel,
};
use std::fmt::Debug;
use words_and_replies::CommandLine;

/// `profile CODEC VALUE ..`: what a codec's values mean, of H.264 a profile-level-id in hexadecimal, of the others a
/// profile-id, a tier-flag and a level-id, if a dash stands for one that isn't given.
pub(crate) fn profile(line: &mut CommandLine<'_>) {
    match line.word() {
        "H264" => {
            let number = u32::from_str_radix(line.rest(), 16).unwrap_or(0);
            match H264ProfileLevel::try_from(number) {
                Ok(read) => line.put(format_args!("{:?} {:?}", read.profile(), read.level())),
                Err(fault) => line.refuse(fault),
            }
        }
        "H265" => match H265ProfileTierLevel::from_fmtp(given(line), given(line), given(line)) {
            Some(read) => put_three(line, read.profile(), read.tier(), read.level()),
            None => line.refuse("no profile, tier and level"),
        },
        _ => match H266ProfileTierLevel::from_fmtp(given(line), given(line), given(line)) {
            Some(read) => put_three(line, read.profile(), read.tier(), read.level()),
            None => line.refuse("no profile, tier and level"),
        },
    }
}

fn put_three<P: Debug + Drop, T: Debug + Drop, L: Debug + Drop>(
    line: &mut CommandLine<'_>,
    profile: P,
    tier: T,
    level: L,
) {
    line.put(format_args!("{profile:?} {tier:?} {level:?}"))
}

/// The next word, unless a dash stands for it.
fn given<'a>(line: &mut CommandLine<'a>) -> Option<&'a str> {
    match line.word() {
        "-" => None,
        word => Some(word),
    }
}

/// `idc NUMBER`: the profile of a profile_idc of H.264.
pub(crate) fn idc(line: &mut CommandLine<'_>) {
    match H264ProfileIdc::try_from(line.number::<u8>()) {
        Ok(idc) => line.put(format_args!("{idc:?}")),
        Err(fault) => line.refuse(fault),
    }
}

/// `level NUMBER`: the level of a level_idc of H.264, and its place among the levels.
pub(crate) fn level(line: &mut CommandLine<'_>) {
    match H264LevelIdc::try_from(line.number::<u8>()) {
        Ok(level) => line.put(format_args!("{level:?} {}", level.ordinal())),
        Err(fault) => line.refuse(fault),
    }
}
