//! One format parameter.

ghost use Rattle.std.specs.Prelude.{◌≡◌};
ghost use Rattle.std.specs.Str.{str_eq_ignore_ascii_case};
ghost use Rattle.sdp_formats_values.specs.Params.{flag, byte_param, value_param, other_param, param_of};
ghost use Rattle.sdp_formats_values.specs.Params.{telephone_events};

use crate::key::Key;
use crate::numbers::{byte_of, don_diff_of, modes_of, profile_level_of, range_of, word_of};
use media_types::{H265ProfileTierLevel, H266ProfileTierLevel};
use rtp_wire::Pt;

/// One format parameter of an `a=fmtp` line (RFC 8866 6.15).
#[derive(Clone, Copy, PartialEq, Eq, Drop)]
pub enum FormatParam {
    /// Opus `minptime`: the least duration of a packet in milliseconds (RFC 7587 6.1).
    MinPTime(u8),
    /// Opus `stereo`: whether the receiver prefers stereo (RFC 7587 6.1).
    Stereo(bool),
    /// Opus `sprop-stereo`: whether the sender is likely to send stereo (RFC 7587 6.1).
    SpropStereo(bool),
    /// Opus `useinbandfec`: whether the decoder uses in-band forward error correction (RFC 7587 6.1).
    UseInbandFec(bool),
    /// Opus `usedtx`: whether the decoder prefers discontinuous transmission (RFC 7587 6.1).
    UseDtx(bool),
    /// H.264 `level-asymmetry-allowed`: whether each way may have a level of its own (RFC 6184 8.1).
    LevelAsymmetryAllowed(bool),
    /// H.264 `packetization-mode`: 0 for single units, 1 for aggregates and fragments too (RFC 6184 8.1).
    PacketizationMode(u8),
    /// H.264 `profile-level-id`: profile, constraints and level, a byte each (RFC 6184 8.1).
    ProfileLevelId(u32),
    /// VP9 `profile-id` (RFC 9628 6.1).
    ProfileId(u32),
    /// AV1 `profile`, the highest that is used or received.
    Profile(u8),
    /// AV1 `level-idx`, the highest level that is used or received.
    LevelIdx(u8),
    /// AV1 `tier`, the highest that is used or received.
    Tier(u8),
    /// The profile, tier and level of H.265 (RFC 7798 7.1).
    H265ProfileTierLevel(H265ProfileTierLevel),
    /// The profile, tier and level of H.266 (RFC 9328 7.2).
    H266ProfileTierLevel(H266ProfileTierLevel),
    /// `sprop-max-don-diff`, 0 to 32,767 (RFC 7798 7.1, RFC 9328 7.2).
    SpropMaxDonDiff(u16),
    /// The highest event code in the range `0-X` of telephone events (RFC 4733 2.4.1).
    TelephoneEvents(u8),
    /// A bare range `0-X`, which means telephone events if that is what the payload type carries.
    BareRange(u8),
    /// The first of payload types separated by slashes, which means RED if that is what the payload
    /// type carries.
    BarePtList(Pt),
    /// AMR-WB `octet-align`: whether payloads are octet-aligned, else bandwidth-efficient (RFC 4867 8.2).
    OctetAlign(bool),
    /// AMR-WB `mode-set`: the speech modes that may be used, bit m for mode m, 0 to 8 (RFC 4867 8.2).
    ModeSet(u16),
    /// An AMR-WB parameter for an unsupported feature, such as `crc=1` (RFC 4867 8.2).
    AmrWbUnsupported,
    /// The payload type that RTX repeats (RFC 4588 8.6).
    Apt(Pt),
    /// The payload type that redundant audio wraps (RFC 2198 5).
    Red(Pt),
    /// Anything else.
    Unknown,
}

fn is_flag(value: &str) -> bool
    ensures { result ≡ flag value.now }
{
    value == "1"
}

/// Whether a key of `a=fmtp` is this name, whatever the case of its ASCII letters (RFC 4855 3).
pub fn has_name(key: &str, name: &str) -> bool
    ensures { result ≡ str_eq_ignore_ascii_case name.now key.now }
{
    name.eq_ignore_ascii_case(key)
}

/// The parameter of a known key.
fn value_param(key: Key, value: &str) -> FormatParam
    ensures { result ≡ value_param key value.now }
{
    match key {
        Key::Stereo => FormatParam::Stereo(is_flag(value)),
        Key::SpropStereo => FormatParam::SpropStereo(is_flag(value)),
        Key::UseInbandFec => FormatParam::UseInbandFec(is_flag(value)),
        Key::UseDtx => FormatParam::UseDtx(is_flag(value)),
        Key::LevelAsymmetryAllowed => FormatParam::LevelAsymmetryAllowed(is_flag(value)),
        Key::OctetAlign => FormatParam::OctetAlign(is_flag(value)),
        Key::MinPTime | Key::PacketizationMode | Key::Profile | Key::LevelIdx | Key::Tier => {
            byte_param(key, byte_of(value))
        }
        Key::ProfileLevelId => match profile_level_of(value) {
            Some(number) => FormatParam::ProfileLevelId(number),
            None => FormatParam::Unknown,
        },
        Key::ProfileId => match word_of(value) {
            Some(number) => FormatParam::ProfileId(number),
            None => FormatParam::Unknown,
        },
        Key::SpropMaxDonDiff => match don_diff_of(value) {
            Some(number) => FormatParam::SpropMaxDonDiff(number),
            None => FormatParam::Unknown,
        },
        Key::ModeSet => match modes_of(value) {
            Some(modes) => FormatParam::ModeSet(modes),
            None => FormatParam::Unknown,
        },
        Key::TierFlag | Key::LevelId => FormatParam::Unknown,
    }
}

/// The parameter of a key whose value is a number of eight bits.
fn byte_param(key: Key, number: Option<u8>) -> FormatParam
    ensures { result ≡ byte_param key number }
{
    let Some(number) = number else {
        return FormatParam::Unknown;
    };
    match key {
        Key::MinPTime => FormatParam::MinPTime(number),
        Key::PacketizationMode => FormatParam::PacketizationMode(number),
        Key::Profile => FormatParam::Profile(number),
        Key::LevelIdx => FormatParam::LevelIdx(number),
        Key::Tier => FormatParam::Tier(number),
        _ => FormatParam::Unknown,
    }
}

/// The parameter of a key that has no value of its own in `FormatParams`.
fn other_param(key: &str, value: &str) -> FormatParam
    ensures { result ≡ other_param key.now value.now }
{
    if has_name(key, "apt") {
        return match byte_of(value) {
            Some(number) => FormatParam::Apt(Pt::from(number)),
            None => FormatParam::Unknown,
        };
    }
    if (has_name(key, "crc") || has_name(key, "robust-sorting")) && is_flag(value) {
        return FormatParam::AmrWbUnsupported;
    }
    if has_name(key, "mode-change-period") && value == "2" {
        return FormatParam::AmrWbUnsupported;
    }
    if has_name(key, "interleaving") {
        return FormatParam::AmrWbUnsupported;
    }
    FormatParam::Unknown
}

impl FormatParam {
    /// The parameter of a key, in any ASCII case (RFC 4855 3), and its value.
    ///
    /// A flag (`stereo`, `sprop-stereo`, `useinbandfec`, `usedtx`, `level-asymmetry-allowed`, `octet-align`) is on
    /// where the value is `1`, and off at all else. `AmrWbUnsupported` comes of `crc=1`, `robust-sorting=1`,
    /// `mode-change-period=2`, and `interleaving` with any value (RFC 4867 8.2).
    ///
    /// `Unknown` is another key, a value that the key can't have, and any value of `tier-flag` or `level-id`, which
    /// mean something together alone: `parse_pairs` reads them.
    pub fn parse(k: &str, v: &str) -> FormatParam
        ensures { result ≡ param_of k.now v.now }
    {
        match Key::named(k) {
            Some(key) => value_param(key, v),
            None => other_param(k, v),
        }
    }

    /// The range `0-X` of telephone events, digits alone for X; `Unknown` for another text (RFC 4733 2.4.1).
    pub fn parse_telephone_events(value: &str) -> FormatParam
        ensures { result ≡ telephone_events value.now }
    {
        match range_of(value) {
            Some(last) => FormatParam::TelephoneEvents(last),
            None => FormatParam::Unknown,
        }
    }
}
