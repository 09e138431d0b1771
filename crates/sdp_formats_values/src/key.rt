//! Names of format parameters.

ghost use Rattle.std.specs.Prelude.{◌≡◌};
ghost use Rattle.std.specs.Array.Iter.{array_into_iter_items};
ghost use Rattle.sdp_formats_values.specs.Keys.{all_keys, key_name, is_name_of, key_named, is_level_key};

use std::{array, fmt};

/// A known format parameter.
#[derive(Clone, Copy, Drop)]
pub enum Key {
    /// Opus `minptime` (RFC 7587 6.1).
    MinPTime,
    /// Opus `stereo` (RFC 7587 6.1).
    Stereo,
    /// Opus `sprop-stereo` (RFC 7587 6.1).
    SpropStereo,
    /// Opus `useinbandfec` (RFC 7587 6.1).
    UseInbandFec,
    /// Opus `usedtx` (RFC 7587 6.1).
    UseDtx,
    /// H.264 `level-asymmetry-allowed` (RFC 6184 8.1).
    LevelAsymmetryAllowed,
    /// H.264 `packetization-mode` (RFC 6184 8.1).
    PacketizationMode,
    /// H.264 `profile-level-id` (RFC 6184 8.1).
    ProfileLevelId,
    /// VP9 `profile-id` (RFC 9628 6.1), and that of H.265 and H.266 (RFC 7798 7.1, RFC 9328 7.2).
    ProfileId,
    /// AV1 `profile`.
    Profile,
    /// AV1 `level-idx`.
    LevelIdx,
    /// AV1 `tier`.
    Tier,
    /// H.265 and H.266 `sprop-max-don-diff` (RFC 7798 7.1, RFC 9328 7.2).
    SpropMaxDonDiff,
    /// AMR-WB `octet-align` (RFC 4867 8.2).
    OctetAlign,
    /// AMR-WB `mode-set` (RFC 4867 8.2).
    ModeSet,
    /// H.265 and H.266 `tier-flag` (RFC 7798 7.1, RFC 9328 7.2).
    TierFlag,
    /// H.265 and H.266 `level-id` (RFC 7798 7.1, RFC 9328 7.2).
    LevelId,
}

impl Key {
    /// The name of the parameter, as it is printed.
    pub fn as_str(&self) -> &'static str
        ensures { result.now ≡ key_name self.now }
    {
        match self {
            Key::MinPTime => "minptime",
            Key::Stereo => "stereo",
            Key::SpropStereo => "sprop-stereo",
            Key::UseInbandFec => "useinbandfec",
            Key::UseDtx => "usedtx",
            Key::LevelAsymmetryAllowed => "level-asymmetry-allowed",
            Key::PacketizationMode => "packetization-mode",
            Key::ProfileLevelId => "profile-level-id",
            Key::ProfileId => "profile-id",
            Key::Profile => "profile",
            Key::LevelIdx => "level-idx",
            Key::Tier => "tier",
            Key::SpropMaxDonDiff => "sprop-max-don-diff",
            Key::OctetAlign => "octet-align",
            Key::ModeSet => "mode-set",
            Key::TierFlag => "tier-flag",
            Key::LevelId => "level-id",
        }
    }

    fn all() -> array::IntoIter<Key, 17>
        ensures { array_into_iter_items result ≡ all_keys }
    {
        [
            Key::MinPTime,
            Key::Stereo,
            Key::SpropStereo,
            Key::UseInbandFec,
            Key::UseDtx,
            Key::LevelAsymmetryAllowed,
            Key::PacketizationMode,
            Key::ProfileLevelId,
            Key::ProfileId,
            Key::Profile,
            Key::LevelIdx,
            Key::Tier,
            Key::SpropMaxDonDiff,
            Key::OctetAlign,
            Key::ModeSet,
            Key::TierFlag,
            Key::LevelId,
        ]
        .into_iter()
    }

    fn has_name(&self, text: &str) -> bool
        ensures { result ≡ is_name_of self.now text.now }
    {
        self.as_str().eq_ignore_ascii_case(text)
    }

    /// The parameter of a name in any ASCII case (RFC 4855 3).
    pub fn named(text: &str) -> Option<Key>
        ensures { result ≡ key_named text.now }
    {
        for key in Key::all() {
            if key.has_name(text) {
                return Some(key);
            }
        }
        None
    }

    /// Does it tell of a profile, tier and level (RFC 7798 7.1, RFC 9328 7.2)?
    pub fn is_level(&self) -> bool
        ensures { result ≡ is_level_key self.now }
    {
        matches!(self, Key::TierFlag | Key::LevelId)
    }
}

/// By its name.
impl fmt::Debug for Key {
    ghost use Rattle.std.specs.Prelude.{Some};

    ghost debug_output = { λ key. Some (key_name key) };

    fn fmt<W: fmt::Write>(&self, f: &mut fmt::Formatter<W>) -> fmt::Result {
        f.write_str(self.as_str())
    }
}
