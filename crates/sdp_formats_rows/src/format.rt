//! Format parameters of a codec.

ghost use Rattle.std.specs.Prelude.{◌≡◌};
ghost use Rattle.sdp_formats_rows.specs.Formats.{no_format, format_of};

use crate::last_values::gives_level;
use crate::levels::level_format;
use crate::set_values::with_part;
use media_types::{H265ProfileTierLevel, H266ProfileTierLevel};
use sdp_formats_grammar::first_part;
use serde::{Deserialize, Serialize};

/// Format parameters of a codec, as `a=fmtp` gives them (RFC 8866 6.15); None is not given.
#[derive(Clone, Copy, Debug, PartialEq, Eq, Default, Drop, Serialize, Deserialize)]
pub struct FormatParams {
    /// Opus `minptime`: the least duration of a packet in milliseconds (RFC 7587 6.1).
    pub min_p_time: Option<u8>,
    /// Opus `stereo`: whether the receiver prefers stereo (RFC 7587 6.1).
    pub stereo: Option<bool>,
    /// Opus `sprop-stereo`: whether the sender is likely to send stereo (RFC 7587 6.1).
    pub sprop_stereo: Option<bool>,
    /// Opus `useinbandfec`: whether the decoder uses in-band forward error correction
    /// (RFC 7587 6.1).
    pub use_inband_fec: Option<bool>,
    /// Opus `usedtx`: whether the decoder prefers discontinuous transmission (RFC 7587 6.1).
    pub use_dtx: Option<bool>,
    /// H.264 `level-asymmetry-allowed`: whether each way may have a level of its own
    /// (RFC 6184 8.1).
    pub level_asymmetry_allowed: Option<bool>,
    /// H.264 `packetization-mode`: 0 for single units, 1 for aggregates and fragments too
    /// (RFC 6184 8.1).
    pub packetization_mode: Option<u8>,
    /// H.264 `profile-level-id`: profile, constraints and level, a byte each (RFC 6184 8.1).
    pub profile_level_id: Option<u32>,
    /// VP9 `profile-id` (RFC 9628 6.1).
    pub profile_id: Option<u32>,
    /// AV1 `profile`, the highest that is used or received, 0 to 2.
    pub profile: Option<u8>,
    /// AV1 `level-idx`, the highest level that is used or received, 0 to 31.
    pub level_idx: Option<u8>,
    /// AV1 `tier`, the highest that is used or received, 0 or 1.
    pub tier: Option<u8>,
    /// The profile, tier and level of H.265 (RFC 7798 7.1).
    pub h265_profile_tier_level: Option<H265ProfileTierLevel>,
    /// The profile, tier and level of H.266 (RFC 9328 7.2).
    pub h266_profile_tier_level: Option<H266ProfileTierLevel>,
    /// `sprop-max-don-diff`, 0 to 32,767: decoding order numbers are sent if it is above 0
    /// (RFC 7798 7.1, RFC 9328 7.2).
    pub sprop_max_don_diff: Option<u16>,
    /// The highest event code in the range `0-X` of telephone events (RFC 4733 2.4.1).
    pub telephone_event_max: Option<u8>,
    /// AMR-WB `octet-align`: whether payloads are octet-aligned, else bandwidth-efficient
    /// (RFC 4867 8.2).
    pub octet_align: Option<bool>,
    /// AMR-WB `mode-set`: the speech modes that may be used, bit m for mode m, 0 to 8
    /// (RFC 4867 8.2).
    pub mode_set: Option<u16>,
}

/// No parameter is given.
pub(crate) fn no_format() -> FormatParams
    ensures { result ≡ no_format }
{
    FormatParams::default()
}

impl FormatParams {
    /// The parameters of an `a=fmtp` line's text, as `minptime=10;useinbandfec=1`, or `0-16` for
    /// telephone events (RFC 8866 6.15).
    ///
    /// Of each part between semicolons the key, in any ASCII case, and the value after an equals
    /// sign are read without the blanks round them; what follows a second equals sign doesn't
    /// count. A later value replaces an earlier one. Keys that are unknown and values that don't
    /// parse are passed over; but a flag is on at `1` and off at all else, so each of its values
    /// counts. If a key is `tier-flag` or `level-id`, each key counts with its last value alone,
    /// and `profile-id`, `tier-flag` and `level-id` are the profile, tier and level of H.265, else of
    /// H.266, if they mean one (RFC 7798 7.1, RFC 9328 7.2).
    pub fn parse_line(line: &str) -> FormatParams
        ensures { result ≡ format_of line.now }
    {
        let last_alone = gives_level(line);
        let mut format = level_format(line);
        let mut rest = Some(line);
        while let Some(text) = rest {
            let (part, after) = first_part(text, ';');
            format = with_part(format, part, last_alone);
            rest = after;
        }
        format
    }
}
