//! The parameters that a format gives, one by one.

ghost use Rattle.std.specs.Prelude.{◌≡◌, IfOk};
ghost use Rattle.sdp_formats_rows.specs.Parameters.{each_param, params_of};

use crate::format::FormatParams;
use sdp_formats_values::FormatParam;
use std::alloc::{AllocError, Global};

/// Each parameter that a format may give, with its value if it gives it, in the order of printing.
pub(crate) fn each_param(f: &FormatParams) -> [Option<FormatParam>; 18]
    ensures { result ≡ each_param f.now }
{
    [
        f.min_p_time.map(FormatParam::MinPTime),
        f.stereo.map(FormatParam::Stereo),
        f.sprop_stereo.map(FormatParam::SpropStereo),
        f.use_inband_fec.map(FormatParam::UseInbandFec),
        f.use_dtx.map(FormatParam::UseDtx),
        f.level_asymmetry_allowed
            .map(FormatParam::LevelAsymmetryAllowed),
        f.packetization_mode.map(FormatParam::PacketizationMode),
        f.profile_level_id.map(FormatParam::ProfileLevelId),
        f.profile_id.map(FormatParam::ProfileId),
        f.profile.map(FormatParam::Profile),
        f.level_idx.map(FormatParam::LevelIdx),
        f.tier.map(FormatParam::Tier),
        f.h265_profile_tier_level
            .map(FormatParam::H265ProfileTierLevel),
        f.h266_profile_tier_level
            .map(FormatParam::H266ProfileTierLevel),
        f.sprop_max_don_diff.map(FormatParam::SpropMaxDonDiff),
        f.telephone_event_max.map(FormatParam::TelephoneEvents),
        f.octet_align.map(FormatParam::OctetAlign),
        f.mode_set.map(FormatParam::ModeSet),
    ]
}

impl FormatParams {
    /// The parameters that are given, in the order of printing (RFC 8866 6.15).
    ///
    /// # Errors
    ///
    /// `AllocError` if memory runs out.
    pub fn to_format_param(&self, alloc: Global) -> Result<Vec<FormatParam>, AllocError>
        ensures { IfOk result (λ params. params.items ≡ params_of self.now) }
    {
        let mut params = Vec::new(alloc);
        for param in &each_param(self) {
            if let Some(param) = param {
                params.push(*param)?;
            }
        }
        Ok(params)
    }
}
