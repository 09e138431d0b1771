//! Formats with one more parameter.

ghost use Rattle.std.specs.Prelude.{◌≡◌};
ghost use Rattle.sdp_formats_rows.specs.OneParam.{range_in, with_codec_param, with_param};

use crate::format::FormatParams;
use sdp_formats_values::FormatParam;

/// How far a parameter's range of telephone events goes.
fn range_in(param: &FormatParam) -> Option<u8>
    ensures { result ≡ range_in param.now }
{
    match *param {
        FormatParam::TelephoneEvents(most) => Some(most),
        _ => None,
    }
}

impl FormatParams {
    /// Puts one more parameter, a range of telephone events included.
    pub fn set_param(&mut self, param: &FormatParam)
        ensures { self.new ≡ with_param self.old param.now }
    {
        self.set_codec_param(param);
        if let Some(most) = range_in(param) {
            self.telephone_event_max = Some(most);
        }
    }

    /// Puts one more parameter of a codec other than telephone events: a range of these changes nothing.
    pub fn set_codec_param(&mut self, param: &FormatParam)
        ensures { self.new ≡ with_codec_param self.old param.now }
    {
        match *param {
            FormatParam::MinPTime(v) => self.min_p_time = Some(v),
            FormatParam::Stereo(v) => self.stereo = Some(v),
            FormatParam::SpropStereo(v) => self.sprop_stereo = Some(v),
            FormatParam::UseInbandFec(v) => self.use_inband_fec = Some(v),
            FormatParam::UseDtx(v) => self.use_dtx = Some(v),
            FormatParam::LevelAsymmetryAllowed(v) => self.level_asymmetry_allowed = Some(v),
            FormatParam::PacketizationMode(v) => self.packetization_mode = Some(v),
            FormatParam::ProfileLevelId(v) => self.profile_level_id = Some(v),
            FormatParam::ProfileId(v) => self.profile_id = Some(v),
            FormatParam::Profile(v) => self.profile = Some(v),
            FormatParam::LevelIdx(v) => self.level_idx = Some(v),
            FormatParam::Tier(v) => self.tier = Some(v),
            FormatParam::H265ProfileTierLevel(v) => self.h265_profile_tier_level = Some(v),
            FormatParam::H266ProfileTierLevel(v) => self.h266_profile_tier_level = Some(v),
            FormatParam::SpropMaxDonDiff(v) => self.sprop_max_don_diff = Some(v),
            FormatParam::OctetAlign(v) => self.octet_align = Some(v),
            FormatParam::ModeSet(v) => self.mode_set = Some(v),
            _ => {}
        }
    }
}
