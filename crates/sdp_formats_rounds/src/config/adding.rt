//! Rows added to a config.

ghost use Rattle.std.specs.Prelude.{◌≡◌, OnOk, OnErr};
ghost use Rattle.media_types.specs.declared.codec.Codec.TheVariants.{H264};
ghost use Rattle.sdp_formats_rows.specs.Codecs.{full_spec, spec_of};
ghost use Rattle.sdp_formats_rows.specs.Rows.{new_row};
ghost use Rattle.sdp_formats_rounds.specs.Configs.{with_row};
ghost use Rattle.sdp_formats_rows.specs.DefaultRows.{h264_format, h265_row, h266_row};

use super::CodecConfig;
use media_types::Codec;
use rtp_wire::{Frequency, Pt};
use sdp_formats_rows::{CodecSpec, FormatParams, PayloadParams, rows};
use std::alloc::AllocError;

impl CodecConfig {
    /// Adds this row after all others.
    ///
    /// # Errors
    ///
    /// `AllocError` if memory runs out; the config is then as before.
    pub fn push(&mut self, row: PayloadParams) -> Result<(), AllocError>
        ensures ok { OnOk result (self.new ≡ with_row row self.old) }
        ensures err { OnErr result (self.new ≡ self.old) }
    {
        self.params.push(row)?;
        Ok(())
    }

    /// Adds a row after all others, of this type and codec, as `PayloadParams::new` makes it.
    ///
    /// # Errors
    ///
    /// `AllocError` if memory runs out; the config is then as before.
    pub fn add_config(
        &mut self,
        pt: Pt,
        resend: Option<Pt>,
        codec: Codec,
        clock_rate: Frequency,
        channels: Option<u8>,
        format: FormatParams,
    ) -> Result<(), AllocError>
        ensures ok { OnOk result (self.new ≡ with_row
            (new_row pt resend (full_spec codec clock_rate channels format)) self.old) }
        ensures err { OnErr result (self.new ≡ self.old) }
    {
        let spec = CodecSpec {
            codec,
            clock_rate,
            channels,
            format,
        };
        self.params.push(PayloadParams::new(pt, resend, spec))?;
        Ok(())
    }

    /// Adds a row of H.264 after all others, at 90,000 Hz in packetization mode 1 or 0, of this profile-level-id, with
    /// level asymmetry (RFC 6184 8.1).
    ///
    /// # Errors
    ///
    /// `AllocError` if memory runs out; the config is then as before.
    pub fn add_h264(
        &mut self,
        pt: Pt,
        resend: Option<Pt>,
        packetization_mode: bool,
        profile_level_id: u32,
    ) -> Result<(), AllocError>
        ensures ok { OnOk result (self.new ≡ with_row (new_row pt resend
            (spec_of H264 90000 (h264_format packetization_mode profile_level_id))) self.old) }
        ensures err { OnErr result (self.new ≡ self.old) }
    {
        let row = rows::h264_row(pt, resend, packetization_mode, profile_level_id);
        self.params.push(row)?;
        Ok(())
    }

    /// Adds a row of H.265 after all others, at 90,000 Hz, of the profile, tier and level that these numbers mean, or
    /// of main profile, main tier and level 3.1 if one is off its table (RFC 7798 7.1).
    ///
    /// # Errors
    ///
    /// `AllocError` if memory runs out; the config is then as before.
    pub fn add_h265(
        &mut self,
        pt: Pt,
        resend: Option<Pt>,
        profile_id: u8,
        tier_flag: u8,
        level_id: u8,
    ) -> Result<(), AllocError>
        ensures ok { OnOk result (self.new
            ≡ with_row (h265_row pt resend (profile_id, tier_flag, level_id)) self.old) }
        ensures err { OnErr result (self.new ≡ self.old) }
    {
        let row = rows::h265_row(pt, resend, (profile_id, tier_flag, level_id));
        self.params.push(row)?;
        Ok(())
    }

    /// Adds a row of H.266 after all others, at 90,000 Hz, of the profile, tier and level that these numbers mean, or
    /// of main 10 profile, main tier and level 3.1 if one is off its table (RFC 9328 7.2).
    ///
    /// # Errors
    ///
    /// `AllocError` if memory runs out; the config is then as before.
    pub fn add_h266(
        &mut self,
        pt: Pt,
        resend: Option<Pt>,
        profile_id: u8,
        tier_flag: u8,
        level_id: u8,
    ) -> Result<(), AllocError>
        ensures ok { OnOk result (self.new
            ≡ with_row (h266_row pt resend (profile_id, tier_flag, level_id)) self.old) }
        ensures err { OnErr result (self.new ≡ self.old) }
    {
        let row = rows::h266_row(pt, resend, (profile_id, tier_flag, level_id));
        self.params.push(row)?;
        Ok(())
    }
}
