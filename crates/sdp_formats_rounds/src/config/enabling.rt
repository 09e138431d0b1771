//! The default rows of a codec enabled and disabled.

ghost use Rattle.std.specs.Prelude.{◌≡◌, [], ◌∷◌, false, IsOk, OnOk, OnErr};
ghost use Rattle.media_types.specs.declared.codec.Codec.TheVariants.{Opus, PCMU, PCMA, G722, CN, AmrWb, Vp8};
ghost use Rattle.media_types.specs.declared.codec.Codec.TheVariants.{Vp9, Av1, H264, H265, H266};
ghost use Rattle.sdp_formats_rounds.specs.Configs.{with_rows, rows_if};
ghost use Rattle.sdp_formats_rows.specs.DefaultRows.{opus_row, pcmu_row, pcma_row, g722_row, comfort_noise_row};
ghost use Rattle.sdp_formats_rows.specs.DefaultRows.{amr_wb_row, vp8_row, vp9_rows, av1_row, h264_rows};
ghost use Rattle.sdp_formats_rows.specs.DefaultRows.{h265_default, h266_default};

use super::CodecConfig;
use media_types::Codec;
use sdp_formats_rows::{PayloadParams, drop_rows, put_rows, rows};
use std::alloc::AllocError;

/// Whether both are one codec.
impl CodecConfig {
    /// Drops the rows of Opus and, if enabled, adds the default one after all others: type 111,
    /// 48,000 Hz, two channels, `minptime=10;useinbandfec=1` (RFC 7587 7), with `use_red` under the
    /// RED type 63 (RFC 2198).
    ///
    /// # Errors
    ///
    /// `AllocError` if memory runs out, never to disable; the config is then as before.
    pub fn enable_opus(&mut self, enabled: bool, use_red: bool) -> Result<(), AllocError>
        ensures ok { OnOk result (self.new ≡ with_rows Opus (rows_if enabled (opus_row use_red ∷ [])) self.old) }
        ensures err { OnErr result (self.new ≡ self.old) }
        ensures off { enabled ≡ false → IsOk result }
    {
        self.enable(enabled, Codec::Opus, &[rows::opus(use_red)])
    }

    fn enable(
        &mut self,
        enabled: bool,
        codec: Codec,
        rows: &[PayloadParams],
    ) -> Result<(), AllocError>
        ensures ok { OnOk result (self.new ≡ with_rows codec (rows_if enabled rows.now) self.old) }
        ensures err { OnErr result (self.new ≡ self.old) }
        ensures off { enabled ≡ false → IsOk result }
    {
        if !enabled {
            drop_rows(&mut self.params, codec);
            return Ok(());
        }
        put_rows(&mut self.params, codec, rows)
    }

    /// Drops the rows of G.711 with mu-law and, if enabled, adds the default one after all others: type 0 at
    /// 8,000 Hz, with `use_red` under the RED type 61 (RFC 3551 4.5.14).
    ///
    /// # Errors
    ///
    /// `AllocError` if memory runs out, never to disable; the config is then as before.
    pub fn enable_pcmu(&mut self, enabled: bool, use_red: bool) -> Result<(), AllocError>
        ensures ok { OnOk result (self.new ≡ with_rows PCMU (rows_if enabled (pcmu_row use_red ∷ [])) self.old) }
        ensures err { OnErr result (self.new ≡ self.old) }
        ensures off { enabled ≡ false → IsOk result }
    {
        self.enable(enabled, Codec::PCMU, &[rows::pcmu(use_red)])
    }

    /// Drops the rows of G.711 with A-law and, if enabled, adds the default one after all others: type 8 at
    /// 8,000 Hz, with `use_red` under the RED type 60 (RFC 3551 4.5.14).
    ///
    /// # Errors
    ///
    /// `AllocError` if memory runs out, never to disable; the config is then as before.
    pub fn enable_pcma(&mut self, enabled: bool, use_red: bool) -> Result<(), AllocError>
        ensures ok { OnOk result (self.new ≡ with_rows PCMA (rows_if enabled (pcma_row use_red ∷ [])) self.old) }
        ensures err { OnErr result (self.new ≡ self.old) }
        ensures off { enabled ≡ false → IsOk result }
    {
        self.enable(enabled, Codec::PCMA, &[rows::pcma(use_red)])
    }

    /// Drops the rows of G.722 and, if enabled, adds the default one after all others: type 9 at
    /// 16,000 Hz, with `use_red` under the RED type 62; its clock on the wire runs at 8,000 Hz
    /// (RFC 3551 4.5.2).
    ///
    /// # Errors
    ///
    /// `AllocError` if memory runs out, never to disable; the config is then as before.
    pub fn enable_g722(&mut self, enabled: bool, use_red: bool) -> Result<(), AllocError>
        ensures ok { OnOk result (self.new ≡ with_rows G722 (rows_if enabled (g722_row use_red ∷ [])) self.old) }
        ensures err { OnErr result (self.new ≡ self.old) }
        ensures off { enabled ≡ false → IsOk result }
    {
        self.enable(enabled, Codec::G722, &[rows::g722(use_red)])
    }

    /// Drops the rows of comfort noise and, if enabled, adds the default one after all others: type 13 at
    /// 8,000 Hz (RFC 3389 4).
    ///
    /// # Errors
    ///
    /// `AllocError` if memory runs out, never to disable; the config is then as before.
    pub fn enable_comfort_noise(&mut self, enabled: bool) -> Result<(), AllocError>
        ensures ok { OnOk result (self.new ≡ with_rows CN (rows_if enabled (comfort_noise_row ∷ [])) self.old) }
        ensures err { OnErr result (self.new ≡ self.old) }
        ensures off { enabled ≡ false → IsOk result }
    {
        self.enable(enabled, Codec::CN, &[rows::comfort_noise()])
    }

    /// Drops the rows of AMR-WB and, if enabled, adds the default one after all others: type 122 at
    /// 16,000 Hz, one channel, `octet-align=1` (RFC 4867 8.2).
    ///
    /// # Errors
    ///
    /// `AllocError` if memory runs out, never to disable; the config is then as before.
    pub fn enable_amr_wb(&mut self, enabled: bool) -> Result<(), AllocError>
        ensures ok { OnOk result (self.new ≡ with_rows AmrWb (rows_if enabled (amr_wb_row ∷ [])) self.old) }
        ensures err { OnErr result (self.new ≡ self.old) }
        ensures off { enabled ≡ false → IsOk result }
    {
        self.enable(enabled, Codec::AmrWb, &[rows::amr_wb()])
    }

    /// Drops the rows of VP8 and, if enabled, adds the default one after all others: type 96,
    /// retransmitted under 97 (RFC 7741).
    ///
    /// # Errors
    ///
    /// `AllocError` if memory runs out, never to disable; the config is then as before.
    pub fn enable_vp8(&mut self, enabled: bool) -> Result<(), AllocError>
        ensures ok { OnOk result (self.new ≡ with_rows Vp8 (rows_if enabled (vp8_row ∷ [])) self.old) }
        ensures err { OnErr result (self.new ≡ self.old) }
        ensures off { enabled ≡ false → IsOk result }
    {
        self.enable(enabled, Codec::Vp8, &[rows::vp8()])
    }

    /// Drops the rows of VP9 and, if enabled, adds the default ones after all others: profile 0
    /// under type 98, retransmitted under 99, and profile 2 under 100 and 101 (RFC 9628).
    ///
    /// # Errors
    ///
    /// `AllocError` if memory runs out, never to disable; the config is then as before.
    pub fn enable_vp9(&mut self, enabled: bool) -> Result<(), AllocError>
        ensures ok { OnOk result (self.new ≡ with_rows Vp9 (rows_if enabled (vp9_rows)) self.old) }
        ensures err { OnErr result (self.new ≡ self.old) }
        ensures off { enabled ≡ false → IsOk result }
    {
        self.enable(enabled, Codec::Vp9, &rows::vp9())
    }

    /// Drops the rows of AV1 and, if enabled, adds the default one after all others: type 45,
    /// retransmitted under 46.
    ///
    /// # Errors
    ///
    /// `AllocError` if memory runs out, never to disable; the config is then as before.
    pub fn enable_av1(&mut self, enabled: bool) -> Result<(), AllocError>
        ensures ok { OnOk result (self.new ≡ with_rows Av1 (rows_if enabled (av1_row ∷ [])) self.old) }
        ensures err { OnErr result (self.new ≡ self.old) }
        ensures off { enabled ≡ false → IsOk result }
    {
        self.enable(enabled, Codec::Av1, &[rows::av1()])
    }

    /// Drops the rows of H.264 and, if enabled, adds the default ones after all others: seven of
    /// profile-level-id 42001f, 42e01f and 4d001f, each in packetization mode 1 and 0, and 64001f in
    /// mode 1, with level asymmetry (RFC 6184 8.1).
    ///
    /// # Errors
    ///
    /// `AllocError` if memory runs out, never to disable; the config is then as before.
    pub fn enable_h264(&mut self, enabled: bool) -> Result<(), AllocError>
        ensures ok { OnOk result (self.new ≡ with_rows H264 (rows_if enabled (h264_rows)) self.old) }
        ensures err { OnErr result (self.new ≡ self.old) }
        ensures off { enabled ≡ false → IsOk result }
    {
        self.enable(enabled, Codec::H264, &rows::h264())
    }

    /// Drops the rows of H.265 and, if enabled, adds the default one after all others: type 102, retransmitted
    /// under 103, of main profile, main tier and level 6 (RFC 7798 7.1).
    ///
    /// # Errors
    ///
    /// `AllocError` if memory runs out, never to disable; the config is then as before.
    pub fn enable_h265(&mut self, enabled: bool) -> Result<(), AllocError>
        ensures ok { OnOk result (self.new ≡ with_rows H265 (rows_if enabled (h265_default ∷ [])) self.old) }
        ensures err { OnErr result (self.new ≡ self.old) }
        ensures off { enabled ≡ false → IsOk result }
    {
        self.enable(enabled, Codec::H265, &[rows::h265()])
    }

    /// Drops the rows of H.266 and, if enabled, adds the default one after all others: type 104, retransmitted
    /// under 105, of main 10 profile, main tier and level 6 (RFC 9328 7.2).
    ///
    /// # Errors
    ///
    /// `AllocError` if memory runs out, never to disable; the config is then as before.
    pub fn enable_h266(&mut self, enabled: bool) -> Result<(), AllocError>
        ensures ok { OnOk result (self.new ≡ with_rows H266 (rows_if enabled (h266_default ∷ [])) self.old) }
        ensures err { OnErr result (self.new ≡ self.old) }
        ensures off { enabled ≡ false → IsOk result }
    {
        self.enable(enabled, Codec::H266, &[rows::h266()])
    }
}
