//! One depacketizer over all codecs.

ghost use Rattle.h26x_payload.specs.Codings.{Settings, coding_of, first_settings, has_format, settings_of};
ghost use Rattle.std.specs.Prelude.{◌≡◌, [], Bool, Contains, IfSome, None, false, is_some, length, unwrap_or};

use crate::not_boxed::NotBoxed;
use h26x_payload_formats::{H264Depacketizer, H265Depacketizer, H266Depacketizer};
use media_types::Codec;
use payload_core_audio::{
    AmrWbDepacketizer, ComfortNoiseDepacketizer, G711Depacketizer, OpusDepacketizer,
    TelephoneEventDepacketizer,
};
use payload_core_av1::Av1Depacketizer;
use payload_core_base::{CodecExtra, Depacketizer, PacketError};
use payload_core_vpx::{Vp8Depacketizer, Vp9Depacketizer};
use rtp_wire::Frequency;
use std::alloc::Global;

/// The depacketizer of a codec, or another one: by default a boxed one of the caller's.
pub enum CodecDepacketizer<B = Box<dyn Depacketizer + Drop>> {
    /// Of PCMU and PCMA.
    G711(G711Depacketizer),
    /// Of G.722.
    G722(G711Depacketizer),
    /// Of Opus.
    Opus(OpusDepacketizer),
    /// Of comfort noise.
    ComfortNoise(ComfortNoiseDepacketizer),
    /// Of AMR-WB.
    AmrWb(AmrWbDepacketizer),
    /// Of telephone events.
    Telephone(TelephoneEventDepacketizer),
    /// Of VP8.
    Vp8(Vp8Depacketizer),
    /// Of VP9.
    Vp9(Vp9Depacketizer),
    /// Of AV1.
    Av1(Av1Depacketizer),
    /// Of H.264.
    H264(H264Depacketizer),
    /// Of H.265.
    H265(H265Depacketizer),
    /// Of H.266.
    H266(H266Depacketizer),
    /// Another one.
    Boxed(B),
}

/// Written by hand, so that crates that drop this type need no proof about its fields.
impl<B: Drop> Drop for CodecDepacketizer<B> {
    fn drop(self) {
        match self {
            CodecDepacketizer::G711(_inner) => {}
            CodecDepacketizer::G722(_inner) => {}
            CodecDepacketizer::Opus(_inner) => {}
            CodecDepacketizer::ComfortNoise(_inner) => {}
            CodecDepacketizer::AmrWb(_inner) => {}
            CodecDepacketizer::Telephone(_inner) => {}
            CodecDepacketizer::Vp8(_inner) => {}
            CodecDepacketizer::Vp9(_inner) => {}
            CodecDepacketizer::Av1(_inner) => {}
            CodecDepacketizer::H264(_inner) => {}
            CodecDepacketizer::H265(_inner) => {}
            CodecDepacketizer::H266(_inner) => {}
            CodecDepacketizer::Boxed(_inner) => {}
        }
    }
}

impl<B: Depacketizer> CodecDepacketizer<B> {
    ghost use Rattle.h26x_payload.specs.Depacketizers.{codecs_of, format_under, is_set};

    /// The depacketizer of a codec with no fragment open, which takes memory from `alloc` for the one that it keeps;
    /// None for Rtx, Red, Null and Unknown.
    ///
    /// AMR-WB is read in the bandwidth-efficient layout, H.265 and H.266 without decoding order numbers, and telephone
    /// events at 8,000 Hz, until `configure_for` says otherwise.
    pub fn new(alloc: Global, codec: Codec) -> Option<Self>
        ensures some { is_some result ≡ has_format codec }
        ensures variant { IfSome result (λ d. Contains (codecs_of d) codec) }
        ensures format { IfSome result (λ d. (has_id : Bool) → ⟦<CodecDepacketizer<B> as Depacketizer>⟧.format d
            ≡ (coding_of first_settings has_id codec).format) }
        ensures closed { IfSome result (λ d. ⟦<CodecDepacketizer<B> as Depacketizer>⟧.fragment d ≡ None) }
    {
        match codec {
            Codec::PCMU | Codec::PCMA => Some(CodecDepacketizer::G711(G711Depacketizer::new())),
            Codec::G722 => Some(CodecDepacketizer::G722(G711Depacketizer::new())),
            Codec::Opus => Some(CodecDepacketizer::Opus(OpusDepacketizer::new())),
            Codec::CN => {
                let depacketizer = ComfortNoiseDepacketizer::new();
                Some(CodecDepacketizer::ComfortNoise(depacketizer))
            }
            Codec::AmrWb => Some(CodecDepacketizer::AmrWb(AmrWbDepacketizer::new(false))),
            Codec::Tele => {
                let depacketizer = TelephoneEventDepacketizer::new(Frequency::EIGHT_KHZ);
                Some(CodecDepacketizer::Telephone(depacketizer))
            }
            Codec::Vp8 => Some(CodecDepacketizer::Vp8(Vp8Depacketizer::new())),
            Codec::Vp9 => Some(CodecDepacketizer::Vp9(Vp9Depacketizer::new())),
            Codec::Av1 => Some(CodecDepacketizer::Av1(Av1Depacketizer::new(alloc))),
            Codec::H264 => Some(CodecDepacketizer::H264(H264Depacketizer::new(alloc))),
            Codec::H265 => Some(CodecDepacketizer::H265(H265Depacketizer::new(alloc))),
            Codec::H266 => Some(CodecDepacketizer::H266(H266Depacketizer::new(alloc))),
            Codec::Rtx | Codec::Red | Codec::Null | Codec::Unknown => None,
        }
    }

    /// Applies what was negotiated; call it before the first packet. AMR-WB depends on
    /// `octet_align` (RFC 4867 8.1), H.265 and H.266 on `sprop_max_don_diff` (RFC 7798 7.1, RFC
    /// 9328 7.2), telephone events on the clock rate in ticks a second (RFC 4733 7.1.1). None means
    /// false and 0. A boxed depacketizer of the caller's isn't changed.
    pub fn configure_for(
        &mut self,
        octet_align: Option<bool>,
        sprop_max_don_diff: Option<u16>,
        clock_rate: Frequency,
    )
        ensures variant { codecs_of self.new ≡ codecs_of self.old }
        ensures format { let before = ⟦<CodecDepacketizer<B> as Depacketizer>⟧.format self.old in
            ⟦<CodecDepacketizer<B> as Depacketizer>⟧.format self.new
            ≡ format_under (settings_of octet_align sprop_max_don_diff clock_rate) before self.old }
        ensures configured { (s : Settings) (has_id : Bool) (codec : Codec) → Contains (codecs_of self.old) codec →
            ⟦<CodecDepacketizer<B> as Depacketizer>⟧.format self.old ≡ (coding_of s has_id codec).format →
            ⟦<CodecDepacketizer<B> as Depacketizer>⟧.format self.new
            ≡ (coding_of (settings_of octet_align sprop_max_don_diff clock_rate) has_id codec).format }
        ensures fragment { ⟦<CodecDepacketizer<B> as Depacketizer>⟧.fragment self.new
            ≡ ⟦<CodecDepacketizer<B> as Depacketizer>⟧.fragment self.old }
        ensures others { is_set self.old ≡ false → self.new ≡ self.old }
    {
        let aligned = octet_align.unwrap_or(false);
        let donl = sprop_max_don_diff.unwrap_or(0) > 0;
        match self {
            CodecDepacketizer::AmrWb(d) => *d = AmrWbDepacketizer::new(aligned),
            CodecDepacketizer::Telephone(d) => *d = TelephoneEventDepacketizer::new(clock_rate),
            CodecDepacketizer::H265(d) => d.with_donl(donl),
            CodecDepacketizer::H266(d) => d.with_donl(donl),
            _ => {}
        }
    }
}

impl CodecDepacketizer<NotBoxed> {
    /// How many bytes the open fragment has, with a start code that will be written before it; 0 if none is open. Only
    /// AV1, H.264, H.265 and H.266 have fragments that stay open after a unit.
    pub fn fragment_len(&self) -> usize
        ensures { result ≡ length (unwrap_or (⟦<CodecDepacketizer<NotBoxed> as Depacketizer>⟧.fragment self.now) []) }
    {
        match self {
            CodecDepacketizer::Av1(d) => d.fragment_len(),
            CodecDepacketizer::H264(d) => d.fragment_len(),
            CodecDepacketizer::H265(d) => d.fragment_len(),
            CodecDepacketizer::H266(d) => d.fragment_len(),
            _ => 0,
        }
    }
}

impl<B: Depacketizer> Depacketizer for CodecDepacketizer<B> {
    ghost use Rattle.h26x_payload.specs.declared.codec_depacketizer.CodecDepacketizer.{CodecDepacketizer};

    ghost format = { λ d. elim d [
      | CodecDepacketizer.G711 d ↦ ⟦<G711Depacketizer as Depacketizer>⟧.format d
      | CodecDepacketizer.G722 d ↦ ⟦<G711Depacketizer as Depacketizer>⟧.format d
      | CodecDepacketizer.Opus d ↦ ⟦<OpusDepacketizer as Depacketizer>⟧.format d
      | CodecDepacketizer.ComfortNoise d ↦ ⟦<ComfortNoiseDepacketizer as Depacketizer>⟧.format d
      | CodecDepacketizer.AmrWb d ↦ ⟦<AmrWbDepacketizer as Depacketizer>⟧.format d
      | CodecDepacketizer.Telephone d ↦ ⟦<TelephoneEventDepacketizer as Depacketizer>⟧.format d
      | CodecDepacketizer.Vp8 d ↦ ⟦<Vp8Depacketizer as Depacketizer>⟧.format d
      | CodecDepacketizer.Vp9 d ↦ ⟦<Vp9Depacketizer as Depacketizer>⟧.format d
      | CodecDepacketizer.Av1 d ↦ ⟦<Av1Depacketizer as Depacketizer>⟧.format d
      | CodecDepacketizer.H264 d ↦ ⟦<H264Depacketizer as Depacketizer>⟧.format d
      | CodecDepacketizer.H265 d ↦ ⟦<H265Depacketizer as Depacketizer>⟧.format d
      | CodecDepacketizer.H266 d ↦ ⟦<H266Depacketizer as Depacketizer>⟧.format d
      | CodecDepacketizer.Boxed b ↦ B.format b
    ] };

    ghost fragment = { λ d. elim d [
      | CodecDepacketizer.G711 d ↦ ⟦<G711Depacketizer as Depacketizer>⟧.fragment d
      | CodecDepacketizer.G722 d ↦ ⟦<G711Depacketizer as Depacketizer>⟧.fragment d
      | CodecDepacketizer.Opus d ↦ ⟦<OpusDepacketizer as Depacketizer>⟧.fragment d
      | CodecDepacketizer.ComfortNoise d ↦ ⟦<ComfortNoiseDepacketizer as Depacketizer>⟧.fragment d
      | CodecDepacketizer.AmrWb d ↦ ⟦<AmrWbDepacketizer as Depacketizer>⟧.fragment d
      | CodecDepacketizer.Telephone d ↦ ⟦<TelephoneEventDepacketizer as Depacketizer>⟧.fragment d
      | CodecDepacketizer.Vp8 d ↦ ⟦<Vp8Depacketizer as Depacketizer>⟧.fragment d
      | CodecDepacketizer.Vp9 d ↦ ⟦<Vp9Depacketizer as Depacketizer>⟧.fragment d
      | CodecDepacketizer.Av1 d ↦ ⟦<Av1Depacketizer as Depacketizer>⟧.fragment d
      | CodecDepacketizer.H264 d ↦ ⟦<H264Depacketizer as Depacketizer>⟧.fragment d
      | CodecDepacketizer.H265 d ↦ ⟦<H265Depacketizer as Depacketizer>⟧.fragment d
      | CodecDepacketizer.H266 d ↦ ⟦<H266Depacketizer as Depacketizer>⟧.fragment d
      | CodecDepacketizer.Boxed b ↦ B.fragment b
    ] };

    fn depacketize(
        &mut self,
        packet: &[u8],
        out: &mut Vec<u8>,
        extra: &mut CodecExtra,
    ) -> Result<(), PacketError> {
        match self {
            CodecDepacketizer::G711(d) => d.depacketize(packet, out, extra),
            CodecDepacketizer::G722(d) => d.depacketize(packet, out, extra),
            CodecDepacketizer::Opus(d) => d.depacketize(packet, out, extra),
            CodecDepacketizer::ComfortNoise(d) => d.depacketize(packet, out, extra),
            CodecDepacketizer::AmrWb(d) => d.depacketize(packet, out, extra),
            CodecDepacketizer::Telephone(d) => d.depacketize(packet, out, extra),
            CodecDepacketizer::Vp8(d) => d.depacketize(packet, out, extra),
            CodecDepacketizer::Vp9(d) => d.depacketize(packet, out, extra),
            CodecDepacketizer::Av1(d) => d.depacketize(packet, out, extra),
            CodecDepacketizer::H264(d) => d.depacketize(packet, out, extra),
            CodecDepacketizer::H265(d) => d.depacketize(packet, out, extra),
            CodecDepacketizer::H266(d) => d.depacketize(packet, out, extra),
            CodecDepacketizer::Boxed(d) => d.depacketize(packet, out, extra),
        }
    }

    fn is_plain(&self) -> bool {
        match self {
            CodecDepacketizer::G711(d) => d.is_plain(),
            CodecDepacketizer::G722(d) => d.is_plain(),
            CodecDepacketizer::Opus(d) => d.is_plain(),
            CodecDepacketizer::ComfortNoise(d) => d.is_plain(),
            _ => false,
        }
    }

    fn is_partition_head(&self, packet: &[u8]) -> bool {
        match self {
            CodecDepacketizer::G711(d) => d.is_partition_head(packet),
            CodecDepacketizer::G722(d) => d.is_partition_head(packet),
            CodecDepacketizer::Opus(d) => d.is_partition_head(packet),
            CodecDepacketizer::ComfortNoise(d) => d.is_partition_head(packet),
            CodecDepacketizer::AmrWb(d) => d.is_partition_head(packet),
            CodecDepacketizer::Telephone(d) => d.is_partition_head(packet),
            CodecDepacketizer::Vp8(d) => d.is_partition_head(packet),
            CodecDepacketizer::Vp9(d) => d.is_partition_head(packet),
            CodecDepacketizer::Av1(d) => d.is_partition_head(packet),
            CodecDepacketizer::H264(d) => d.is_partition_head(packet),
            CodecDepacketizer::H265(d) => d.is_partition_head(packet),
            CodecDepacketizer::H266(d) => d.is_partition_head(packet),
            CodecDepacketizer::Boxed(d) => d.is_partition_head(packet),
        }
    }

    fn is_partition_tail(&self, marker: bool, packet: &[u8]) -> bool {
        match self {
            CodecDepacketizer::G711(d) => d.is_partition_tail(marker, packet),
            CodecDepacketizer::G722(d) => d.is_partition_tail(marker, packet),
            CodecDepacketizer::Opus(d) => d.is_partition_tail(marker, packet),
            CodecDepacketizer::ComfortNoise(d) => d.is_partition_tail(marker, packet),
            CodecDepacketizer::AmrWb(d) => d.is_partition_tail(marker, packet),
            CodecDepacketizer::Telephone(d) => d.is_partition_tail(marker, packet),
            CodecDepacketizer::Vp8(d) => d.is_partition_tail(marker, packet),
            CodecDepacketizer::Vp9(d) => d.is_partition_tail(marker, packet),
            CodecDepacketizer::Av1(d) => d.is_partition_tail(marker, packet),
            CodecDepacketizer::H264(d) => d.is_partition_tail(marker, packet),
            CodecDepacketizer::H265(d) => d.is_partition_tail(marker, packet),
            CodecDepacketizer::H266(d) => d.is_partition_tail(marker, packet),
            CodecDepacketizer::Boxed(d) => d.is_partition_tail(marker, packet),
        }
    }
}
