//! One packetizer over all codecs.

ghost use Rattle.h26x_payload.specs.Codings.{Settings, coding_of, first_sender, first_settings, has_format};
ghost use Rattle.h26x_payload.specs.Codings.{Forms, coding_in, settings_of, with_prediction, with_zero_id};
ghost use Rattle.std.specs.Prelude.{◌≡◌, ◌<◌, Bool, Contains, IfSome, false, is_some, unwrap_or};

use h26x_payload_formats::{H264Packetizer, H265Packetizer, H266Packetizer};
use media_types::Codec;
use payload_core_audio::{
    AmrWbPacketizer, ComfortNoisePacketizer, G711Packetizer, G722Packetizer, OpusPacketizer,
    TelephoneEventPacketizer,
};
use payload_core_av1::Av1Packetizer;
use payload_core_base::{PacketError, Packetizer};
use payload_core_vpx::{Vp8Packetizer, Vp9Packetizer};
use rtp_wire::Frequency;
use std::alloc::Global;

/// The packetizer of a codec, or another one: by default a boxed one of the caller's.
pub enum CodecPacketizer<B = Box<dyn Packetizer + Drop>> {
    /// Of PCMU and PCMA.
    G711(G711Packetizer),
    /// Of G.722.
    G722(G722Packetizer),
    /// Of Opus.
    Opus(OpusPacketizer),
    /// Of comfort noise.
    ComfortNoise(ComfortNoisePacketizer),
    /// Of AMR-WB.
    AmrWb(AmrWbPacketizer),
    /// Of telephone events.
    Telephone(TelephoneEventPacketizer),
    /// Of VP8.
    Vp8(Vp8Packetizer),
    /// Of VP9.
    Vp9(Vp9Packetizer),
    /// Of AV1.
    Av1(Av1Packetizer),
    /// Of H.264.
    H264(H264Packetizer),
    /// Of H.265.
    H265(H265Packetizer),
    /// Of H.266.
    H266(H266Packetizer),
    /// Another one.
    Boxed(B),
}

/// Written by hand, so that crates that drop this type need no proof about its fields.
impl<B: Drop> Drop for CodecPacketizer<B> {
    fn drop(self) {
        match self {
            CodecPacketizer::G711(_inner) => {}
            CodecPacketizer::G722(_inner) => {}
            CodecPacketizer::Opus(_inner) => {}
            CodecPacketizer::ComfortNoise(_inner) => {}
            CodecPacketizer::AmrWb(_inner) => {}
            CodecPacketizer::Telephone(_inner) => {}
            CodecPacketizer::Vp8(_inner) => {}
            CodecPacketizer::Vp9(_inner) => {}
            CodecPacketizer::Av1(_inner) => {}
            CodecPacketizer::H264(_inner) => {}
            CodecPacketizer::H265(_inner) => {}
            CodecPacketizer::H266(_inner) => {}
            CodecPacketizer::Boxed(_inner) => {}
        }
    }
}

impl<B: Packetizer> CodecPacketizer<B> {
    ghost use Rattle.h26x_payload.specs.Packetizers.{codecs_of, is_set, packing_under, packing_with_prediction};
    ghost use Rattle.h26x_payload.specs.Packetizers.{packing_with_zero_id, sender_under};

    /// The packetizer of a codec, without picture ids in VP8 and from picture id 0 on in VP9; None for Rtx, Red, Null
    /// and Unknown.
    ///
    /// AMR-WB is sent in the bandwidth-efficient layout, and H.265 and H.266 without decoding order numbers, until
    /// `configure_for` says otherwise.
    pub fn new(codec: Codec) -> Option<Self>
        ensures some { is_some result ≡ has_format codec }
        ensures variant { IfSome result (λ p. Contains (codecs_of p) codec) }
        ensures packing { IfSome result (λ p. ⟦<CodecPacketizer<B> as Packetizer>⟧.packing p
            ≡ (coding_of first_settings false codec).packing) }
        ensures sender { IfSome result (λ p. ⟦<CodecPacketizer<B> as Packetizer>⟧.sender p ≡ first_sender 0 codec) }
    {
        Self::with_picture_id(codec, None)
    }

    /// The same, with picture ids from this one on in VP8 and VP9.
    ///
    /// # Conditions
    /// The picture id, if there is one, has 15 bits: it is below 32,768.
    pub fn with_picture_id(codec: Codec, picture_id: Option<u16>) -> Option<Self>
        requires { unwrap_or picture_id 0 < 32768 }
        ensures some { is_some result ≡ has_format codec }
        ensures variant { IfSome result (λ p. Contains (codecs_of p) codec) }
        ensures packing { IfSome result (λ p. ⟦<CodecPacketizer<B> as Packetizer>⟧.packing p
            ≡ (coding_of first_settings (is_some picture_id) codec).packing) }
        ensures sender { IfSome result (λ p. ⟦<CodecPacketizer<B> as Packetizer>⟧.sender p
            ≡ first_sender (unwrap_or picture_id 0) codec) }
    {
        match codec {
            Codec::PCMU | Codec::PCMA => Some(CodecPacketizer::G711(G711Packetizer::new())),
            Codec::G722 => Some(CodecPacketizer::G722(G722Packetizer::new())),
            Codec::Opus => Some(CodecPacketizer::Opus(OpusPacketizer::new())),
            Codec::CN => Some(CodecPacketizer::ComfortNoise(ComfortNoisePacketizer::new())),
            Codec::AmrWb => Some(CodecPacketizer::AmrWb(AmrWbPacketizer::new(false))),
            Codec::Tele => Some(CodecPacketizer::Telephone(TelephoneEventPacketizer::new())),
            Codec::Vp8 => {
                let packetizer = Vp8Packetizer::with_picture_id(picture_id);
                Some(CodecPacketizer::Vp8(packetizer))
            }
            Codec::Vp9 => {
                let packetizer = Vp9Packetizer::with_picture_id(picture_id.unwrap_or(0));
                Some(CodecPacketizer::Vp9(packetizer))
            }
            Codec::Av1 => Some(CodecPacketizer::Av1(Av1Packetizer::new())),
            Codec::H264 => Some(CodecPacketizer::H264(H264Packetizer::new())),
            Codec::H265 => Some(CodecPacketizer::H265(H265Packetizer::new())),
            Codec::H266 => Some(CodecPacketizer::H266(H266Packetizer::new())),
            Codec::Rtx | Codec::Red | Codec::Null | Codec::Unknown => None,
        }
    }

    /// Applies what was negotiated; call it before the first sample. AMR-WB depends on
    /// `octet_align` (RFC 4867 8.1), H.265 and H.266 on `sprop_max_don_diff` (RFC 7798 7.1, RFC
    /// 9328 7.2); their decoding order numbers then start at 0. None means false and 0. The clock
    /// rate affects no packetizer, and a boxed packetizer of the caller's isn't changed.
    pub fn configure_for(
        &mut self,
        octet_align: Option<bool>,
        sprop_max_don_diff: Option<u16>,
        clock_rate: Frequency,
    )
        ensures variant { codecs_of self.new ≡ codecs_of self.old }
        ensures packing { let before = ⟦<CodecPacketizer<B> as Packetizer>⟧.packing self.old in
            ⟦<CodecPacketizer<B> as Packetizer>⟧.packing self.new
            ≡ packing_under (settings_of octet_align sprop_max_don_diff clock_rate) before self.old }
        ensures configured { (s : Settings) (has_id : Bool) (codec : Codec) → Contains (codecs_of self.old) codec →
            ⟦<CodecPacketizer<B> as Packetizer>⟧.packing self.old ≡ (coding_of s has_id codec).packing →
            ⟦<CodecPacketizer<B> as Packetizer>⟧.packing self.new
            ≡ (coding_of (settings_of octet_align sprop_max_don_diff clock_rate) has_id codec).packing }
        ensures sender { let before = ⟦<CodecPacketizer<B> as Packetizer>⟧.sender self.old in
            ⟦<CodecPacketizer<B> as Packetizer>⟧.sender self.new ≡ sender_under before self.old }
        ensures others { is_set self.old ≡ false → self.new ≡ self.old }
    {
        let aligned = octet_align.unwrap_or(false);
        let donl = sprop_max_don_diff.unwrap_or(0) > 0;
        match self {
            CodecPacketizer::AmrWb(p) => *p = AmrWbPacketizer::new(aligned),
            CodecPacketizer::H265(p) => p.with_donl(donl),
            CodecPacketizer::H266(p) => p.with_donl(donl),
            _ => {}
        }
    }

    /// The same packetizer, but VP8's picture id 0 is written like any other; other codecs'
    /// packetizers don't change.
    pub fn with_zero_id(self) -> Self
        ensures variant { codecs_of result ≡ codecs_of self }
        ensures packing { let before = ⟦<CodecPacketizer<B> as Packetizer>⟧.packing self in
            ⟦<CodecPacketizer<B> as Packetizer>⟧.packing result ≡ packing_with_zero_id before self }
        ensures in_form { (f : Forms) (s : Settings) (has_id : Bool) (codec : Codec) → Contains (codecs_of self) codec →
            ⟦<CodecPacketizer<B> as Packetizer>⟧.packing self ≡ (coding_in f s has_id codec).packing →
            ⟦<CodecPacketizer<B> as Packetizer>⟧.packing result ≡ (coding_in (with_zero_id f) s has_id codec).packing }
        ensures sender { ⟦<CodecPacketizer<B> as Packetizer>⟧.sender result
            ≡ ⟦<CodecPacketizer<B> as Packetizer>⟧.sender self }
    {
        match self {
            CodecPacketizer::Vp8(p) => CodecPacketizer::Vp8(p.with_zero_id()),
            other => other,
        }
    }

    /// The same packetizer, but VP9 packets say whether their frame is predicted; other codecs'
    /// packetizers don't change.
    pub fn with_prediction(self) -> Self
        ensures variant { codecs_of result ≡ codecs_of self }
        ensures packing { let before = ⟦<CodecPacketizer<B> as Packetizer>⟧.packing self in
            ⟦<CodecPacketizer<B> as Packetizer>⟧.packing result ≡ packing_with_prediction before self }
        ensures in_form { (f : Forms) (s : Settings) (has_id : Bool) (codec : Codec) → Contains (codecs_of self) codec →
            ⟦<CodecPacketizer<B> as Packetizer>⟧.packing self ≡ (coding_in f s has_id codec).packing →
            ⟦<CodecPacketizer<B> as Packetizer>⟧.packing result
            ≡ (coding_in (with_prediction f) s has_id codec).packing }
        ensures sender { ⟦<CodecPacketizer<B> as Packetizer>⟧.sender result
            ≡ ⟦<CodecPacketizer<B> as Packetizer>⟧.sender self }
    {
        match self {
            CodecPacketizer::Vp9(p) => CodecPacketizer::Vp9(p.with_prediction()),
            other => other,
        }
    }
}

impl<B: Packetizer> Packetizer for CodecPacketizer<B> {
    ghost use Rattle.h26x_payload.specs.declared.codec_packetizer.CodecPacketizer.{CodecPacketizer};

    ghost packing = { λ d. elim d [
      | CodecPacketizer.G711 p ↦ ⟦<G711Packetizer as Packetizer>⟧.packing p
      | CodecPacketizer.G722 p ↦ ⟦<G722Packetizer as Packetizer>⟧.packing p
      | CodecPacketizer.Opus p ↦ ⟦<OpusPacketizer as Packetizer>⟧.packing p
      | CodecPacketizer.ComfortNoise p ↦ ⟦<ComfortNoisePacketizer as Packetizer>⟧.packing p
      | CodecPacketizer.AmrWb p ↦ ⟦<AmrWbPacketizer as Packetizer>⟧.packing p
      | CodecPacketizer.Telephone p ↦ ⟦<TelephoneEventPacketizer as Packetizer>⟧.packing p
      | CodecPacketizer.Vp8 p ↦ ⟦<Vp8Packetizer as Packetizer>⟧.packing p
      | CodecPacketizer.Vp9 p ↦ ⟦<Vp9Packetizer as Packetizer>⟧.packing p
      | CodecPacketizer.Av1 p ↦ ⟦<Av1Packetizer as Packetizer>⟧.packing p
      | CodecPacketizer.H264 p ↦ ⟦<H264Packetizer as Packetizer>⟧.packing p
      | CodecPacketizer.H265 p ↦ ⟦<H265Packetizer as Packetizer>⟧.packing p
      | CodecPacketizer.H266 p ↦ ⟦<H266Packetizer as Packetizer>⟧.packing p
      | CodecPacketizer.Boxed b ↦ B.packing b
    ] };

    ghost sender = { λ d. elim d [
      | CodecPacketizer.G711 p ↦ ⟦<G711Packetizer as Packetizer>⟧.sender p
      | CodecPacketizer.G722 p ↦ ⟦<G722Packetizer as Packetizer>⟧.sender p
      | CodecPacketizer.Opus p ↦ ⟦<OpusPacketizer as Packetizer>⟧.sender p
      | CodecPacketizer.ComfortNoise p ↦ ⟦<ComfortNoisePacketizer as Packetizer>⟧.sender p
      | CodecPacketizer.AmrWb p ↦ ⟦<AmrWbPacketizer as Packetizer>⟧.sender p
      | CodecPacketizer.Telephone p ↦ ⟦<TelephoneEventPacketizer as Packetizer>⟧.sender p
      | CodecPacketizer.Vp8 p ↦ ⟦<Vp8Packetizer as Packetizer>⟧.sender p
      | CodecPacketizer.Vp9 p ↦ ⟦<Vp9Packetizer as Packetizer>⟧.sender p
      | CodecPacketizer.Av1 p ↦ ⟦<Av1Packetizer as Packetizer>⟧.sender p
      | CodecPacketizer.H264 p ↦ ⟦<H264Packetizer as Packetizer>⟧.sender p
      | CodecPacketizer.H265 p ↦ ⟦<H265Packetizer as Packetizer>⟧.sender p
      | CodecPacketizer.H266 p ↦ ⟦<H266Packetizer as Packetizer>⟧.sender p
      | CodecPacketizer.Boxed b ↦ B.sender b
    ] };

    fn packetize_with_prefix(
        &mut self,
        alloc: Global,
        prefix: &[u8],
        mtu: usize,
        bytes: &[u8],
    ) -> Result<Vec<Vec<u8>>, PacketError> {
        match self {
            CodecPacketizer::G711(p) => p.packetize_with_prefix(alloc, prefix, mtu, bytes),
            CodecPacketizer::G722(p) => p.packetize_with_prefix(alloc, prefix, mtu, bytes),
            CodecPacketizer::Opus(p) => p.packetize_with_prefix(alloc, prefix, mtu, bytes),
            CodecPacketizer::ComfortNoise(p) => p.packetize_with_prefix(alloc, prefix, mtu, bytes),
            CodecPacketizer::AmrWb(p) => p.packetize_with_prefix(alloc, prefix, mtu, bytes),
            CodecPacketizer::Telephone(p) => p.packetize_with_prefix(alloc, prefix, mtu, bytes),
            CodecPacketizer::Vp8(p) => p.packetize_with_prefix(alloc, prefix, mtu, bytes),
            CodecPacketizer::Vp9(p) => p.packetize_with_prefix(alloc, prefix, mtu, bytes),
            CodecPacketizer::Av1(p) => p.packetize_with_prefix(alloc, prefix, mtu, bytes),
            CodecPacketizer::H264(p) => p.packetize_with_prefix(alloc, prefix, mtu, bytes),
            CodecPacketizer::H265(p) => p.packetize_with_prefix(alloc, prefix, mtu, bytes),
            CodecPacketizer::H266(p) => p.packetize_with_prefix(alloc, prefix, mtu, bytes),
            CodecPacketizer::Boxed(p) => p.packetize_with_prefix(alloc, prefix, mtu, bytes),
        }
    }

    fn is_marker(&mut self, bytes: &[u8], previous: Option<&[u8]>, last: bool) -> bool {
        match self {
            CodecPacketizer::G711(p) => p.is_marker(bytes, previous, last),
            CodecPacketizer::G722(p) => p.is_marker(bytes, previous, last),
            CodecPacketizer::Opus(p) => p.is_marker(bytes, previous, last),
            CodecPacketizer::ComfortNoise(p) => p.is_marker(bytes, previous, last),
            CodecPacketizer::AmrWb(p) => p.is_marker(bytes, previous, last),
            CodecPacketizer::Telephone(p) => p.is_marker(bytes, previous, last),
            CodecPacketizer::Vp8(p) => p.is_marker(bytes, previous, last),
            CodecPacketizer::Vp9(p) => p.is_marker(bytes, previous, last),
            CodecPacketizer::Av1(p) => p.is_marker(bytes, previous, last),
            CodecPacketizer::H264(p) => p.is_marker(bytes, previous, last),
            CodecPacketizer::H265(p) => p.is_marker(bytes, previous, last),
            CodecPacketizer::H266(p) => p.is_marker(bytes, previous, last),
            CodecPacketizer::Boxed(p) => p.is_marker(bytes, previous, last),
        }
    }

    fn is_own_payload(&self, mtu: usize, bytes: &[u8]) -> bool {
        match self {
            CodecPacketizer::G711(p) => p.is_own_payload(mtu, bytes),
            CodecPacketizer::G722(p) => p.is_own_payload(mtu, bytes),
            CodecPacketizer::Opus(p) => p.is_own_payload(mtu, bytes),
            CodecPacketizer::ComfortNoise(p) => p.is_own_payload(mtu, bytes),
            CodecPacketizer::AmrWb(p) => p.is_own_payload(mtu, bytes),
            CodecPacketizer::Telephone(p) => p.is_own_payload(mtu, bytes),
            CodecPacketizer::Vp8(p) => p.is_own_payload(mtu, bytes),
            CodecPacketizer::Vp9(p) => p.is_own_payload(mtu, bytes),
            CodecPacketizer::Av1(p) => p.is_own_payload(mtu, bytes),
            CodecPacketizer::H264(p) => p.is_own_payload(mtu, bytes),
            CodecPacketizer::H265(p) => p.is_own_payload(mtu, bytes),
            CodecPacketizer::H266(p) => p.is_own_payload(mtu, bytes),
            CodecPacketizer::Boxed(p) => p.is_own_payload(mtu, bytes),
        }
    }
}
