//! Sending H.265 and H.266 payloads (RFC 7798 4.4, RFC 9328 4.3).

ghost use Rattle.h26x_payload_formats.specs.Packing.{h265_h266_packing};
ghost use Rattle.std.specs.Prelude.{[], ◌∷◌, ◌≡◌, IfErr, IfOk, None, false, option_map};

use crate::codecs::H265OrH266;
use crate::layout_constants::{FRAGMENT_HEADER_SIZE, MAX_PACKET_SIZE};
use crate::packets::Form;
use crate::sender::{Kept, push_units};
use h26x_payload_units::{copy_of_set, set_of};
use payload_core_base::{PacketError, Packetizer};
use std::alloc::Global;

/// Cuts access units of H.265 and H.266 into packets: single units, aggregates of the parameter sets, fragments
/// (RFC 7798 4.4, RFC 9328 4.3). No packet is longer than 1,200 bytes.
///
/// A sample is an access unit as a byte stream: NAL units after start codes (ITU-T H.265 annex B, H.266 annex B), not
/// after their lengths. Without a start code it is a single unit.
///
/// Access unit delimiters and filler data are not sent. The latest VPS, the latest SPS and the latest PPS wait for
/// the next other unit. They leave before it, once an SPS and a PPS are there, and of H.265 a VPS too, in one
/// aggregate, of H.266 with the VPS if one waits; if that passes the limit, or one is longer than 65,535 bytes,
/// they are dropped. A unit that passes the limit leaves in fragments that fill it; below limit 4, or 6 with decoding
/// order numbers, it is dropped. A unit of at most two bytes leaves as it is.
#[derive(Debug)]
pub struct H265OrH266Packetizer<L: H265OrH266> {
    codec: L,
    donl: bool,
    // The decoding order number of the next unit.
    number: u16,
    vps: Option<Vec<u8>>,
    sps: Option<Vec<u8>>,
    pps: Option<Vec<u8>>,
}

/// Written by hand, so that crates that drop this type need no proof about its fields.
impl<L: H265OrH266> Drop for H265OrH266Packetizer<L> {
    fn drop(self) {
        let H265OrH266Packetizer {
            codec: _codec,
            donl: _donl,
            number: _number,
            vps: _vps,
            sps: _sps,
            pps: _pps,
        } = self;
    }
}

impl<L: H265OrH266> H265OrH266Packetizer<L> {
    /// A packetizer that holds back no parameter set and sends no decoding order numbers.
    pub fn new() -> Self
        ensures donl { result.donl ≡ false }
        ensures number { result.number ≡ 0 }
        ensures vps { option_map (λ v. v.items) result.vps ≡ None }
        ensures sps { option_map (λ v. v.items) result.sps ≡ None }
        ensures pps { option_map (λ v. v.items) result.pps ≡ None }
    {
        H265OrH266Packetizer {
            codec: L::new(),
            donl: false,
            number: 0,
            vps: None,
            sps: None,
            pps: None,
        }
    }

    /// Sets whether decoding order numbers are sent from now on, as `sprop-max-don-diff` above 0
    /// requires (RFC 7798 7.1, RFC 9328 7.2). The next NAL unit sent has number 0, each later one
    /// the next number, modulo 65,536.
    pub fn with_donl(&mut self, value: bool)
        ensures donl { self.new.donl ≡ value }
        ensures number { self.new.number ≡ 0 }
        ensures vps { option_map (λ v. v.items) self.new.vps ≡ option_map (λ v. v.items) self.old.vps }
        ensures sps { option_map (λ v. v.items) self.new.sps ≡ option_map (λ v. v.items) self.old.sps }
        ensures pps { option_map (λ v. v.items) self.new.pps ≡ option_map (λ v. v.items) self.old.pps }
    {
        self.donl = value;
        self.number = 0;
    }
}

impl<L: H265OrH266> Packetizer for H265OrH266Packetizer<L> {
    ghost packing = { λ p. h265_h266_packing L.layout p.donl };

    ghost sender = { λ p. record {
      number = p.number;
      waiting =
          option_map (λ v. v.items) p.vps ∷ option_map (λ v. v.items) p.sps ∷ option_map (λ v. v.items) p.pps ∷ [];
    } };

    fn packetize_with_prefix(
        &mut self,
        alloc: Global,
        prefix: &[u8],
        mtu: usize,
        bytes: &[u8],
    ) -> Result<Vec<Vec<u8>>, PacketError> {
        let form = Form {
            alloc,
            layout: self.codec.layout(),
            donl: self.donl,
            limit: mtu.min(MAX_PACKET_SIZE),
        };
        let kept = Kept {
            number: self.number,
            vps: set_of(&self.vps),
            sps: set_of(&self.sps),
            pps: set_of(&self.pps),
        };
        let room = bytes.len() / form.limit.max(FRAGMENT_HEADER_SIZE + 1) + 1;
        let mut packets = Vec::with_capacity(alloc, room)?;
        let kept = push_units(form, prefix, bytes, kept, &mut packets)?;
        let number = kept.number;
        let vps = copy_of_set(alloc, kept.vps)?;
        let sps = copy_of_set(alloc, kept.sps)?;
        let pps = copy_of_set(alloc, kept.pps)?;
        self.number = number;
        self.vps = vps;
        self.sps = sps;
        self.pps = pps;
        Ok(packets)
    }

    fn is_marker(&mut self, _bytes: &[u8], _previous: Option<&[u8]>, last: bool) -> bool {
        last
    }
}
