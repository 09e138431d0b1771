//! Reading H.264 payloads (RFC 6184 5.6, 5.7.1 and 5.8).

ghost use Rattle.h26x_payload_units.specs.Reading.{Adds};
ghost use Rattle.h26x_payload_formats.specs.H264Reading.{given, given_by, given_fragment, h264_format, is_of_type};
ghost use Rattle.h26x_payload_formats.specs.H264Reading.{shows_type, starts_type, was_keyframe};
ghost use Rattle.h26x_payload_formats.specs.StapA.{refusal_of, stap_a_fault};
ghost use Rattle.h26x_payload_units.specs.Aggregates.{aggregated, sized};
ghost use Rattle.std.specs.List.{flat_map, list_any};
ghost use Rattle.std.specs.Prelude.{◌≡◌, ◌≢◌, [], Err, IfErr, None, OnErr, OnOk, length, unwrap_or};

use crate::h264_constants::{IDR_NALU_TYPE, STAPA_NALU_LENGTH_SIZE};
use crate::headers::{begun_header, kind_of, type_of};
use h26x_payload_units::{
    AggregateFault, OpenUnit, PacketKind, aggregate_fault, aggregated_units, first_aggregated,
    has_end, has_start, push_unit,
};
use payload_core_base::{CodecExtra, Depacketizer, H264CodecExtra, PacketError};
use std::alloc::Global;

/// Hands out the NAL units of H.264 packets, each preceded by a four-byte start code (RFC 6184 5.6,
/// 5.7.1 and 5.8; ITU-T H.264 annex B).
pub struct H264Depacketizer {
    alloc: Global,
    unit: OpenUnit,
}

/// Written by hand, so that crates that drop this type need no proof about its fields.
impl Drop for H264Depacketizer {
    fn drop(self) {
        let H264Depacketizer {
            alloc: _alloc,
            unit: _unit,
        } = self;
    }
}

/// How many bytes the whole units of an aggregate take, each with its size.
fn sized_len(body: &[u8]) -> usize
    ensures { result ≡ length (flat_map sized (aggregated 0 0 body.now).units) }
{
    let mut len = 0;
    let mut rest = body;
    while !rest.is_empty() {
        let Ok((unit, behind)) = first_aggregated(0, rest) else {
            return len;
        };
        len += STAPA_NALU_LENGTH_SIZE + unit.len();
        rest = behind;
    }
    len
}

/// The error for a fault of an aggregation packet, given the bytes after its whole units.
fn refusal_of(fault: AggregateFault, behind: &[u8]) -> PacketError
    ensures { result ≡ refusal_of fault behind.now }
{
    match fault {
        AggregateFault::CutShort => PacketError::ErrShortPacket,
        AggregateFault::PastEnd => match behind {
            [high, low, rest @ ..] => {
                let size = *high as usize * 256 + *low as usize;
                PacketError::StapASizeLargerThanBuffer(size, rest.len())
            }
            _ => PacketError::ErrShortPacket,
        },
    }
}

/// What is wrong with an aggregate after its whole units, if anything.
fn stap_a_fault(body: &[u8]) -> Option<PacketError>
    ensures { result ≡ stap_a_fault body.now }
{
    let Some(fault) = aggregate_fault(0, 0, body) else {
        return None;
    };
    let (_, behind) = body.split_at(sized_len(body));
    Some(refusal_of(fault, behind))
}

/// Whether a unit is of this type.
fn is_of_type(nalu_type: u8, unit: &[u8]) -> bool
    ensures { result ≡ is_of_type nalu_type unit.now }
{
    match unit.first() {
        Some(header) => type_of(*header) == nalu_type,
        None => false,
    }
}

/// Whether an aggregate holds a unit of this type.
fn holds_type(nalu_type: u8, body: &[u8]) -> bool
    ensures { result ≡ list_any (is_of_type nalu_type) (aggregated 0 0 body.now).units }
{
    let mut rest = body;
    while !rest.is_empty() {
        let Ok((unit, behind)) = first_aggregated(0, rest) else {
            return false;
        };
        if is_of_type(nalu_type, unit) {
            return true;
        }
        rest = behind;
    }
    false
}

/// Whether a fragment's FU header has S and this type.
fn starts_type(nalu_type: u8, body: &[u8]) -> bool
    ensures { result ≡ starts_type nalu_type body.now }
{
    match body.first() {
        Some(fu) => has_start(*fu) && type_of(*fu) == nalu_type,
        None => false,
    }
}

/// Whether a packet shows a NAL unit of this type (RFC 6184 5.2): it is one, aggregates one before
/// any fault, or is the first fragment of one.
pub fn detect_h264_nalu(packet: &[u8], nalu_type: u8) -> bool
    ensures { result ≡ shows_type nalu_type packet.now }
{
    let Some((first, body)) = packet.split_first() else {
        return false;
    };
    match kind_of(*first) {
        PacketKind::Single => type_of(*first) == nalu_type,
        PacketKind::Aggregate => holds_type(nalu_type, body),
        PacketKind::Fragment => starts_type(nalu_type, body),
        PacketKind::Unhandled => false,
    }
}

/// Whether a packet shows a slice of an IDR picture, type 5.
pub fn detect_h264_keyframe(packet: &[u8]) -> bool
    ensures { result ≡ shows_type 5 packet.now }
{
    detect_h264_nalu(packet, IDR_NALU_TYPE)
}

/// Whether a packet of the unit showed an IDR picture.
fn was_keyframe(extra: &CodecExtra) -> bool
    ensures { result ≡ was_keyframe extra.now }
{
    match extra {
        CodecExtra::H264(extra) => extra.is_keyframe,
        _ => false,
    }
}

impl H264Depacketizer {
    /// A depacketizer with no open fragment; it allocates from `alloc`.
    pub fn new(alloc: Global) -> Self
        ensures { result.unit ≡ None }
    {
        H264Depacketizer {
            alloc,
            unit: OpenUnit::new(alloc),
        }
    }

    /// How many bytes the open fragment has, with its start code; 0 if none is open.
    pub fn fragment_len(&self) -> usize
        ensures { result ≡ length (unwrap_or self.now.unit []) }
    {
        self.unit.len()
    }

    /// What a packet gives.
    fn give(&mut self, packet: &[u8], out: &mut Vec<u8>) -> Result<(), PacketError>
        ensures given { let given = given self.old.unit packet.now in
            OnOk result (Adds given out.old.items out.new.items self.new.unit) }
        ensures refused { let given = given self.old.unit packet.now in
            IfErr result (λ e. e ≢ PacketError.Memory → given ≡ Err e) }
        ensures unchanged { OnErr result ((self.new.unit ≡ self.old.unit) × (out.new.items ≡ out.old.items)) }
    {
        let Some((first, body)) = packet.split_first() else {
            return Err(PacketError::ErrShortPacket);
        };
        match kind_of(*first) {
            PacketKind::Single => Ok(push_unit(packet, out)?),
            PacketKind::Aggregate => self.give_units(body, out),
            PacketKind::Fragment => self.give_fragment(*first, body, out),
            PacketKind::Unhandled => Err(PacketError::NaluTypeIsNotHandled(type_of(*first))),
        }
    }

    /// What an aggregate gives.
    fn give_units(&mut self, body: &[u8], out: &mut Vec<u8>) -> Result<(), PacketError>
        ensures given { let given = given_by PacketKind.Aggregate self.old.unit 0 body.now in
            OnOk result (Adds given out.old.items out.new.items self.new.unit) }
        ensures refused { let given = given_by PacketKind.Aggregate self.old.unit 0 body.now in
            IfErr result (λ e. e ≢ PacketError.Memory → given ≡ Err e) }
        ensures unchanged { OnErr result ((self.new.unit ≡ self.old.unit) × (out.new.items ≡ out.old.items)) }
    {
        if let Some(fault) = stap_a_fault(body) {
            return Err(fault);
        }
        let units = aggregated_units(self.alloc, 0, 0, body)?;
        out.extend_from_slice(&units)?;
        Ok(())
    }

    /// What a fragment gives.
    fn give_fragment(
        &mut self,
        first: u8,
        body: &[u8],
        out: &mut Vec<u8>,
    ) -> Result<(), PacketError>
        ensures given { let given = given_fragment self.old.unit first body.now in
            OnOk result (Adds given out.old.items out.new.items self.new.unit) }
        ensures refused { let given = given_fragment self.old.unit first body.now in
            IfErr result (λ e. e ≢ PacketError.Memory → given ≡ Err e) }
        ensures unchanged { OnErr result ((self.new.unit ≡ self.old.unit) × (out.new.items ≡ out.old.items)) }
    {
        let Some((fu, body)) = body.split_first() else {
            return Err(PacketError::ErrShortPacket);
        };
        let header = [begun_header(first, *fu)];
        self.unit
            .put(has_start(*fu), has_end(*fu), &header, body, out)?;
        Ok(())
    }
}

impl Depacketizer for H264Depacketizer {
    ghost format = { λ _. h264_format };

    ghost fragment = { λ d. d.unit };

    fn depacketize(
        &mut self,
        packet: &[u8],
        out: &mut Vec<u8>,
        extra: &mut CodecExtra,
    ) -> Result<(), PacketError> {
        let is_keyframe = was_keyframe(extra) || detect_h264_keyframe(packet);
        match self.give(packet, out) {
            Ok(()) => {}
            Err(e) => return Err(e),
        }
        *extra = CodecExtra::H264(H264CodecExtra { is_keyframe });
        Ok(())
    }

    fn is_partition_head(&self, packet: &[u8]) -> bool {
        let Some((first, body)) = packet.split_first() else {
            return true;
        };
        kind_of(*first).is_head(body)
    }

    fn is_partition_tail(&self, marker: bool, _packet: &[u8]) -> bool {
        marker
    }
}
