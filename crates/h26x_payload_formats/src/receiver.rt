//! Reading H.265 and H.266 payloads (RFC 7798 4.4, RFC 9328 4.3).

ghost use Rattle.h26x_payload_units.specs.Reading.{Adds, begins_by};
ghost use Rattle.h26x_payload_formats.specs.Reading.{aggregated_in, corrupted, extra_of, given};
ghost use Rattle.h26x_payload_formats.specs.Reading.{given_by, given_fragment, is_cut_short, h265_h266_format};
ghost use Rattle.h26x_payload_formats.specs.Reading.{shows_irap, was_keyframe};
ghost use Rattle.std.specs.Prelude.{◌≡◌, ◌≢◌, [], Err, IfErr, None, OnErr, OnOk, false, length, unwrap_or};

use crate::codecs::H265OrH266;
use crate::keyframes::shows_irap;
use h26x_payload_units::{
    AggregateFault, Layout, OpenUnit, PacketKind, aggregate_fault, aggregated_units, donl_size,
    has_end, has_f, has_start, push_unit_of,
};
use payload_core_base::{CodecExtra, Depacketizer, H265CodecExtra, H266CodecExtra, PacketError};
use std::alloc::Global;

/// Hands out the NAL units of H.265 and H.266 packets, each preceded by a four-byte start code (RFC
/// 7798 4.4, RFC 9328 4.3; annex B of ITU-T H.265 and H.266).
pub struct H265OrH266Depacketizer<L: H265OrH266> {
    codec: L,
    alloc: Global,
    donl: bool,
    unit: OpenUnit,
}

/// Written by hand, so that crates that drop this type need no proof about its fields.
impl<L: H265OrH266> Drop for H265OrH266Depacketizer<L> {
    fn drop(self) {
        let H265OrH266Depacketizer {
            codec: _codec,
            alloc: _alloc,
            donl: _donl,
            unit: _unit,
        } = self;
    }
}

/// Whether a packet is cut short after its header.
fn is_cut_short(layout: Layout, donl: bool, kind: PacketKind, body: &[u8]) -> bool
    ensures { result ≡ is_cut_short layout donl kind body.now }
{
    match kind {
        PacketKind::Single => body.len() <= donl_size(donl),
        PacketKind::Aggregate => ends_short(layout, donl, body),
        PacketKind::Fragment => match body.split_first() {
            Some((fu, part)) => part.len() < donl_size(has_start(*fu) && donl),
            None => true,
        },
        PacketKind::Unhandled => false,
    }
}

/// Whether an aggregation packet ends within a size field.
fn ends_short(layout: Layout, donl: bool, body: &[u8]) -> bool
    ensures { result ≡ is_cut_short layout donl PacketKind.Aggregate body.now }
{
    match aggregate_fault(donl_size(donl), layout.dond_size(donl), body) {
        Some(AggregateFault::CutShort) => true,
        Some(AggregateFault::PastEnd) => false,
        None => false,
    }
}

/// The error for a corrupted packet.
fn corrupted(layout: Layout) -> PacketError
    ensures { result ≡ corrupted layout }
{
    match layout {
        Layout::H265 => PacketError::ErrH265CorruptedPacket,
        Layout::H266 => PacketError::ErrH266CorruptedPacket,
    }
}

/// Whether a packet of the unit showed a random access picture.
fn was_keyframe(layout: Layout, extra: &CodecExtra) -> bool
    ensures { result ≡ was_keyframe layout extra.now }
{
    match (layout, extra) {
        (Layout::H265, CodecExtra::H265(extra)) => extra.is_keyframe,
        (Layout::H266, CodecExtra::H266(extra)) => extra.is_keyframe,
        _ => false,
    }
}

/// What a unit's packets tell.
fn extra_of(layout: Layout, is_keyframe: bool) -> CodecExtra
    ensures { result ≡ extra_of layout is_keyframe }
{
    match layout {
        Layout::H265 => CodecExtra::H265(H265CodecExtra { is_keyframe }),
        Layout::H266 => CodecExtra::H266(H266CodecExtra { is_keyframe }),
    }
}

impl<L: H265OrH266> H265OrH266Depacketizer<L> {
    /// A depacketizer with no open fragment, for packets without decoding order numbers; it
    /// allocates from `alloc`.
    pub fn new(alloc: Global) -> Self
        ensures donl { result.donl ≡ false }
        ensures unit { result.unit ≡ None }
    {
        H265OrH266Depacketizer {
            codec: L::new(),
            alloc,
            donl: false,
            unit: OpenUnit::new(alloc),
        }
    }

    /// How many bytes the open fragment has, with its start code; 0 if none is open.
    pub fn fragment_len(&self) -> usize
        ensures { result ≡ length (unwrap_or self.now.unit []) }
    {
        self.unit.len()
    }

    /// Whether packets from now on have decoding order numbers, as `sprop-max-don-diff` above 0 says (RFC 7798 7.1,
    /// RFC 9328 7.2).
    pub fn with_donl(&mut self, value: bool)
        ensures donl { self.new.donl ≡ value }
        ensures unit { self.new.unit ≡ self.old.unit }
    {
        self.donl = value;
    }

    /// What a packet gives.
    fn give(&mut self, packet: &[u8], out: &mut Vec<u8>) -> Result<(), PacketError>
        ensures given { let given = given L.layout self.old.donl self.old.unit packet.now in
            OnOk result (Adds given out.old.items out.new.items self.new.unit) }
        ensures refused { let given = given L.layout self.old.donl self.old.unit packet.now in
            IfErr result (λ e. e ≢ PacketError.Memory → given ≡ Err e) }
        ensures unchanged { OnErr result ((self.new.unit ≡ self.old.unit) × (out.new.items ≡ out.old.items)) }
        ensures donl { self.new.donl ≡ self.old.donl }
    {
        let Some((high, rest)) = packet.split_first() else {
            return Err(PacketError::ErrShortPacket);
        };
        let Some((low, body)) = rest.split_first() else {
            return Err(PacketError::ErrShortPacket);
        };
        let layout = self.codec.layout();
        let kind = layout.kind_of(*high, *low);
        if is_cut_short(layout, self.donl, kind, body) {
            return Err(PacketError::ErrShortPacket);
        }
        if has_f(*high) {
            return Err(corrupted(layout));
        }
        match kind {
            PacketKind::Single => self.give_single(*high, *low, body, out),
            PacketKind::Aggregate => self.give_units(body, out),
            PacketKind::Fragment => self.give_fragment(*high, *low, body, out),
            PacketKind::Unhandled => {
                let nalu_type = layout.type_of(*high, *low);
                Err(PacketError::NaluTypeIsNotHandled(nalu_type))
            }
        }
    }

    /// What a unit alone gives.
    fn give_single(
        &mut self,
        high: u8,
        low: u8,
        body: &[u8],
        out: &mut Vec<u8>,
    ) -> Result<(), PacketError>
        requires { is_cut_short L.layout self.old.donl PacketKind.Single body.now ≡ false }
        ensures given { let given = given_by L.layout self.old.donl PacketKind.Single self.old.unit high low body.now in
            OnOk result (Adds given out.old.items out.new.items self.new.unit) }
        ensures refused { let given = given_by L.layout self.old.donl PacketKind.Single self.old.unit high low
            body.now in
            IfErr result (λ e. e ≢ PacketError.Memory → given ≡ Err e) }
        ensures unchanged { OnErr result ((self.new.unit ≡ self.old.unit) × (out.new.items ≡ out.old.items)) }
        ensures donl { self.new.donl ≡ self.old.donl }
    {
        let (_, unit) = body.split_at(donl_size(self.donl));
        push_unit_of(&[high, low], unit, out)?;
        Ok(())
    }

    /// What an aggregate gives.
    fn give_units(&mut self, body: &[u8], out: &mut Vec<u8>) -> Result<(), PacketError>
        ensures given { let given = given_by L.layout self.old.donl PacketKind.Aggregate self.old.unit 0 0 body.now in
            OnOk result (Adds given out.old.items out.new.items self.new.unit) }
        ensures refused { let given = given_by L.layout self.old.donl PacketKind.Aggregate self.old.unit 0 0 body.now in
            IfErr result (λ e. e ≢ PacketError.Memory → given ≡ Err e) }
        ensures unchanged { OnErr result ((self.new.unit ≡ self.old.unit) × (out.new.items ≡ out.old.items)) }
        ensures donl { self.new.donl ≡ self.old.donl }
    {
        let layout = self.codec.layout();
        let (lead, later) = (donl_size(self.donl), layout.dond_size(self.donl));
        if let Some(_fault) = aggregate_fault(lead, later, body) {
            return Err(corrupted(layout));
        }
        let units = aggregated_units(self.alloc, lead, later, body)?;
        out.extend_from_slice(&units)?;
        Ok(())
    }

    /// What a fragment gives.
    fn give_fragment(
        &mut self,
        high: u8,
        low: u8,
        body: &[u8],
        out: &mut Vec<u8>,
    ) -> Result<(), PacketError>
        requires { is_cut_short L.layout self.old.donl PacketKind.Fragment body.now ≡ false }
        ensures given { let given = given_fragment L.layout self.old.donl self.old.unit high low body.now in
            OnOk result (Adds given out.old.items out.new.items self.new.unit) }
        ensures refused { let given = given_fragment L.layout self.old.donl self.old.unit high low body.now in
            IfErr result (λ e. e ≢ PacketError.Memory → given ≡ Err e) }
        ensures unchanged { OnErr result ((self.new.unit ≡ self.old.unit) × (out.new.items ≡ out.old.items)) }
        ensures donl { self.new.donl ≡ self.old.donl }
    {
        let Some((fu, part)) = body.split_first() else {
            return Err(PacketError::ErrShortPacket);
        };
        let layout = self.codec.layout();
        let (starts, nalu_type) = (has_start(*fu), layout.fu_type(*fu));
        let (_, part) = part.split_at(donl_size(starts && self.donl));
        let header = [
            layout.high_with(high, nalu_type),
            layout.low_with(low, nalu_type),
        ];
        self.unit.put(starts, has_end(*fu), &header, part, out)?;
        Ok(())
    }
}

impl<L: H265OrH266> Depacketizer for H265OrH266Depacketizer<L> {
    ghost format = { λ d. h265_h266_format L.layout d.donl };

    ghost fragment = { λ d. d.unit };

    fn depacketize(
        &mut self,
        packet: &[u8],
        out: &mut Vec<u8>,
        extra: &mut CodecExtra,
    ) -> Result<(), PacketError> {
        let layout = self.codec.layout();
        let is_keyframe = was_keyframe(layout, extra) || shows_irap(layout, self.donl, packet);
        match self.give(packet, out) {
            Ok(()) => {}
            Err(e) => return Err(e),
        }
        *extra = extra_of(layout, is_keyframe);
        Ok(())
    }

    fn is_partition_head(&self, packet: &[u8]) -> bool {
        let Some((high, rest)) = packet.split_first() else {
            return true;
        };
        let (low, body) = match rest.split_first() {
            Some((low, body)) => (*low, body),
            None => (0, rest),
        };
        self.codec.layout().kind_of(*high, low).is_head(body)
    }

    fn is_partition_tail(&self, marker: bool, _packet: &[u8]) -> bool {
        marker
    }
}
