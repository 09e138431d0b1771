//! Sending H.264 payloads (RFC 6184 5.6, 5.7.1 and 5.8).

ghost use Rattle.h26x_payload_units.specs.Units.{units_of};
ghost use Rattle.h26x_payload_units.specs.Departures.{alone, departing, departures, together, waiting_after};
ghost use Rattle.h26x_payload_units.specs.Departures.{waiting_behind};
ghost use Rattle.h26x_payload_units.specs.Departures.Role.{Leaves};
ghost use Rattle.h26x_payload_formats.specs.H264Packing.{fragments_of, h264_packing, h264_rules, packets_of};
ghost use Rattle.h26x_payload_formats.specs.H264Packing.{role_by, unit_type};
ghost use Rattle.h26x_payload_formats.specs.H264Waiting.{waiting_in};
ghost use Rattle.payload_core_base.specs.Packing.{with_prefix};
ghost use Rattle.std.specs.List.{flat_map};
ghost use Rattle.std.specs.Prelude.{[], ◌∷◌, ◌≡◌, ◌++◌, ◌<◌, ◌≤◌, IfOk, None, OnOk, Some, length, map};
ghost use Rattle.std.specs.Prelude.{option_map};

use crate::h264_constants::{
    AUD_NALU_TYPE, FILLER_NALU_TYPE, FUA_HEADER_SIZE, PPS_NALU_TYPE, SPS_NALU_TYPE,
    STAPA_HEADER_SIZE, STAPA_NALU_LENGTH_SIZE,
};
use crate::h264_packets::{fu_a, single, stap_a};
use crate::headers::type_of;
use h26x_payload_units::{copy_of_set, nal_units, set_of};
use payload_core_base::{PacketError, Packetizer};
use std::alloc::{AllocError, Global};

// The largest size that fits in two bytes.
const MAX_AGGREGATED: usize = 65_535;

/// Cuts H.264 access units into packets: single units, STAP-A of the parameter sets, FU-A (RFC 6184 5.6,
/// 5.7.1 and 5.8).
///
/// A sample is an access unit as a byte stream: NAL units after start codes (ITU-T H.264 annex B), not after their
/// lengths. Without a start code it is a single unit.
///
/// Access unit delimiters and filler data are not sent. The latest SPS and the latest PPS wait for the next
/// other unit, and leave before it, once both are there, in one STAP-A; if that passes the limit, or one is
/// longer than 65,535 bytes, they are dropped. A unit that passes the limit leaves in FU-A packets that fill
/// it; below limit 3 it is dropped.
#[derive(Debug)]
pub struct H264Packetizer {
    sps: Option<Vec<u8>>,
    pps: Option<Vec<u8>>,
}

/// Written by hand, so that crates that drop this type need no proof about its fields.
impl Drop for H264Packetizer {
    fn drop(self) {
        let H264Packetizer {
            sps: _sps,
            pps: _pps,
        } = self;
    }
}

// The parameter sets held back within a sample.
#[derive(Clone, Copy, Drop)]
struct WaitingSets<'a> {
    sps: Option<&'a [u8]>,
    pps: Option<&'a [u8]>,
}

/// The type of a unit, 0 without a byte.
fn unit_type(unit: &[u8]) -> u8
    ensures { result ≡ unit_type unit.now }
{
    match unit.first() {
        Some(header) => type_of(*header),
        None => 0,
    }
}

/// Sends two parameter sets in one packet, if they fit.
fn push_together(
    alloc: Global,
    prefix: &[u8],
    limit: usize,
    sps: &[u8],
    pps: &[u8],
    packets: &mut Vec<Vec<u8>>,
) -> Result<(), AllocError>
    ensures { OnOk result (map (λ p. p.items) packets.new.items ≡ map (λ p. p.items) packets.old.items
        ++ with_prefix prefix.now
        (flat_map (packets_of limit) (together h264_rules limit (sps.now ∷ pps.now ∷ [])))) }
{
    if sps.len() > MAX_AGGREGATED || pps.len() > MAX_AGGREGATED {
        return Ok(());
    }
    let size = STAPA_HEADER_SIZE + 2 * STAPA_NALU_LENGTH_SIZE + sps.len() + pps.len();
    if size > limit {
        return Ok(());
    }
    packets.push(stap_a(alloc, prefix, sps, pps)?)?;
    Ok(())
}

/// Sends the fragments of a unit.
fn push_fragments(
    alloc: Global,
    prefix: &[u8],
    limit: usize,
    unit: &[u8],
    packets: &mut Vec<Vec<u8>>,
) -> Result<(), AllocError>
    requires { 3 ≤ limit }
    ensures { OnOk result (map (λ p. p.items) packets.new.items ≡ map (λ p. p.items) packets.old.items
        ++ with_prefix prefix.now (fragments_of limit unit.now)) }
{
    let Some((header, body)) = unit.split_first() else {
        return Ok(());
    };
    let mut first = true;
    let mut left = body.len();
    for part in body.chunks(limit - FUA_HEADER_SIZE) {
        left -= part.len();
        packets.push(fu_a(alloc, prefix, *header, first, left == 0, part)?)?;
        first = false;
    }
    Ok(())
}

/// Sends one NAL unit, if it can be sent.
fn push_alone(
    alloc: Global,
    prefix: &[u8],
    limit: usize,
    unit: &[u8],
    packets: &mut Vec<Vec<u8>>,
) -> Result<(), AllocError>
    ensures { OnOk result (map (λ p. p.items) packets.new.items ≡ map (λ p. p.items) packets.old.items
        ++ with_prefix prefix.now (flat_map (packets_of limit) (alone h264_rules limit unit.now))) }
{
    if unit.len() <= limit {
        packets.push(single(alloc, prefix, unit)?)?;
        return Ok(());
    }
    if limit <= FUA_HEADER_SIZE {
        return Ok(());
    }
    push_fragments(alloc, prefix, limit, unit, packets)
}

/// Sends a NAL unit, preceded by the parameter sets if both are held back; returns the sets held
/// back afterwards.
fn push_leaving<'a>(
    alloc: Global,
    prefix: &[u8],
    limit: usize,
    unit: &[u8],
    waiting: WaitingSets<'a>,
    packets: &mut Vec<Vec<u8>>,
) -> Result<WaitingSets<'a>, AllocError>
    ensures packets { OnOk result (map (λ p. p.items) packets.new.items ≡ map (λ p. p.items) packets.old.items
        ++ with_prefix prefix.now
        (flat_map (packets_of limit) (departing h264_rules limit Leaves (waiting_in waiting.entry) unit.now))) }
    ensures waiting { IfOk result (λ w. waiting_in w
        ≡ waiting_behind h264_rules Leaves (waiting_in waiting.entry) unit.now) }
{
    let Some(sps) = waiting.sps else {
        push_alone(alloc, prefix, limit, unit, packets)?;
        return Ok(waiting);
    };
    let Some(pps) = waiting.pps else {
        push_alone(alloc, prefix, limit, unit, packets)?;
        return Ok(waiting);
    };
    push_together(alloc, prefix, limit, sps, pps, packets)?;
    push_alone(alloc, prefix, limit, unit, packets)?;
    Ok(WaitingSets {
        sps: None,
        pps: None,
    })
}

/// Sends what is to be sent for a unit; returns the sets held back afterwards.
fn push_unit<'a>(
    alloc: Global,
    prefix: &[u8],
    limit: usize,
    unit: &'a [u8],
    waiting: WaitingSets<'a>,
    packets: &mut Vec<Vec<u8>>,
) -> Result<WaitingSets<'a>, AllocError>
    ensures packets { OnOk result (map (λ p. p.items) packets.new.items ≡ map (λ p. p.items) packets.old.items
        ++ with_prefix prefix.now (flat_map (packets_of limit) (departing h264_rules limit
        (role_by (unit_type unit.now)) (waiting_in waiting.entry) unit.now))) }
    ensures waiting { IfOk result (λ w. waiting_in w
        ≡ waiting_behind h264_rules (role_by (unit_type unit.now)) (waiting_in waiting.entry) unit.now) }
{
    match unit_type(unit) {
        AUD_NALU_TYPE | FILLER_NALU_TYPE => Ok(waiting),
        SPS_NALU_TYPE => Ok(WaitingSets {
            sps: Some(unit),
            pps: waiting.pps,
        }),
        PPS_NALU_TYPE => Ok(WaitingSets {
            sps: waiting.sps,
            pps: Some(unit),
        }),
        _ => push_leaving(alloc, prefix, limit, unit, waiting, packets),
    }
}

/// Sends what leaves of a sample's units; the sets that wait then.
fn push_units<'a>(
    alloc: Global,
    prefix: &[u8],
    limit: usize,
    sample: &'a [u8],
    waiting: WaitingSets<'a>,
    packets: &mut Vec<Vec<u8>>,
) -> Result<WaitingSets<'a>, AllocError>
    ensures packets { OnOk result (map (λ p. p.items) packets.new.items ≡ map (λ p. p.items) packets.old.items
        ++ with_prefix prefix.now (flat_map (packets_of limit)
        (departures h264_rules limit (waiting_in waiting.entry) (units_of sample.now)))) }
    ensures waiting { IfOk result (λ w. waiting_in w
        ≡ waiting_after h264_rules (waiting_in waiting.entry) (units_of sample.now)) }
{
    let mut waiting = waiting;
    for unit in nal_units(sample) {
        waiting = push_unit(alloc, prefix, limit, unit, waiting, packets)?;
    }
    Ok(waiting)
}

impl H264Packetizer {
    /// A packetizer that holds back no parameter set.
    pub fn new() -> Self
        ensures sps { option_map (λ v. v.items) result.sps ≡ None }
        ensures pps { option_map (λ v. v.items) result.pps ≡ None }
    {
        H264Packetizer {
            sps: None,
            pps: None,
        }
    }
}

impl Packetizer for H264Packetizer {
    ghost packing = { λ _. h264_packing };

    ghost sender = { λ p. record {
      number = 0;
      waiting =
          option_map (λ v. v.items) p.sps ∷ option_map (λ v. v.items) p.pps ∷ [];
    } };

    fn packetize_with_prefix(
        &mut self,
        alloc: Global,
        prefix: &[u8],
        mtu: usize,
        bytes: &[u8],
    ) -> Result<Vec<Vec<u8>>, PacketError> {
        let room = bytes.len() / mtu.max(FUA_HEADER_SIZE + 1) + 1;
        let mut packets = Vec::with_capacity(alloc, room)?;
        let waiting = WaitingSets {
            sps: set_of(&self.sps),
            pps: set_of(&self.pps),
        };
        let waiting = push_units(alloc, prefix, mtu, bytes, waiting, &mut packets)?;
        let sps = copy_of_set(alloc, waiting.sps)?;
        let pps = copy_of_set(alloc, waiting.pps)?;
        self.sps = sps;
        self.pps = pps;
        Ok(packets)
    }

    fn is_marker(&mut self, _bytes: &[u8], _previous: Option<&[u8]>, last: bool) -> bool {
        last
    }
}
