//! Which NAL units of H.265 and H.266 are sent (RFC 7798 4.4, RFC 9328 4.3).

ghost use Rattle.h26x_payload_formats.specs.Packing.{fragment, fragments_of, role_by};
ghost use Rattle.h26x_payload_formats.specs.Waiting.{joining, packets_in, rules_in, sized_before, waiting_in};
ghost use Rattle.h26x_payload_units.specs.Departures.{alone, departing, departures, together, waiting_after};
ghost use Rattle.h26x_payload_units.specs.Departures.{waiting_behind};
ghost use Rattle.h26x_payload_units.specs.Departures.Role.{Leaves};
ghost use Rattle.h26x_payload_units.specs.Fragments.{in_fragments};
ghost use Rattle.h26x_payload_units.specs.Headers.{unit_type};
ghost use Rattle.h26x_payload_units.specs.Numbers.{donl_size, number_after, numbered};
ghost use Rattle.h26x_payload_units.specs.Units.{units_of};
ghost use Rattle.payload_core_base.specs.Packing.{with_prefix};
ghost use Rattle.payload_core_base.specs.Pieces.{pieces};
ghost use Rattle.std.specs.List.{flat_map};
ghost use Rattle.std.specs.Prelude.{[], ◌≡◌, ◌++◌, ◌+◌, ◌-◌, ◌≤◌, IfOk, OnOk, false, length, map, option_map};
ghost use Rattle.std.specs.Prelude.{unwrap_or};

use crate::layout_constants::{FRAGMENT_HEADER_SIZE, NALU_HEADER_SIZE, NALU_LENGTH_SIZE};
use crate::packets::{Cut, Form, aggregate, fragment, single, single_size};
use h26x_payload_units::{UnitKind, donl_size, nal_units};
use std::alloc::AllocError;

// The largest size that fits in two bytes.
const MAX_AGGREGATED: usize = 65_535;

/// The state kept from one NAL unit to the next within a sample: the next decoding order number,
/// and the held-back parameter sets.
#[derive(Clone, Copy, Drop)]
pub struct Kept<'a> {
    /// The next decoding order number.
    pub number: u16,
    /// The held-back VPS.
    pub vps: Option<&'a [u8]>,
    /// The held-back SPS.
    pub sps: Option<&'a [u8]>,
    /// The held-back PPS.
    pub pps: Option<&'a [u8]>,
}

/// How many bytes a set has, 0 if there is none.
fn length_of(set: Option<&[u8]>) -> usize
    ensures { result ≡ length (unwrap_or (option_map (λ s. s.now) set.entry) []) }
{
    match set {
        Some(set) => set.len(),
        None => 0,
    }
}

/// How many bytes a VPS, if there is one, puts before an SPS in an aggregate.
fn size_before(form: Form, vps: Option<&[u8]>) -> usize
    ensures { result ≡ length (sized_before form.layout form.donl (option_map (λ s. s.now) vps.entry)) }
{
    match vps {
        Some(vps) => NALU_LENGTH_SIZE + vps.len() + form.layout.dond_size(form.donl),
        None => 0,
    }
}

/// Sends an SPS and a PPS in one packet, preceded by a VPS if there is one, if they fit; returns
/// the next unit's number.
fn push_together(
    form: Form,
    prefix: &[u8],
    number: u16,
    vps: Option<&[u8]>,
    sps: &[u8],
    pps: &[u8],
    packets: &mut Vec<Vec<u8>>,
) -> Result<u16, AllocError>
    ensures packets { OnOk result (map (λ p. p.items) packets.new.items ≡ map (λ p. p.items) packets.old.items
        ++ with_prefix prefix.now (flat_map (packets_in form) (numbered number (together (rules_in form) form.limit
        (joining (option_map (λ s. s.now) vps.entry) sps.now pps.now))))) }
    ensures number { IfOk result (λ n. n ≡ number_after number (together (rules_in form) form.limit
        (joining (option_map (λ s. s.now) vps.entry) sps.now pps.now))) }
{
    let vps_len = length_of(vps);
    if vps_len > MAX_AGGREGATED || sps.len() > MAX_AGGREGATED || pps.len() > MAX_AGGREGATED {
        return Ok(number);
    }
    let numbers = donl_size(form.donl) + form.layout.dond_size(form.donl);
    let sizes = size_before(form, vps) + 2 * NALU_LENGTH_SIZE + sps.len() + pps.len();
    if NALU_HEADER_SIZE + numbers + sizes > form.limit {
        return Ok(number);
    }
    let count = if vps.is_some() { 3 } else { 2 };
    packets.push(aggregate(form, prefix, number, vps, sps, pps)?)?;
    Ok(number.wrapping_add(count))
}

/// Sends the later fragments of a unit.
fn push_later_fragments(
    form: Form,
    prefix: &[u8],
    cut: Cut,
    rest: &[u8],
    packets: &mut Vec<Vec<u8>>,
) -> Result<(), AllocError>
    requires { 4 ≤ form.limit }
    ensures { OnOk result (map (λ p. p.items) packets.new.items ≡ map (λ p. p.items) packets.old.items
        ++ with_prefix prefix.now (in_fragments (fragment form.layout form.donl cut.number cut.high cut.low) false
        (pieces (form.limit - 3) rest.now))) }
{
    let mut left = rest.len();
    for part in rest.chunks(form.limit - FRAGMENT_HEADER_SIZE) {
        left -= part.len();
        packets.push(fragment(form, prefix, cut, false, left == 0, part)?)?;
    }
    Ok(())
}

/// Sends the fragments of a unit.
fn push_fragments(
    form: Form,
    prefix: &[u8],
    number: u16,
    unit: &[u8],
    packets: &mut Vec<Vec<u8>>,
) -> Result<(), AllocError>
    requires { 4 + donl_size form.donl ≤ form.limit }
    ensures { OnOk result (map (λ p. p.items) packets.new.items ≡ map (λ p. p.items) packets.old.items
        ++ with_prefix prefix.now (fragments_of form.layout form.donl form.limit number unit.now)) }
{
    let Some((high, rest)) = unit.split_first() else {
        return Ok(());
    };
    let Some((low, body)) = rest.split_first() else {
        return Ok(());
    };
    let cut = Cut {
        number,
        high: *high,
        low: *low,
    };
    let room = form.limit - FRAGMENT_HEADER_SIZE - donl_size(form.donl);
    let (part, rest) = body.split_at(room.min(body.len()));
    packets.push(fragment(form, prefix, cut, true, rest.is_empty(), part)?)?;
    push_later_fragments(form, prefix, cut, rest, packets)
}

/// Sends a unit by itself, if it can leave; the number of the next unit.
fn push_alone(
    form: Form,
    prefix: &[u8],
    number: u16,
    unit: &[u8],
    packets: &mut Vec<Vec<u8>>,
) -> Result<u16, AllocError>
    ensures packets { OnOk result (map (λ p. p.items) packets.new.items ≡ map (λ p. p.items) packets.old.items
        ++ with_prefix prefix.now
        (flat_map (packets_in form) (numbered number (alone (rules_in form) form.limit unit.now)))) }
    ensures number { IfOk result (λ n. n ≡ number_after number (alone (rules_in form) form.limit unit.now)) }
{
    if single_size(form, unit) <= form.limit {
        packets.push(single(form, prefix, number, unit)?)?;
        return Ok(number.wrapping_add(1));
    }
    if form.limit <= FRAGMENT_HEADER_SIZE + donl_size(form.donl) {
        return Ok(number);
    }
    push_fragments(form, prefix, number, unit, packets)?;
    Ok(number.wrapping_add(1))
}

/// Sends a NAL unit, preceded by the parameter sets if the needed ones are held back; returns the
/// state afterwards.
fn push_leaving<'a>(
    form: Form,
    prefix: &[u8],
    unit: &[u8],
    kept: Kept<'a>,
    packets: &mut Vec<Vec<u8>>,
) -> Result<Kept<'a>, AllocError>
    ensures packets { OnOk result (map (λ p. p.items) packets.new.items ≡ map (λ p. p.items) packets.old.items
        ++ with_prefix prefix.now (flat_map (packets_in form) (numbered kept.entry.number
        (departing (rules_in form) form.limit Leaves (waiting_in kept.entry) unit.now)))) }
    ensures number { IfOk result (λ k. k.number ≡ number_after kept.entry.number (departing
        (rules_in form) form.limit Leaves (waiting_in kept.entry) unit.now)) }
    ensures waiting { IfOk result (λ k. waiting_in k ≡ waiting_behind (rules_in form) Leaves
        (waiting_in kept.entry) unit.now) }
{
    if form.layout.needs_vps() && kept.vps.is_none() {
        return push_without(form, prefix, unit, kept, packets);
    }
    let Some(sps) = kept.sps else {
        return push_without(form, prefix, unit, kept, packets);
    };
    let Some(pps) = kept.pps else {
        return push_without(form, prefix, unit, kept, packets);
    };
    let number = push_together(form, prefix, kept.number, kept.vps, sps, pps, packets)?;
    let number = push_alone(form, prefix, number, unit, packets)?;
    Ok(Kept {
        number,
        vps: None,
        sps: None,
        pps: None,
    })
}

/// Sends a unit that leaves, and no parameter sets; what is kept then.
fn push_without<'a>(
    form: Form,
    prefix: &[u8],
    unit: &[u8],
    kept: Kept<'a>,
    packets: &mut Vec<Vec<u8>>,
) -> Result<Kept<'a>, AllocError>
    ensures packets { OnOk result (map (λ p. p.items) packets.new.items ≡ map (λ p. p.items) packets.old.items
        ++ with_prefix prefix.now
        (flat_map (packets_in form) (numbered kept.entry.number (alone (rules_in form) form.limit unit.now)))) }
    ensures number { IfOk result (λ k. k.number ≡ number_after kept.entry.number (alone
        (rules_in form) form.limit unit.now)) }
    ensures waiting { IfOk result (λ k. waiting_in k ≡ waiting_in kept.entry) }
{
    let number = push_alone(form, prefix, kept.number, unit, packets)?;
    Ok(Kept {
        number,
        vps: kept.vps,
        sps: kept.sps,
        pps: kept.pps,
    })
}

/// Sends what leaves with a unit; what is kept then.
fn push_unit<'a>(
    form: Form,
    prefix: &[u8],
    unit: &'a [u8],
    kept: Kept<'a>,
    packets: &mut Vec<Vec<u8>>,
) -> Result<Kept<'a>, AllocError>
    ensures packets { OnOk result (map (λ p. p.items) packets.new.items ≡ map (λ p. p.items) packets.old.items
        ++ with_prefix prefix.now (flat_map (packets_in form) (numbered kept.entry.number
        (departing (rules_in form) form.limit (role_by form.layout (unit_type form.layout unit.now))
        (waiting_in kept.entry) unit.now)))) }
    ensures number { IfOk result (λ k. k.number ≡ number_after kept.entry.number (departing (rules_in form) form.limit
        (role_by form.layout (unit_type form.layout unit.now)) (waiting_in kept.entry) unit.now)) }
    ensures waiting { IfOk result (λ k. waiting_in k ≡ waiting_behind (rules_in form)
        (role_by form.layout (unit_type form.layout unit.now)) (waiting_in kept.entry) unit.now) }
{
    match form.layout.unit_kind(form.layout.unit_type(unit)) {
        UnitKind::Unsent => Ok(kept),
        UnitKind::Vps => Ok(Kept {
            number: kept.number,
            vps: Some(unit),
            sps: kept.sps,
            pps: kept.pps,
        }),
        UnitKind::Sps => Ok(Kept {
            number: kept.number,
            vps: kept.vps,
            sps: Some(unit),
            pps: kept.pps,
        }),
        UnitKind::Pps => Ok(Kept {
            number: kept.number,
            vps: kept.vps,
            sps: kept.sps,
            pps: Some(unit),
        }),
        UnitKind::Other => push_leaving(form, prefix, unit, kept, packets),
    }
}

/// Sends what leaves of a sample's units, each packet with these bytes in front; what is kept then.
///
/// # Errors
///
/// `AllocError` if memory runs out. Some of the packets may then follow the old ones.
pub fn push_units<'a>(
    form: Form,
    prefix: &[u8],
    sample: &'a [u8],
    kept: Kept<'a>,
    packets: &mut Vec<Vec<u8>>,
) -> Result<Kept<'a>, AllocError>
    ensures packets { OnOk result (map (λ p. p.items) packets.new.items ≡ map (λ p. p.items) packets.old.items
        ++ with_prefix prefix.now (flat_map (packets_in form) (numbered kept.entry.number
        (departures (rules_in form) form.limit (waiting_in kept.entry) (units_of sample.now))))) }
    ensures number { IfOk result (λ k. k.number ≡ number_after kept.entry.number (departures
        (rules_in form) form.limit (waiting_in kept.entry) (units_of sample.now))) }
    ensures waiting { IfOk result (λ k. waiting_in k ≡ waiting_after (rules_in form) (waiting_in kept.entry)
        (units_of sample.now)) }
{
    let mut kept = kept;
    for unit in nal_units(sample) {
        kept = push_unit(form, prefix, unit, kept, packets)?;
    }
    Ok(kept)
}
