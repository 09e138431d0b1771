//! H.265 and H.266 packets as they are sent (RFC 7798 4.4.1 to 4.4.3, RFC 9328 4.3.1 to 4.3.3).

ghost use Rattle.h26x_payload_units.specs.Headers.{layer_of, tid_of};
ghost use Rattle.h26x_payload_units.specs.Numbers.{dond_bytes, donl_bytes};
ghost use Rattle.h26x_payload_formats.specs.Packing.{aggregate, fragment, least, single};
ghost use Rattle.h26x_payload_formats.specs.Waiting.{joining, sized_before};
ghost use Rattle.std.specs.Prelude.{◌≡◌, ◌++◌, ◌≤◌, IfOk, IfSome, OnOk, length, option_map};

use crate::layout_constants::{FRAGMENT_HEADER_SIZE, NALU_HEADER_SIZE, NALU_LENGTH_SIZE};
use crate::prefix::prefixed;
use h26x_payload_units::{Layout, donl_size, push_sized};
use std::alloc::{AllocError, Global};

/// How units are sent: the codec's layout, with or without decoding order numbers, and the limit.
#[derive(Clone, Copy, Drop)]
pub struct Form {
    /// The allocator for packets.
    pub alloc: Global,
    /// Whether units are of H.265 or of H.266.
    pub layout: Layout,
    /// Whether decoding order numbers are sent.
    pub donl: bool,
    /// The maximum packet size in bytes.
    pub limit: usize,
}

/// The layer of a unit, below 64. A byte that is not there counts as 0.
fn layer_of(layout: Layout, unit: &[u8]) -> u8
    ensures { result ≡ layer_of layout unit.now }
{
    match unit {
        [] => 0,
        [high] => layout.layer_in(*high, 0),
        [high, low, ..] => layout.layer_in(*high, *low),
    }
}

/// TID of a unit, below 8. A byte that is not there counts as 0.
fn tid_of(unit: &[u8]) -> u8
    ensures { result ≡ tid_of unit.now }
{
    match unit {
        [_, low, ..] => *low % 8,
        _ => 0,
    }
}

/// The least layer of parameter sets that leave together.
fn least_layer(layout: Layout, vps: Option<&[u8]>, sps: &[u8], pps: &[u8]) -> u8
    ensures { result ≡ least (layer_of layout) (joining (option_map (λ s. s.now) vps.entry) sps.now pps.now) }
{
    let layer = layer_of(layout, sps).min(layer_of(layout, pps));
    match vps {
        Some(vps) => layer_of(layout, vps).min(layer),
        None => layer,
    }
}

/// Their least TID.
fn least_tid(vps: Option<&[u8]>, sps: &[u8], pps: &[u8]) -> u8
    ensures { result ≡ least tid_of (joining (option_map (λ s. s.now) vps.entry) sps.now pps.now) }
{
    let tid = tid_of(sps).min(tid_of(pps));
    match vps {
        Some(vps) => tid_of(vps).min(tid),
        None => tid,
    }
}

/// Writes a decoding order number, if it is sent.
fn push_donl(donl: bool, number: u16, out: &mut Vec<u8>) -> Result<(), AllocError>
    ensures { OnOk result (out.new.items ≡ out.old.items ++ donl_bytes donl number) }
{
    if donl {
        out.push((number / 256) as u8)?;
        out.push((number % 256) as u8)?;
    }
    Ok(())
}

/// Writes the difference to the decoding order number before, if it is sent.
fn push_dond(form: Form, out: &mut Vec<u8>) -> Result<(), AllocError>
    ensures { OnOk result (out.new.items ≡ out.old.items ++ dond_bytes form.layout form.donl) }
{
    match form.layout {
        Layout::H265 if form.donl => Ok(out.push(0)?),
        _ => Ok(()),
    }
}

/// Writes a VPS, if there is one, before an SPS.
fn push_before(form: Form, vps: Option<&[u8]>, out: &mut Vec<u8>) -> Result<(), AllocError>
    requires { IfSome vps (λ s. length s.now ≤ 65535) }
    ensures { OnOk result (out.new.items
        ≡ out.old.items ++ sized_before form.layout form.donl (option_map (λ s. s.now) vps.entry)) }
{
    let Some(vps) = vps else {
        return Ok(());
    };
    push_sized(vps, out)?;
    push_dond(form, out)
}

/// The aggregate of an SPS and a PPS, and of a VPS before them, if there is one, with these bytes in front.
pub fn aggregate(
    form: Form,
    prefix: &[u8],
    number: u16,
    vps: Option<&[u8]>,
    sps: &[u8],
    pps: &[u8],
) -> Result<Vec<u8>, AllocError>
    requires vps { IfSome vps (λ s. length s.now ≤ 65535) }
    requires sps { length sps.now ≤ 65535 }
    requires pps { length pps.now ≤ 65535 }
    ensures { IfOk result (λ p. p.items ≡ prefix.now
        ++ aggregate form.layout form.donl number (joining (option_map (λ s. s.now) vps.entry) sps.now pps.now)) }
{
    let layer = least_layer(form.layout, vps, sps, pps);
    let sizes = 2 * NALU_LENGTH_SIZE + sps.len() + pps.len();
    let mut packet = prefixed(form.alloc, prefix, NALU_HEADER_SIZE + sizes)?;
    packet.push(form.layout.aggregate_high(layer))?;
    packet.push(form.layout.aggregate_low(layer, least_tid(vps, sps, pps)))?;
    push_donl(form.donl, number, &mut packet)?;
    push_before(form, vps, &mut packet)?;
    push_sized(sps, &mut packet)?;
    push_dond(form, &mut packet)?;
    push_sized(pps, &mut packet)?;
    Ok(packet)
}

/// A unit alone, with these bytes in front.
pub fn single(form: Form, prefix: &[u8], number: u16, unit: &[u8]) -> Result<Vec<u8>, AllocError>
    ensures { IfOk result (λ p. p.items ≡ prefix.now ++ single form.donl number unit.now) }
{
    let mut packet = prefixed(form.alloc, prefix, single_size(form, unit))?;
    if unit.len() <= NALU_HEADER_SIZE {
        packet.extend_from_slice(unit)?;
        return Ok(packet);
    }
    let (header, body) = unit.split_at(NALU_HEADER_SIZE);
    packet.extend_from_slice(header)?;
    push_donl(form.donl, number, &mut packet)?;
    packet.extend_from_slice(body)?;
    Ok(packet)
}

/// A unit that is cut into fragments: the number and the header.
#[derive(Clone, Copy, Drop)]
pub struct Cut {
    pub number: u16,
    pub high: u8,
    pub low: u8,
}

/// A fragment of a unit, with these bytes in front.
pub fn fragment(
    form: Form,
    prefix: &[u8],
    cut: Cut,
    first: bool,
    last: bool,
    part: &[u8],
) -> Result<Vec<u8>, AllocError>
    ensures { IfOk result (λ p. p.items ≡ prefix.now
        ++ fragment form.layout form.donl cut.number cut.high cut.low first last part.now) }
{
    let before = FRAGMENT_HEADER_SIZE + donl_size(form.donl);
    let mut packet = prefixed(form.alloc, prefix, part.len().saturating_add(before))?;
    let nalu_type = form.layout.fragment_type();
    packet.push(form.layout.high_with(cut.high, nalu_type))?;
    packet.push(form.layout.low_with(cut.low, nalu_type))?;
    let unit_type = form.layout.type_of(cut.high, cut.low);
    packet.push(form.layout.fu_byte(first, last, unit_type))?;
    push_donl(first && form.donl, cut.number, &mut packet)?;
    packet.extend_from_slice(part)?;
    Ok(packet)
}

/// How many bytes a unit has alone.
pub fn single_size(form: Form, unit: &[u8]) -> usize
    ensures { result ≡ length (single form.donl 0 unit.now) }
{
    if unit.len() <= NALU_HEADER_SIZE {
        return unit.len();
    }
    unit.len() + donl_size(form.donl)
}
