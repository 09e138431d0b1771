//! Units that are in an aggregate, each after its size (RFC 7798 4.4.2, RFC 9328 4.3.2).

ghost use Rattle.h26x_payload_units.specs.Aggregates.{aggregated, only_fault, sized, with_first};
ghost use Rattle.h26x_payload_units.specs.Fragments.{behind_code};
ghost use Rattle.std.specs.List.{flat_map};
ghost use Rattle.std.specs.Prelude.{ℕ, ◌≡◌, ◌<◌, ◌≤◌, ◌++◌, IfErr, IfOk, OnOk, Some, length};

use crate::open_unit::push_unit;
use std::alloc::{AllocError, Global};

/// The fault of an aggregation packet, after its whole units.
#[derive(Clone, Copy, Drop)]
pub enum AggregateFault {
    /// The bytes end before a complete size.
    CutShort,
    /// A size exceeds the bytes left.
    PastEnd,
}

/// The first unit of an aggregate that is not empty, with `lead` bytes before its size, and what follows the
/// unit.
///
/// # Errors
///
/// `CutShort` if the bytes end before a size does, `PastEnd` if a size passes the end.
pub fn first_aggregated(lead: usize, body: &[u8]) -> Result<(&[u8], &[u8]), AggregateFault>
    ensures unit { IfOk result (λ cut. (later : ℕ) → aggregated lead later body.now
        ≡ with_first cut.0.now (aggregated later later cut.1.now)) }
    ensures shorter { IfOk result (λ cut. length cut.1.now < length body.now) }
    ensures fault { IfErr result (λ e. 0 < length body.now → (later : ℕ) → aggregated lead later body.now
        ≡ only_fault (Some e)) }
    ensures empty { IfErr result (λ e. length body.now ≡ 0 → e ≡ AggregateFault.CutShort) }
{
    if body.len() < lead {
        return Err(AggregateFault::CutShort);
    }
    let (_, sized) = body.split_at(lead);
    let Some((high, rest)) = sized.split_first() else {
        return Err(AggregateFault::CutShort);
    };
    let Some((low, rest)) = rest.split_first() else {
        return Err(AggregateFault::CutShort);
    };
    let size = *high as usize * 256 + *low as usize;
    if size > rest.len() {
        return Err(AggregateFault::PastEnd);
    }
    Ok(rest.split_at(size))
}

/// The fault of an aggregation packet after its whole units, if any, with `lead` bytes before the
/// first size and `later` before each later one.
pub fn aggregate_fault(lead: usize, later: usize, body: &[u8]) -> Option<AggregateFault>
    ensures { result ≡ (aggregated lead later body.now).fault }
{
    let mut lead = lead;
    let mut rest = body;
    while !rest.is_empty() {
        let behind = match first_aggregated(lead, rest) {
            Ok((_, behind)) => behind,
            Err(e) => return Some(e),
        };
        lead = later;
        rest = behind;
    }
    None
}

/// The whole units of an aggregate, each after a start code, with `lead` bytes before the first size and `later`
/// before each later one.
///
/// # Errors
///
/// `AllocError` if memory runs out.
pub fn aggregated_units(
    alloc: Global,
    lead: usize,
    later: usize,
    body: &[u8],
) -> Result<Vec<u8>, AllocError>
    ensures { IfOk result (λ v. v.items ≡ flat_map behind_code (aggregated lead later body.now).units) }
{
    let mut written = Vec::new(alloc);
    let mut lead = lead;
    let mut rest = body;
    while !rest.is_empty() {
        let Ok((unit, behind)) = first_aggregated(lead, rest) else {
            return Ok(written);
        };
        push_unit(unit, &mut written)?;
        lead = later;
        rest = behind;
    }
    Ok(written)
}

/// Writes a unit after its size.
///
/// # Conditions
///
/// The unit has at most 65,535 bytes.
///
/// # Errors
///
/// `AllocError` if memory runs out. A part of it may then follow the old bytes.
pub fn push_sized(unit: &[u8], out: &mut Vec<u8>) -> Result<(), AllocError>
    requires { length unit.now ≤ 65535 }
    ensures { OnOk result (out.new.items ≡ out.old.items ++ sized unit.now) }
{
    out.push((unit.len() / 256) as u8)?;
    out.push((unit.len() % 256) as u8)?;
    out.extend_from_slice(unit)?;
    Ok(())
}
