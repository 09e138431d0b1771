//! The rows, the session and the map of extensions that an end can be made of.

ghost use Rattle.std.specs.Prelude.{◌≡◌, ◌≢◌, None, Some, [], OnOk, IfErr};
ghost use Rattle.rtp_media_exchange.specs.Exchanges.{IsKept};
ghost use Rattle.rtp_media_exchange.specs.Refusals.{RefusesNew, first_repeated, is_among, refusal_of_new};
ghost use Rattle.rtp_media_exchange.specs.Refusals.{row_refusal, types_refusal};
ghost use Rattle.sdp_formats_reader.specs.Writable.{IsWritableSession};

use crate::errors::EndError;
use crate::widths::pass_rows;
use rtp_media_sections::{is_writable, types_listed};
use rtp_wire::{ExtensionMap, Pt};
use sdp_formats_data::Session;
use sdp_formats_reader::is_writable_session;
use sdp_formats_rows::PayloadParams;
use std::alloc::Global;

/// Checks that each row is plain.
fn check_rows(alloc: Global, rows: &[PayloadParams]) -> Result<(), EndError>
    ensures ok { OnOk result (row_refusal 0 rows.now ≡ None) }
    ensures refused { IfErr result (λ e. e ≢ EndError.Memory → row_refusal 0 rows.now ≡ Some e) }
{
    for (place, row) in rows.iter().enumerate() {
        if !row.is_plain(alloc)? {
            return Err(EndError::RowNotPlain(place));
        }
    }
    Ok(())
}

fn is_among(types: &[Pt], pt: Pt) -> bool
    ensures { result ≡ is_among types.now pt }
{
    types.iter().any(|other| other.get() == pt.get())
}

fn first_repeated(types: &[Pt]) -> Option<Pt>
    ensures { result ≡ first_repeated [] types.now }
{
    for place in 0..types.len() {
        if is_among(&types[..place], types[place]) {
            return Some(types[place]);
        }
    }
    None
}

/// Checks that each payload type is used for one thing only.
fn check_types(alloc: Global, rows: &[PayloadParams]) -> Result<(), EndError>
    ensures ok { OnOk result (types_refusal rows.now ≡ None) }
    ensures refused { IfErr result (λ e. e ≢ EndError.Memory → types_refusal rows.now ≡ Some e) }
{
    let types = types_listed(alloc, rows)?;
    match first_repeated(types.as_slice()) {
        Some(pt) => Err(EndError::TypesNotDistinct(pt)),
        None => Ok(()),
    }
}

/// That an end can be made of these rows, this session and this map of extensions.
///
/// # Errors
///
/// The first that holds of `RowNotPlain`, with the place of the first row that isn't plain, `TypesNotDistinct`, with
/// the first type that is there twice, and `NotWritable`; or `Memory`.
pub(crate) fn check_new(
    alloc: Global,
    rows: &[PayloadParams],
    session: &Session,
    exts: &ExtensionMap,
) -> Result<(), EndError>
    ensures accepted { OnOk result (refusal_of_new rows.now exts.now ≡ None) }
    ensures writable { OnOk result (IsWritableSession session.now) }
    ensures kept { OnOk result (IsKept session.now exts.now rows.now) }
    ensures refused { IfErr result (λ e. e ≢ EndError.Memory → RefusesNew rows.now session.now exts.now e) }
{
    check_rows(alloc, rows)?;
    check_types(alloc, rows)?;
    if !is_writable(exts) || !is_writable_session(alloc, session)? {
        return Err(EndError::NotWritable);
    }
    pass_rows(rows);
    let _id = session.id.get();
    Ok(())
}
