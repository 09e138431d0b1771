//! The rows that are left unlocked.

ghost use Rattle.std.specs.Prelude.{◌≡◌, OnOk, IfErr, Ok, Err};
ghost use Rattle.sdp_formats_rounds.specs.Rounds.{moved_type, moved_resend, moved_red, moved_row, settled_row};
ghost use Rattle.sdp_formats_rounds.specs.Rounds.{settled_rows};

use crate::claims::{
    Own, Role, found, free_type, given, none_given, number_of, tested, with_types,
};
use crate::error::RoundError;
use sdp_formats_rows::PayloadParams;

/// The type, or a free one if a locked row has it.
fn moved_type(
    role: Role,
    before: &[PayloadParams],
    now: &[PayloadParams],
    own: Own,
    pt: u8,
) -> Result<u8, RoundError>
    ensures { result ≡ moved_type role before.now now.now own pt }
{
    if tested(role, now, none_given(), pt)? {
        return found(free_type(before, now, own));
    }
    Ok(pt)
}

fn moved_resend(
    before: &[PayloadParams],
    now: &[PayloadParams],
    own: Own,
    resend: Option<u8>,
) -> Result<Option<u8>, RoundError>
    ensures { result ≡ moved_resend before.now now.now own resend }
{
    match resend {
        Some(pt) => Ok(Some(moved_type(Role::Resend, before, now, own, pt)?)),
        None => Ok(None),
    }
}

fn moved_red(
    before: &[PayloadParams],
    now: &[PayloadParams],
    own: Own,
    red: Option<u8>,
) -> Result<Option<u8>, RoundError>
    ensures { result ≡ moved_red before.now now.now own red }
{
    let Some(pt) = red else {
        return Ok(None);
    };
    if tested(Role::Main, now, none_given(), pt)? {
        return Ok(free_type(before, now, own));
    }
    Ok(red)
}

fn moved_row(
    before: &[PayloadParams],
    now: &[PayloadParams],
    row: &PayloadParams,
) -> Result<PayloadParams, RoundError>
    ensures { result ≡ moved_row before.now now.now row.now }
{
    let pt = moved_type(Role::Main, before, now, none_given(), row.pt().get())?;
    let red = moved_red(before, now, given(pt, None), number_of(row.red()))?;
    let resend = moved_resend(before, now, given(pt, red), number_of(row.resend()))?;
    Ok(with_types(row, pt, resend, red))
}

fn settled_row(
    before: &[PayloadParams],
    now: &[PayloadParams],
    row: &PayloadParams,
) -> Result<PayloadParams, RoundError>
    ensures { result ≡ settled_row before.now now.now row.now }
{
    if row.is_locked() {
        return Ok(*row);
    }
    moved_row(before, now, row)
}

/// Each row left unlocked moves away from types of locked rows.
pub(crate) fn settled_rows(
    before: &[PayloadParams],
    rows: &mut [PayloadParams],
) -> Result<(), RoundError>
    ensures ok { OnOk result (settled_rows before.now rows.old ≡ Ok rows.new) }
    ensures err { IfErr result (λ e. settled_rows before.now rows.old ≡ Err e) }
{
    for i in 0..rows.len() {
        let row = rows[i];
        rows[i] = settled_row(before, rows, &row)?;
    }
    Ok(())
}
