//! The rows that are locked as a round begins.

ghost use Rattle.std.specs.Prelude.{◌≡◌, OnOk, IfErr, Ok, Err};
ghost use Rattle.sdp_formats_rounds.specs.Rounds.{unclaimed, unclaimed_if_given, standing_types};
ghost use Rattle.sdp_formats_rounds.specs.Rounds.{standing_row, standing_rows};

use crate::claims::{Own, Role, given, none_given, number_of, taken, tested};
use crate::error::RoundError;
use sdp_formats_rows::PayloadParams;

fn unclaimed(role: Role, rows: &[PayloadParams], own: Own, pt: u8) -> Result<u8, RoundError>
    ensures { result ≡ unclaimed role rows.now own pt }
{
    if tested(role, rows, own, pt)? {
        return Err(taken(role, pt));
    }
    Ok(pt)
}

fn unclaimed_if_given(
    role: Role,
    rows: &[PayloadParams],
    own: Own,
    pt: Option<u8>,
) -> Result<Option<u8>, RoundError>
    ensures { result ≡ unclaimed_if_given role rows.now own pt }
{
    match pt {
        Some(pt) => Ok(Some(unclaimed(role, rows, own, pt)?)),
        None => Ok(None),
    }
}

fn standing_types(done: &[PayloadParams], row: &PayloadParams) -> Result<Option<u8>, RoundError>
    ensures { result ≡ standing_types done.now row.now }
{
    unclaimed(Role::Main, done, none_given(), row.pt().get())?;
    unclaimed_if_given(
        Role::Resend,
        done,
        given(row.pt().get(), None),
        number_of(row.resend()),
    )?;
    unclaimed_if_given(
        Role::Main,
        done,
        given(row.pt().get(), number_of(row.resend())),
        number_of(row.red()),
    )
}

fn standing_row(done: &[PayloadParams], row: &PayloadParams) -> Result<(), RoundError>
    ensures ok { OnOk result (standing_row done.now row.now ≡ Ok row.now) }
    ensures err { IfErr result (λ e. standing_row done.now row.now ≡ Err e) }
{
    if row.is_locked() {
        standing_types(done, row)?;
    }
    Ok(())
}

/// Checks that the locked rows' types are distinct; otherwise the first refusal.
pub(crate) fn standing_rows(rows: &[PayloadParams]) -> Result<(), RoundError>
    ensures ok { OnOk result (standing_rows rows.now ≡ Ok rows.now) }
    ensures err { IfErr result (λ e. standing_rows rows.now ≡ Err e) }
{
    for i in 0..rows.len() {
        standing_row(&rows[..i], &rows[i])?;
    }
    Ok(())
}
