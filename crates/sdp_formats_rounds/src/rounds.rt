//! The round.

ghost use Rattle.std.specs.Prelude.{◌≡◌, ◌≢◌, OnOk, OnErr, IfErr, Ok, Err};
ghost use Rattle.sdp_formats_rounds.specs.declared.error.RoundError.TheVariants.{Memory};
ghost use Rattle.sdp_formats_rounds.specs.Rounds.{round};

use crate::agreed::agreed_rows;
use crate::error::RoundError;
use crate::settled::settled_rows;
use crate::standing::standing_rows;
use sdp_formats_rows::PayloadParams;

/// The three passes over a copy of the rows.
#[tactic(auto, unfolding(crate::specs::Rounds::round))]
fn turn_rows(
    dictated: bool,
    remote: &[PayloadParams],
    before: &[PayloadParams],
    rows: &mut [PayloadParams],
) -> Result<(), RoundError>
    requires { rows.old ≡ before.now }
    ensures ok { OnOk result (round dictated remote.now before.now ≡ Ok rows.new) }
    ensures err { IfErr result (λ e. round dictated remote.now before.now ≡ Err e) }
{
    standing_rows(before)?;
    agreed_rows(dictated, remote, before, rows)?;
    settled_rows(before, rows)
}

/// A round: the rows meet those of the other end, which dictates their types or not.
///
/// # Errors
///
/// The first refusal that is met, or `Memory`; the rows are then as before.
pub fn round(
    rows: &mut Vec<PayloadParams>,
    remote: &[PayloadParams],
    dictated: bool,
) -> Result<(), RoundError>
    ensures ok { OnOk result (round dictated remote.now rows.old.items ≡ Ok rows.new.items) }
    ensures refused { IfErr result (λ e. e ≢ Memory → round dictated remote.now rows.old.items ≡ Err e) }
    ensures unchanged { OnErr result (rows.new.items ≡ rows.old.items) }
{
    let mut after = rows.clone()?;
    turn_rows(dictated, remote, rows, &mut after)?;
    *rows = after;
    Ok(())
}
