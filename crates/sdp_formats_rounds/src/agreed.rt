//! The rows that meet a row of the other end.

ghost use Rattle.std.specs.Prelude.{◌≡◌, OnOk, IfErr, Ok, Err};
ghost use Rattle.media_types.specs.declared.codec.Codec.TheVariants.{AmrWb};
ghost use Rattle.sdp_formats_rows.specs.Codecs.{is_codec};
ghost use Rattle.sdp_formats_rounds.specs.Rounds.{fallback, agreed_type, agreed_resend, agreed_red};
ghost use Rattle.sdp_formats_rounds.specs.Rounds.{locked_as, matched_row, best_open, first_above};
ghost use Rattle.sdp_formats_rounds.specs.Rounds.{open_best, renegotiated, agreed_row, agreed_rows};

use crate::best::{best_row, better};
use crate::claims::{
    Own, Role, found, free_type, given, is_locked_type, none_given, number_of, taken, tested,
    with_types,
};
use crate::error::RoundError;
use crate::settings::negotiated;
use media_types::Codec;
use sdp_formats_rows::PayloadParams;

/// The row's own payload type if it is unclaimed, otherwise a free one.
fn fallback(
    role: Role,
    before: &[PayloadParams],
    now: &[PayloadParams],
    own: Own,
    ours: Option<u8>,
) -> Result<u8, RoundError>
    ensures { result ≡ fallback role before.now now.now own ours }
{
    if let Some(pt) = ours {
        if !tested(role, now, own, pt)? {
            return Ok(pt);
        }
    }
    found(free_type(before, now, own))
}

fn agreed_type(
    role: Role,
    dictated: bool,
    before: &[PayloadParams],
    now: &[PayloadParams],
    own: Own,
    ours: Option<u8>,
    theirs: u8,
) -> Result<u8, RoundError>
    ensures { result ≡ agreed_type role dictated before.now now.now own ours theirs }
{
    if !tested(role, now, own, theirs)? {
        return Ok(theirs);
    }
    if dictated {
        return Err(taken(role, theirs));
    }
    fallback(role, before, now, own, ours)
}

fn agreed_resend(
    dictated: bool,
    before: &[PayloadParams],
    now: &[PayloadParams],
    own: Own,
    ours: Option<u8>,
    theirs: Option<u8>,
) -> Result<Option<u8>, RoundError>
    ensures { result ≡ agreed_resend dictated before.now now.now own ours theirs }
{
    let Some(theirs) = theirs else {
        return Ok(None);
    };
    let resend = agreed_type(Role::Resend, dictated, before, now, own, ours, theirs)?;
    Ok(Some(resend))
}

fn agreed_red(
    dictated: bool,
    before: &[PayloadParams],
    now: &[PayloadParams],
    own: Own,
    audio: bool,
    ours: Option<u8>,
    theirs: Option<u8>,
) -> Result<Option<u8>, RoundError>
    ensures { result ≡ agreed_red dictated before.now now.now own audio ours theirs }
{
    let (true, Some(_), Some(theirs)) = (audio, ours, theirs) else {
        return Ok(None);
    };
    if !tested(Role::Main, now, own, theirs)? {
        return Ok(Some(theirs));
    }
    if dictated {
        return Ok(None);
    }
    Ok(free_type(before, now, own))
}

#[tactic(auto, unfolding(crate::specs::Rounds::locked_as))]
fn locked_as(
    row: &PayloadParams,
    best: &PayloadParams,
    pt: u8,
    resend: Option<u8>,
    red: Option<u8>,
) -> PayloadParams
    ensures { result ≡ locked_as row.now best.now pt resend red }
{
    let spec = negotiated(row.spec(), &best.spec());
    let mut row = with_types(row, pt, resend, red).with_spec(spec);
    row.set_fb_transport_cc(row.fb_transport_cc() && best.fb_transport_cc());
    row.lock();
    row
}

fn matched_row(
    dictated: bool,
    before: &[PayloadParams],
    now: &[PayloadParams],
    row: &PayloadParams,
    best: &PayloadParams,
) -> Result<PayloadParams, RoundError>
    ensures { result ≡ matched_row dictated before.now now.now row.now best.now }
{
    let pt = agreed_type(
        Role::Main,
        dictated,
        before,
        now,
        none_given(),
        Some(row.pt().get()),
        best.pt().get(),
    )?;
    let own = given(pt, None);
    let resend = agreed_resend(
        dictated,
        before,
        now,
        own,
        number_of(row.resend()),
        number_of(best.resend()),
    )?;
    let own = given(pt, resend);
    let audio = row.spec().codec.is_audio();
    let red = agreed_red(
        dictated,
        before,
        now,
        own,
        audio,
        number_of(row.red()),
        number_of(best.red()),
    )?;
    Ok(locked_as(row, best, pt, resend, red))
}

/// The best of the remote rows whose type no locked row has.
fn best_open(
    remote: &[PayloadParams],
    now: &[PayloadParams],
    row: &PayloadParams,
) -> Option<PayloadParams>
    ensures { result ≡ best_open remote.now now.now row.now }
{
    let mut best = None;
    for theirs in remote {
        if !is_locked_type(now, theirs.pt().get()) {
            best = better(row, best, theirs);
        }
    }
    best.copied()
}

fn is_amr_wb(row: &PayloadParams) -> bool
    ensures { result ≡ is_codec row.now.spec.codec AmrWb }
{
    row.spec().codec == Codec::AmrWb
}

fn first_above(remote: &[PayloadParams]) -> Option<PayloadParams>
    ensures { result ≡ first_above remote.now }
{
    remote.iter().copied().find(|row| row.pt().get() > 127)
}

fn open_best(
    dictated: bool,
    remote: &[PayloadParams],
    now: &[PayloadParams],
    row: &PayloadParams,
) -> Result<Option<PayloadParams>, RoundError>
    ensures { result ≡ open_best dictated remote.now now.now row.now }
{
    if !(dictated && is_amr_wb(row)) {
        return Ok(best_row(row, remote).copied());
    }
    if let Some(above) = first_above(remote) {
        return Err(RoundError::TypeTaken(above.pt()));
    }
    Ok(best_open(remote, now, row))
}

fn renegotiated(row: &PayloadParams, best: Option<PayloadParams>) -> PayloadParams
    ensures { result ≡ renegotiated row.now best }
{
    match best {
        Some(best) => row.with_spec(negotiated(row.spec(), &best.spec())),
        None => *row,
    }
}

fn agreed_row(
    dictated: bool,
    remote: &[PayloadParams],
    before: &[PayloadParams],
    now: &[PayloadParams],
    row: &PayloadParams,
) -> Result<PayloadParams, RoundError>
    ensures { result ≡ agreed_row dictated remote.now before.now now.now row.now }
{
    if row.is_locked() {
        return Ok(renegotiated(row, best_row(row, remote).copied()));
    }
    match open_best(dictated, remote, now, row)? {
        Some(best) => matched_row(dictated, before, now, row, &best),
        None => Ok(*row),
    }
}

/// Each row in turn is matched with its best remote row.
pub(crate) fn agreed_rows(
    dictated: bool,
    remote: &[PayloadParams],
    before: &[PayloadParams],
    rows: &mut [PayloadParams],
) -> Result<(), RoundError>
    ensures ok { OnOk result (agreed_rows dictated remote.now before.now rows.old ≡ Ok rows.new) }
    ensures err { IfErr result (λ e. agreed_rows dictated remote.now before.now rows.old ≡ Err e) }
{
    for i in 0..rows.len() {
        let row = rows[i];
        rows[i] = agreed_row(dictated, remote, before, rows, &row)?;
    }
    Ok(())
}
