//! Which types are claimed, and which are free.

ghost use Rattle.std.specs.Prelude.{◌≡◌};
ghost use Rattle.sdp_formats_rounds.specs.Types.{is_given, has_type, is_own, is_locked_type, is_used, is_claimed};
ghost use Rattle.sdp_formats_rounds.specs.Types.{preferred, is_free, free_type};
ghost use Rattle.sdp_formats_rounds.specs.Rounds.{taken, tested, none_given, given, found};

use crate::error::RoundError;
use rtp_wire::Pt;
use sdp_formats_rows::PayloadParams;

/// What a payload type is used for.
#[derive(Clone, Copy, Drop)]
pub(crate) enum Role {
    /// The codec, or redundancy over it.
    Main,
    /// Retransmissions.
    Resend,
}

/// The types that a row was given so far in its turn.
#[derive(Clone, Copy, Drop)]
pub(crate) struct Own {
    pub first: Option<u8>,
    pub second: Option<u8>,
}

/// The number of a type, if there is one.
pub(crate) fn number_of(pt: Option<Pt>) -> Option<u8>
    ensures { result ≡ pt }
{
    match pt {
        Some(pt) => Some(pt.get()),
        None => None,
    }
}

fn type_of(number: Option<u8>) -> Option<Pt>
    ensures { result ≡ number }
{
    match number {
        Some(number) => Some(Pt::new_with_value(number)),
        None => None,
    }
}

/// The row under these types.
pub(crate) fn with_types(
    row: &PayloadParams,
    pt: u8,
    resend: Option<u8>,
    red: Option<u8>,
) -> PayloadParams
    ensures { result ≡ record row.now { pt = pt; resend = resend; red = red } }
{
    let row = *row;
    row.with_types(Pt::new_with_value(pt), type_of(resend), type_of(red))
}

pub(crate) fn none_given() -> Own
    ensures { result ≡ none_given }
{
    Own {
        first: None,
        second: None,
    }
}

pub(crate) fn given(first: u8, second: Option<u8>) -> Own
    ensures { result ≡ given first second }
{
    Own {
        first: Some(first),
        second,
    }
}

pub(crate) fn taken(role: Role, pt: u8) -> RoundError
    ensures { result ≡ taken role pt }
{
    match role {
        Role::Main => RoundError::TypeTaken(Pt::new_with_value(pt)),
        Role::Resend => RoundError::ResendTaken(Pt::new_with_value(pt)),
    }
}

fn is_given(given: Option<u8>, pt: u8) -> bool
    ensures { result ≡ is_given given pt }
{
    match given {
        Some(given) => given == pt,
        None => false,
    }
}

fn has_type(row: &PayloadParams, pt: u8) -> bool
    ensures { result ≡ has_type row.now pt }
{
    row.pt().get() == pt
        || is_given(number_of(row.resend()), pt)
        || is_given(number_of(row.red()), pt)
}

fn is_own(own: Own, pt: u8) -> bool
    ensures { result ≡ is_own own pt }
{
    is_given(own.first, pt) || is_given(own.second, pt)
}

/// Whether a locked row has the type.
pub(crate) fn is_locked_type(rows: &[PayloadParams], pt: u8) -> bool
    ensures { result ≡ is_locked_type rows.now pt }
{
    rows.iter().any(|row| row.is_locked() && has_type(row, pt))
}

fn is_used(rows: &[PayloadParams], pt: u8) -> bool
    ensures { result ≡ is_used rows.now pt }
{
    rows.iter().any(|row| has_type(row, pt))
}

fn is_claimed(rows: &[PayloadParams], own: Own, pt: u8) -> bool
    ensures { result ≡ is_claimed rows.now own pt }
{
    is_locked_type(rows, pt) || is_own(own, pt)
}

/// Whether a type is claimed; a number above 127 is refused.
pub(crate) fn tested(
    role: Role,
    rows: &[PayloadParams],
    own: Own,
    pt: u8,
) -> Result<bool, RoundError>
    ensures { result ≡ tested role rows.now own pt }
{
    if pt > 127 {
        return Err(taken(role, pt));
    }
    Ok(is_claimed(rows, own, pt))
}

fn is_free(before: &[PayloadParams], now: &[PayloadParams], own: Own, pt: u8) -> bool
    ensures { result ≡ is_free before.now now.now own pt }
{
    !(is_used(before, pt) || is_used(now, pt) || is_own(own, pt))
}

// The types that a row may move to, in the order in which they are tried.
const PREFERRED: [u8; 87] = [
    96, 97, 98, 99, 100, 101, 102, 103, 104, 105, 106, 107, 108, 109, 110, 111, 112, 113, 114, 115,
    116, 117, 118, 119, 120, 121, 122, 123, 124, 125, 126, 127, 80, 81, 82, 83, 84, 85, 86, 87, 88,
    89, 90, 91, 92, 93, 94, 95, 77, 78, 35, 36, 37, 38, 39, 40, 41, 42, 43, 44, 45, 46, 47, 48, 49,
    50, 51, 52, 53, 54, 55, 56, 57, 58, 59, 60, 61, 62, 63, 64, 65, 66, 67, 68, 69, 70, 71,
];

#[tactic(auto, unfolding(crate::specs::Types::preferred))]
fn preferred() -> [u8; 87]
    ensures { result ≡ preferred }
{
    PREFERRED
}

/// The first preferred type that is free.
pub(crate) fn free_type(before: &[PayloadParams], now: &[PayloadParams], own: Own) -> Option<u8>
    ensures { result ≡ free_type before.now now.now own }
{
    preferred()
        .iter()
        .copied()
        .find(|pt| is_free(before, now, own, *pt))
}

/// A free type, or the refusal if there is none.
pub(crate) fn found(free: Option<u8>) -> Result<u8, RoundError>
    ensures { result ≡ found free }
{
    match free {
        Some(pt) => Ok(pt),
        None => Err(RoundError::NoFreeType),
    }
}
