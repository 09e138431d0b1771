//! What exchanges agree on.

ghost use Rattle.std.specs.Prelude.{◌≡◌, length, IfOk};
ghost use Rattle.rtp_media_sections.specs.Agreement.{AgreesOn};
ghost use Rattle.rtp_media_exchange.specs.Exchanges.{accepted_agreement, answered_agreement};

use rtp_media_sections::{AgreedSection, Section, SectionSpec, agreed_by_accept, agreed_by_answer};
use std::alloc::{AllocError, Global};

/// What the end agrees on that answers sections, by what its answer says.
///
/// # Conditions
///
/// The offer and the answer have as many sections as the end wants.
///
/// # Errors
///
/// `AllocError` if memory runs out.
pub(crate) fn answered_agreement(
    alloc: Global,
    wanted: &[SectionSpec],
    offer: &[Section],
    answer: &[Section],
) -> Result<Vec<AgreedSection>, AllocError>
    requires offer { length wanted.now ≡ length offer.now }
    requires answer { length wanted.now ≡ length answer.now }
    ensures value { IfOk result (λ agreed. agreed.items ≡ answered_agreement wanted.now offer.now answer.now) }
    ensures agrees { IfOk result (λ agreed. AgreesOn answer.now agreed.items) }
{
    let mut agreed = Vec::new(alloc);
    for (place, section) in wanted.iter().enumerate() {
        agreed.push(agreed_by_answer(alloc, section, &offer[place], &answer[place])?)?;
    }
    Ok(agreed)
}

/// What the end agrees on that offered sections.
///
/// # Conditions
///
/// The answer has as many sections as the end wants.
///
/// # Errors
///
/// `AllocError` if memory runs out.
pub(crate) fn accepted_agreement(
    alloc: Global,
    wanted: &[SectionSpec],
    answer: &[Section],
) -> Result<Vec<AgreedSection>, AllocError>
    requires { length wanted.now ≡ length answer.now }
    ensures value { IfOk result (λ agreed. agreed.items ≡ accepted_agreement wanted.now answer.now) }
    ensures agrees { IfOk result (λ agreed. AgreesOn answer.now agreed.items) }
{
    let mut agreed = Vec::new(alloc);
    for (place, section) in wanted.iter().enumerate() {
        agreed.push(agreed_by_accept(alloc, section, &answer[place])?)?;
    }
    Ok(agreed)
}
