//! What is written and agreed if sections are answered.

ghost use Rattle.std.specs.Prelude.{◌≡◌, ◌≢◌, None, Some, false, true, length, map, string_bytes, IfOk, IfErr, OnOk};
ghost use Rattle.rtp_media_sections.specs.Answered.{answered_section};
ghost use Rattle.rtp_media_exchange.specs.Answering.{read_back};
ghost use Rattle.rtp_media_exchange.specs.Exchanges.{answered_agreement};
ghost use Rattle.rtp_media_exchange.specs.Offers.{answered_sections, sdp_of};
ghost use Rattle.rtp_media_exchange.specs.Refusals.{answers_none, no_answer};
ghost use Rattle.sdp_formats_data.specs.PrintedSession.{sdp_text};

use crate::agree::answered_agreement;
use crate::errors::ExchangeError;
use crate::print::text_of;
use crate::read_back::all_read_back;
use rtp_media_sections::{AgreedSection, Section, SectionSpec, answered_section};
use rtp_wire::ExtensionMap;
use sdp_formats_data::Session;
use sdp_formats_rounds::CodecConfig;
use std::alloc::{AllocError, Global};

/// The section that answers an offered one, if it lists a row.
#[tactic(auto, unfolding(rtp_media_sections::specs::Answered::answered_section))]
fn answered(
    alloc: Global,
    exts: &ExtensionMap,
    config: &CodecConfig,
    wanted: &SectionSpec,
    offer: &Section,
) -> Result<Section, ExchangeError>
    ensures section { IfOk result (λ s. s ≡ answered_section exts.now config.now.rows wanted.now offer.now) }
    ensures listed { OnOk result (answers_none config.now.rows offer.now ≡ false) }
    ensures refused { IfErr result (λ e. e ≢ ExchangeError.Memory
        → (answers_none config.now.rows offer.now ≡ true) × (e ≡ ExchangeError.NoCommonRow offer.now.mid)) }
{
    let section = answered_section(alloc, exts, config, wanted, offer)?;
    if section.rows.is_empty() {
        return Err(ExchangeError::NoCommonRow(offer.mid));
    }
    Ok(section)
}

/// The sections that answer offered ones, once a round with each of them left the config so.
///
/// # Conditions
///
/// The offer has as many sections as the end wants.
///
/// # Errors
///
/// `NoCommonRow` with the name of the first offered section to which the answer would list no row; or `Memory`.
pub(crate) fn answered_sections(
    alloc: Global,
    exts: &ExtensionMap,
    config: &CodecConfig,
    wanted: &[SectionSpec],
    offer: &[Section],
) -> Result<Vec<Section>, ExchangeError>
    requires { length wanted.now ≡ length offer.now }
    ensures sections { IfOk result (λ answer. answer.items
        ≡ answered_sections exts.now config.now.rows wanted.now offer.now) }
    ensures ok { OnOk result (no_answer config.now.rows offer.now ≡ None) }
    ensures refused { IfErr result (λ e. e ≢ ExchangeError.Memory → no_answer config.now.rows offer.now ≡ Some e) }
{
    let mut answer = Vec::new(alloc);
    for (place, section) in wanted.iter().enumerate() {
        answer.push(answered(alloc, exts, config, section, &offer[place])?)?;
    }
    Ok(answer)
}

/// The text of an answer that says these sections, and what is agreed by it.
///
/// # Conditions
///
/// The offer and the answer have as many sections as the end wants.
///
/// # Errors
///
/// `AllocError` if memory runs out.
pub(crate) fn written(
    alloc: Global,
    session: &Session,
    wanted: &[SectionSpec],
    offer: &[Section],
    answer: &[Section],
) -> Result<(String, Vec<AgreedSection>), AllocError>
    requires offer { length wanted.now ≡ length offer.now }
    requires answer { length wanted.now ≡ length answer.now }
    ensures text { IfOk result (λ a. string_bytes a.0 ≡ sdp_text (sdp_of session.now answer.now)) }
    ensures agreed { IfOk result (λ a. a.1.items
        ≡ answered_agreement wanted.now offer.now (map read_back answer.now)) }
{
    let text = text_of(alloc, session, answer)?;
    let said = all_read_back(alloc, answer)?;
    let agreed = answered_agreement(alloc, wanted, offer, said.as_slice())?;
    Ok((text, agreed))
}
