//! What the sections of a text and the rows of an end come to.

ghost use Rattle.std.specs.Prelude.{◌≡◌, ◌≢◌, ◌&&◌, ◌==◌, None, Some, Ok, not, find, map, OnOk, IfErr, IfOk};
ghost use Rattle.std.specs.List.{list_any};
ghost use Rattle.rtp_wire.specs.Direction.{receives};
ghost use Rattle.sdp_formats_rounds.specs.Laws.{rounds};
ghost use Rattle.sdp_formats_rounds.specs.Rounds.{round};
ghost use Rattle.rtp_media_exchange.specs.Refusals.{is_locked_at, no_acceptance, not_media_of, round_refusal};
ghost use Rattle.rtp_media_exchange.specs.Refusals.{shares_none};
ghost use Rattle.rtp_media_sections.specs.Lines.{remote_of};

use crate::errors::ExchangeError;
use rtp_media_sections::Section;
use sdp_formats_rounds::{CodecConfig, RoundError};
use sdp_formats_rows::PayloadParams;

/// That each section of a text is media.
///
/// # Errors
///
/// `NotMedia` with the name of the first that isn't.
pub(crate) fn check_media(sections: &[Section]) -> Result<(), ExchangeError>
    ensures ok { OnOk result (not_media_of (find (λ s. not s.is_media) sections.now) ≡ None) }
    ensures refused { IfErr result (λ e. not_media_of (find (λ s. not s.is_media) sections.now) ≡ Some e) }
{
    for section in sections {
        if !section.is_media {
            return Err(ExchangeError::NotMedia(section.mid));
        }
    }
    Ok(())
}

fn round_with(config: &mut CodecConfig, section: &Section) -> Result<(), ExchangeError>
    ensures ok { OnOk result (round (receives section.now.dir) section.now.rows config.old.rows ≡ Ok config.new.rows) }
    ensures distances { config.new.distances ≡ config.old.distances }
    ensures refused { IfErr result (λ e. e ≢ ExchangeError.Memory
        → round_refusal (round (receives section.now.dir) section.now.rows config.old.rows) ≡ Some e) }
{
    match config.round(section.rows.as_slice(), section.dir) {
        Ok(()) => Ok(()),
        Err(RoundError::Memory) => Err(ExchangeError::Memory),
        Err(fault) => Err(ExchangeError::Round(fault)),
    }
}

/// The config after a round with each section of a text.
///
/// # Errors
///
/// `Round` with the error of the first round that fails; or `Memory`.
pub(crate) fn settled(
    config: &CodecConfig,
    sections: &[Section],
) -> Result<CodecConfig, ExchangeError>
    ensures rows { IfOk result (λ c. rounds (map remote_of sections.now) config.now.rows ≡ Ok c.rows) }
    ensures distances { IfOk result (λ c. c.distances ≡ config.now.distances) }
    ensures refused { IfErr result (λ e. e ≢ ExchangeError.Memory
        → round_refusal (rounds (map remote_of sections.now) config.now.rows) ≡ Some e) }
{
    let mut after = config.clone()?;
    for section in sections {
        round_with(&mut after, section)?;
    }
    Ok(after)
}

fn is_locked_at(rows: &[PayloadParams], row: &PayloadParams) -> bool
    ensures { result ≡ is_locked_at rows.now row.now }
{
    rows.iter()
        .any(|own| own.is_locked() && own.pt().get() == row.pt().get())
}

fn is_any_locked_at(own: &[PayloadParams], rows: &[PayloadParams]) -> bool
    ensures { result ≡ list_any (is_locked_at own.now) rows.now }
{
    rows.iter().any(|row| is_locked_at(own, row))
}

fn shares_none(config: &CodecConfig, section: &Section) -> bool
    ensures { result ≡ shares_none config.now.rows section.now }
{
    !is_any_locked_at(config.params(), section.rows.as_slice())
}

/// That each section of an answer has a row at the type of a locked one.
///
/// # Errors
///
/// `NoCommonRow` with the name of the first section that has none.
pub(crate) fn check_accepted(
    config: &CodecConfig,
    sections: &[Section],
) -> Result<(), ExchangeError>
    ensures ok { OnOk result (no_acceptance config.now.rows sections.now ≡ None) }
    ensures refused { IfErr result (λ e. no_acceptance config.now.rows sections.now ≡ Some e) }
{
    for section in sections {
        if shares_none(config, section) {
            return Err(ExchangeError::NoCommonRow(section.mid));
        }
    }
    Ok(())
}
