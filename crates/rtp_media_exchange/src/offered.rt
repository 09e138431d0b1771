//! The sections of an offer, and what they have to be.

ghost use Rattle.std.specs.Prelude.{◌≡◌, ◌≢◌, None, Some, find, IfOk, IfErr, OnOk};
ghost use Rattle.std.specs.List.{list_any};
ghost use Rattle.rtp_media_exchange.specs.Offers.{offered_sections};
ghost use Rattle.rtp_media_exchange.specs.Refusals.{is_nameless, lists_none, no_row_of, not_written};

use crate::errors::ExchangeError;
use rtp_media_sections::{Section, SectionSpec, offered_section};
use rtp_wire::ExtensionMap;
use sdp_formats_rounds::CodecConfig;
use std::alloc::{AllocError, Global};

fn lists_none(config: &CodecConfig, section: &SectionSpec) -> Result<bool, AllocError>
    ensures { IfOk result (λ none. none ≡ lists_none config.now.rows section.now) }
{
    let rows = config.all_for_kind(section.kind, true)?;
    Ok(rows.is_empty())
}

/// That each section would list a row.
///
/// # Errors
///
/// `NoCommonRow` with the name of the first that would list none; or `Memory`.
pub(crate) fn check_listed(
    config: &CodecConfig,
    sections: &[SectionSpec],
) -> Result<(), ExchangeError>
    ensures ok { OnOk result (no_row_of (find (lists_none config.now.rows) sections.now) ≡ None) }
    ensures refused { IfErr result (λ e. e ≢ ExchangeError.Memory
        → no_row_of (find (lists_none config.now.rows) sections.now) ≡ Some e) }
{
    for section in sections {
        if lists_none(config, section)? {
            return Err(ExchangeError::NoCommonRow(section.mid));
        }
    }
    Ok(())
}

fn is_any_nameless(sections: &[SectionSpec]) -> bool
    ensures { result ≡ list_any is_nameless sections.now }
{
    sections
        .iter()
        .any(|section| section.mid.as_str().is_empty())
}

/// That each section has a name.
///
/// # Errors
///
/// `NotWritable` if one has none.
pub(crate) fn check_named(sections: &[SectionSpec]) -> Result<(), ExchangeError>
    ensures ok { OnOk result (not_written sections.now ≡ None) }
    ensures refused { IfErr result (λ e. not_written sections.now ≡ Some e) }
{
    if is_any_nameless(sections) {
        return Err(ExchangeError::NotWritable);
    }
    Ok(())
}

/// The sections of an offer.
///
/// # Errors
///
/// `AllocError` if memory runs out.
pub(crate) fn offered_sections(
    alloc: Global,
    exts: &ExtensionMap,
    config: &CodecConfig,
    wanted: &[SectionSpec],
) -> Result<Vec<Section>, AllocError>
    ensures { IfOk result (λ offer. offer.items ≡ offered_sections exts.now config.now.rows wanted.now) }
{
    let mut offer = Vec::new(alloc);
    for section in wanted {
        offer.push(offered_section(alloc, exts, config, section)?)?;
    }
    Ok(offer)
}
