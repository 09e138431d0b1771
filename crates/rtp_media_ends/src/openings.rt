//! Why no stream can be opened.

ghost use Rattle.std.specs.Prelude.{◌≡◌, ◌<◌, Some, None, true, false, OnOk, IfOk, IfErr, IfSome};
ghost use Rattle.std.specs.List.{list_any};
ghost use Rattle.rtp_media_sections.specs.Agreement.{agreed_row_of, own_repairs_of, remote_repairs_of, row_in};
ghost use Rattle.rtp_media_sections.specs.Agreement.{section_of};
ghost use Rattle.rtp_media_ends.specs.Repairs.{IsKeyBeside};
ghost use Rattle.rtp_media_ends.specs.Ends.{agrees_in, carried_row, end_of, is_carried, refusal_by};
ghost use Rattle.rtp_media_stream_table.specs.Streams.{receives_as};
ghost use Rattle.rtp_media_ends.specs.Ends.{may_be_sent, refusal_of_open_receiver, refusal_of_open_sender};
ghost use Rattle.rtp_media_ends.specs.Ends.{refusal_of_open_unsignalled, refusal_of_row};
ghost use Rattle.rtp_media_stream_table.specs.Streams.{sends_as};
ghost use Rattle.rtp_media_ends.specs.Ends.{types_of};

use crate::errors::OpenError;
use crate::rows::{has_payload, is_carried, types_of};
use rtp_media_exchange::Exchange;
use rtp_media_sections::AgreedSection;
use rtp_media_stream_table::StreamTable;
use rtp_media_streams::PayloadTypes;
use rtp_wire::{Mid, Pt, Ssrc};
use sdp_formats_rows::PayloadParams;

/// The row that a new sending stream sends, and its types, or why there is none.
#[tactic(auto, unfolding(crate::specs::Ends::refusal_of_open_sender))]
pub(crate) fn sender_row(
    exchange: &Exchange,
    streams: &StreamTable,
    mid: Mid,
    ssrc: Ssrc,
    pt: Pt,
) -> Result<(PayloadParams, PayloadTypes), OpenError>
    ensures row { IfOk result (λ r. agreed_row_of exchange.now.agreed mid pt ≡ Some r.0) }
    ensures carried { IfOk result (λ r. is_carried r.0 ≡ true) }
    ensures types { IfOk result (λ r. r.1 ≡ types_of r.0 ssrc (own_repairs_of exchange.now.agreed mid)) }
    ensures beside { IfOk result (λ r. IsKeyBeside ssrc r.1.repair) }
    ensures repairs { IfOk result (λ r. IfSome r.1.repair (λ key. key.pt < 128)) }
    ensures opens { OnOk result (refusal_of_open_sender (end_of exchange.now streams.now) mid ssrc pt ≡ None) }
    ensures apart { IfOk result (λ r. list_any (sends_as ssrc r.1) streams.now ≡ false) }
    ensures refused { IfErr result (λ e. refusal_of_open_sender (end_of exchange.now streams.now) mid ssrc pt
        ≡ Some e) }
{
    let section = section_named(exchange, mid)?;
    let row = carried_row(section, pt)?;
    let types = types_of(&row, ssrc, section.own_repair_of(ssrc));
    let refusal = opening_refusal(
        agrees_in(exchange, section, &row),
        section.is_sending(),
        section.names_own(ssrc),
        streams.could_send(ssrc, &types),
    );
    match refusal {
        None => Ok((row, types)),
        Some(refusal) => Err(refusal),
    }
}

/// The row that a new receiving stream takes, and its types, or why there is none.
#[tactic(auto, unfolding(crate::specs::Ends::refusal_of_open_receiver))]
pub(crate) fn receiver_row(
    exchange: &Exchange,
    streams: &StreamTable,
    mid: Mid,
    ssrc: Ssrc,
    pt: Pt,
) -> Result<(PayloadParams, PayloadTypes), OpenError>
    ensures row { IfOk result (λ r. agreed_row_of exchange.now.agreed mid pt ≡ Some r.0) }
    ensures carried { IfOk result (λ r. is_carried r.0 ≡ true) }
    ensures types { IfOk result (λ r. r.1 ≡ types_of r.0 ssrc (remote_repairs_of exchange.now.agreed mid)) }
    ensures opens { OnOk result (refusal_of_open_receiver (end_of exchange.now streams.now) mid ssrc pt ≡ None) }
    ensures apart { IfOk result (λ r. list_any (receives_as ssrc r.1) streams.now ≡ false) }
    ensures refused { IfErr result (λ e. refusal_of_open_receiver (end_of exchange.now streams.now) mid ssrc pt
        ≡ Some e) }
{
    let section = section_named(exchange, mid)?;
    let row = carried_row(section, pt)?;
    let types = types_of(&row, ssrc, section.remote_repair_of(ssrc));
    let refusal = opening_refusal(
        agrees_in(exchange, section, &row),
        section.is_receiving(),
        section.names_remote(ssrc),
        streams.could_receive(ssrc, &types),
    );
    match refusal {
        None => Ok((row, types)),
        Some(refusal) => Err(refusal),
    }
}

/// The row that a new receiving stream takes in a section that names its SSRC or none, and its types, or why there is
/// none.
#[tactic(auto, unfolding(crate::specs::Ends::refusal_of_open_unsignalled))]
pub(crate) fn unsignalled_row(
    exchange: &Exchange,
    streams: &StreamTable,
    mid: Mid,
    ssrc: Ssrc,
    pt: Pt,
) -> Result<(PayloadParams, PayloadTypes), OpenError>
    ensures row { IfOk result (λ r. agreed_row_of exchange.now.agreed mid pt ≡ Some r.0) }
    ensures carried { IfOk result (λ r. is_carried r.0 ≡ true) }
    ensures types { IfOk result (λ r. r.1 ≡ types_of r.0 ssrc (remote_repairs_of exchange.now.agreed mid)) }
    ensures opens { OnOk result (refusal_of_open_unsignalled (end_of exchange.now streams.now) mid ssrc pt ≡ None) }
    ensures apart { IfOk result (λ r. list_any (receives_as ssrc r.1) streams.now ≡ false) }
    ensures refused { IfErr result (λ e. refusal_of_open_unsignalled (end_of exchange.now streams.now) mid ssrc pt
        ≡ Some e) }
{
    let section = section_named(exchange, mid)?;
    let row = carried_row(section, pt)?;
    let types = types_of(&row, ssrc, section.remote_repair_of(ssrc));
    let refusal = opening_refusal(
        agrees_in(exchange, section, &row),
        section.is_receiving(),
        may_be_sent(section, ssrc),
        streams.could_receive(ssrc, &types),
    );
    match refusal {
        None => Ok((row, types)),
        Some(refusal) => Err(refusal),
    }
}

/// Whether the section's sender names this SSRC, or none.
fn may_be_sent(section: &AgreedSection, ssrc: Ssrc) -> bool
    ensures { result ≡ may_be_sent section.now.remote_ssrcs ssrc }
{
    section.remote_ssrcs().is_empty() || section.names_remote(ssrc)
}

/// Whether the end's rows agree with a section's, or the section took its rows from a text.
fn agrees_in(exchange: &Exchange, section: &AgreedSection, row: &PayloadParams) -> bool
    ensures { result ≡ agrees_in exchange.now.config.rows section.now row.now }
{
    section.goes_by_text() || exchange.agrees_with(row)
}

/// Why no stream can be opened for a section's row: the first reason that applies.
fn opening_refusal(agrees: bool, flows: bool, names: bool, is_open: bool) -> Option<OpenError>
    ensures { result ≡ refusal_by agrees flows names is_open }
{
    if !agrees {
        return Some(OpenError::RowDiffers);
    }
    if !flows {
        return Some(OpenError::WrongDirection);
    }
    if !names {
        return Some(OpenError::SsrcNotNamed);
    }
    if is_open {
        return Some(OpenError::AlreadyOpen);
    }
    None
}

/// The agreed section of this name.
fn section_named(exchange: &Exchange, mid: Mid) -> Result<&AgreedSection, OpenError>
    ensures found { IfOk result (λ a. section_of exchange.now.agreed mid ≡ Some a.now) }
    ensures refused { IfErr result (λ e. (e ≡ OpenError.NoSection) × (section_of exchange.now.agreed mid ≡ None)) }
{
    match exchange.agreed(mid) {
        Some(section) => Ok(section),
        None => Err(OpenError::NoSection),
    }
}

/// The section's row of this type, if a stream can carry it.
fn carried_row(section: &AgreedSection, pt: Pt) -> Result<PayloadParams, OpenError>
    ensures row { IfOk result (λ r. row_in section.now.rows pt ≡ Some r) }
    ensures carried { IfOk result (λ r. is_carried r ≡ true) }
    ensures found { IfOk result (λ r. carried_row section.now pt ≡ Some r) }
    ensures refused { IfErr result (λ e. (e ≡ refusal_of_row (row_in section.now.rows pt))
        × (carried_row section.now pt ≡ None)) }
{
    match section.row_of(pt) {
        Some(row) if is_carried(&row) => Ok(row),
        Some(row) if has_payload(&row) => Err(OpenError::RowDiffers),
        _ => Err(OpenError::RowNotAgreed),
    }
}
