//! New streams of an end.

ghost use Rattle.std.specs.Prelude.{◌≡◌, ◌≢◌, ◌<◌, Some, None, true, false, OnOk, IfOk, IfErr, IfSome};
ghost use Rattle.std.specs.Prelude.{IsSome, IsSomeAnd, unwrap_or};
ghost use Rattle.std.specs.List.{list_any};
ghost use Rattle.std.specs.Option.{option_map};
ghost use Rattle.payload_core_audio.specs.RedHistory.{AreDistances};
ghost use Rattle.rtp_media_sections.specs.Agreement.{agreed_map_of};
ghost use Rattle.payload_core_buffer.specs.Buffered.{holding_of, is_valid_capacity};
ghost use Rattle.rtp_media_ends.specs.Ends.{agreed_red, end_of, is_carried, new_receiver, new_sender};
ghost use Rattle.rtp_media_stream_table.specs.Streams.{receives_as};
ghost use Rattle.rtp_media_ends.specs.Ends.{refusal_of_open_receiver, refusal_of_open_sender};
ghost use Rattle.rtp_media_ends.specs.Ends.{refusal_of_open_unsignalled};
ghost use Rattle.rtp_media_ends.specs.Ends.{row_format_of, row_sender, with_distances};
ghost use Rattle.rtp_media_streams.specs.Receiving.{opened_receiver};
ghost use Rattle.rtp_media_stream_table.specs.Streams.{sends_as};
ghost use Rattle.rtp_media_ends.specs.FullArrival.{IsSender};
ghost use Rattle.rtp_media_ends.specs.Params.{IsSound};
ghost use Rattle.rtp_wire.specs.Maps.{empty_map};

use crate::errors::OpenError;
use crate::openings::{receiver_row, sender_row, unsignalled_row};
use crate::params::{Distances, StreamParams};
use crate::rows::row_format_of;
use h26x_payload::codec_law;
use rtp_media_exchange::Exchange;
use rtp_media_stream_table::StreamTable;
use rtp_media_streams::{PayloadTypes, ReceivingStream, SendingStream};
use rtp_wire::{ExtensionMap, Mid, Pt, Ssrc};
use sdp_formats_rows::PayloadParams;
use std::alloc::{AllocError, Global};

/// The sending stream of this SSRC that an end of these exchanges and streams opens for the agreed row of a payload
/// type. If `params` has distances, it sends under the row's RED type, each payload after older ones (RFC 2198).
///
/// # Conditions
/// The parameters are sound for the agreed row's RED type: [`StreamParams::is_sound`].
///
/// # Errors
/// The first that holds of `NoSection`, `RowNotAgreed`, `RowDiffers`, `WrongDirection`, `SsrcNotNamed` and
/// `AlreadyOpen`; or `Memory`.
pub fn new_sender(
    alloc: Global,
    exchange: &Exchange,
    streams: &StreamTable,
    mid: Mid,
    ssrc: Ssrc,
    pt: Pt,
    params: &StreamParams,
) -> Result<SendingStream, OpenError>
    requires { IsSound (agreed_red (end_of exchange.now streams.now) mid pt) params.now }
    ensures stream { IfOk result (λ s. s ≡ new_sender (end_of exchange.now streams.now) mid ssrc pt params.now) }
    ensures sender { IfOk result (λ s. IsSender s) }
    ensures apart { IfOk result (λ s. list_any (sends_as s.ssrc s.types) streams.now ≡ false) }
    ensures opens { OnOk result (refusal_of_open_sender (end_of exchange.now streams.now) mid ssrc pt ≡ None) }
    ensures refused { IfErr result (λ e. e ≢ OpenError.Memory
        → refusal_of_open_sender (end_of exchange.now streams.now) mid ssrc pt ≡ Some e) }
{
    codec_law();
    let (row, types) = sender_row(exchange, streams, mid, ssrc, pt)?;
    let exts = exts_of(alloc, exchange, mid)?;
    Ok(sender_of(alloc, ssrc, types, exts, &row, params)?)
}

/// The receiving stream of this SSRC that an end of these exchanges and streams opens for the agreed row of a payload
/// type. Past a missing datagram it hands a unit out only once more than `hold_back` frames are complete; at most
/// `held` packets wait.
///
/// # Conditions
/// `held` is 4,096 to 16,384.
///
/// # Errors
/// As [`new_sender`].
pub fn new_receiver(
    alloc: Global,
    exchange: &Exchange,
    streams: &StreamTable,
    mid: Mid,
    ssrc: Ssrc,
    pt: Pt,
    hold_back: usize,
    held: usize,
) -> Result<ReceivingStream, OpenError>
    requires { is_valid_capacity held ≡ true }
    ensures stream { IfOk result (λ r. r ≡ new_receiver (end_of exchange.now streams.now) mid ssrc pt
        (holding_of hold_back held)) }
    ensures apart { IfOk result (λ r. list_any (receives_as r.ssrc r.types) streams.now ≡ false) }
    ensures opens { OnOk result (refusal_of_open_receiver (end_of exchange.now streams.now) mid ssrc pt ≡ None) }
    ensures refused { IfErr result (λ e. e ≢ OpenError.Memory
        → refusal_of_open_receiver (end_of exchange.now streams.now) mid ssrc pt ≡ Some e) }
{
    let (row, types) = receiver_row(exchange, streams, mid, ssrc, pt)?;
    let exts = exts_of(alloc, exchange, mid)?;
    Ok(receiver_of(alloc, ssrc, types, exts, &row, hold_back, held))
}

/// The receiving stream of this SSRC, which the section's sender names unless it names none, as [`new_receiver`].
///
/// # Conditions
/// `held` is 4,096 to 16,384.
///
/// # Errors
/// As [`new_receiver`], with `SsrcNotNamed` only if the section's sender names SSRCs, and not this one.
pub fn new_unsignalled(
    alloc: Global,
    exchange: &Exchange,
    streams: &StreamTable,
    mid: Mid,
    ssrc: Ssrc,
    pt: Pt,
    hold_back: usize,
    held: usize,
) -> Result<ReceivingStream, OpenError>
    requires { is_valid_capacity held ≡ true }
    ensures stream { IfOk result (λ r. r ≡ new_receiver (end_of exchange.now streams.now) mid ssrc pt
        (holding_of hold_back held)) }
    ensures apart { IfOk result (λ r. list_any (receives_as r.ssrc r.types) streams.now ≡ false) }
    ensures opens { OnOk result (refusal_of_open_unsignalled (end_of exchange.now streams.now) mid ssrc pt ≡ None) }
    ensures refused { IfErr result (λ e. e ≢ OpenError.Memory
        → refusal_of_open_unsignalled (end_of exchange.now streams.now) mid ssrc pt ≡ Some e) }
{
    let (row, types) = unsignalled_row(exchange, streams, mid, ssrc, pt)?;
    let exts = exts_of(alloc, exchange, mid)?;
    Ok(receiver_of(alloc, ssrc, types, exts, &row, hold_back, held))
}

/// The map of header extensions of a new stream in a section of this name.
fn exts_of(alloc: Global, exchange: &Exchange, mid: Mid) -> Result<ExtensionMap, AllocError>
    ensures { IfOk result (λ map. map ≡ unwrap_or (agreed_map_of exchange.now.agreed mid) empty_map) }
{
    match exchange.agreed(mid) {
        Some(section) => section.exts().clone(alloc),
        None => Ok(ExtensionMap::empty()),
    }
}

/// A new receiving stream of a row, under these types of it and this map of header extensions.
fn receiver_of(
    alloc: Global,
    ssrc: Ssrc,
    types: PayloadTypes,
    exts: ExtensionMap,
    row: &PayloadParams,
    hold_back: usize,
    held: usize,
) -> ReceivingStream
    requires carried { is_carried row.now ≡ true }
    requires held { is_valid_capacity held ≡ true }
    ensures { result ≡ opened_receiver ssrc types exts (row_format_of row.now) (holding_of hold_back held) }
{
    let format = row_format_of(row);
    ReceivingStream::new(alloc, ssrc, types, exts, format, hold_back, held)
}

/// A new sending stream of a row, under these types of it and this map of header extensions.
fn sender_of(
    alloc: Global,
    ssrc: Ssrc,
    types: PayloadTypes,
    exts: ExtensionMap,
    row: &PayloadParams,
    params: &StreamParams,
) -> Result<SendingStream, AllocError>
    requires sound { IsSound row.now.red params.now }
    requires carried { is_carried row.now ≡ true }
    requires types { types.pt ≡ row.now.pt }
    requires repairs { IfSome types.repair (λ key. key.pt < 128) }
    ensures { IfOk result (λ s. s ≡ row_sender ssrc types row.now exts params.now) }
{
    let stream = SendingStream::new(
        alloc,
        ssrc,
        types,
        exts,
        row_format_of(row),
        params.picture_id,
        params.for_browsers,
        params.first,
        params.mtu,
        params.limit,
    );
    with_distances(alloc, stream, row.red(), params.red.as_ref())
}

/// The stream with redundancy under this RED type, if there are distances.
fn with_distances(
    alloc: Global,
    stream: SendingStream,
    red: Option<Pt>,
    distances: Option<&Distances>,
) -> Result<SendingStream, AllocError>
    requires types { IsSome distances → IsSomeAnd red (λ r. r < 128) }
    requires distances { IfSome distances (λ ds. AreDistances ds.now) }
    ensures { IfOk result (λ s. s ≡ with_distances stream red (option_map (λ ds. ds.now) distances.entry)) }
{
    let Some(distances) = distances else {
        return Ok(stream);
    };
    let Some(red) = red else {
        return Ok(stream);
    };
    let distances: Vec<u32> = distances
        .as_slice()
        .iter()
        .map(|d| u32::from(*d))
        .collect(alloc)?;
    stream.with_red(red, &distances)
}
