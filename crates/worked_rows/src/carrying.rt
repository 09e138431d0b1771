//! A call of three samples, of any codec whose packets are pieces of its samples.

ghost use Rattle.std.specs.Prelude.{◌≡◌, ◌≤◌, ◌↔◌, ℕ, List, length, map, true, All, IfSome, IsSome, IsTrue, Ok};
ghost use Rattle.rtp_media_schedules.specs.Hearing.{handed_out};
ghost use Rattle.rtp_media_streams.specs.Sending.{packet_limit};
ghost use Rattle.rtp_media_ends.specs.Connections.{HaveExchanged};
ghost use Rattle.rtp_media_ends.specs.Ends.{is_receiver_at, is_sender_at, sender_at};
ghost use Rattle.rtp_media_runs.specs.Runs.{Hears};
ghost use Rattle.rtp_media_runs.specs.Schedules.{poll_answers};
ghost use Rattle.worked_rows.specs.Call.{IsShortSample, SendsPieces, opened_to_hold, sends_pieces};
ghost use Rattle.rtp_media_runs.specs.OpusHops.{bytes_out};

use crate::calls::{params, sections};
use crate::silence::ends_silent;
use media_types::Codec;
use payload_core_buffer::MIN_HELD;
use rtp_media_ends::{End, StreamParams, connect};
use rtp_media_runs::{Event, Played, Sample, headline, play};
use rtp_wire::{Mid, Pt, Ssrc};
use sdp_formats_rows::PayloadParams;
use std::alloc::Global;

/// Has two ends of a row agree on section `0`, and carries three samples from one to the other at SSRC 44 and the row's
/// payload type, each after the one before if the row has redundancy: the second arrives last, and what comes out
/// is what was sent, each sample once and in order.
///
/// None if the exchange, an opening or a sample is refused, more comes out than three units, or memory runs out.
pub(crate) fn carry(
    alloc: Global,
    row: PayloadParams,
    a: &mut End,
    b: &mut End,
    samples: &[Sample],
) -> Option<Vec<Played>>
    requires three { length samples.now ≡ 3 }
    requires short { All IsShortSample samples.now }
    ensures { IfSome result (λ all. map bytes_out (handed_out (poll_answers all.items))
        ≡ map (λ x. Ok x.bytes) samples.now) }
{
    let sections_a = sections(alloc, Ssrc::from(44))?;
    let sections_b = sections(alloc, Ssrc::from(45))?;
    match connect(a, b, sections_a, sections_b) {
        Ok(_) => {}
        Err(_) => return None,
    }
    let params = params(alloc, row.red().is_some())?;
    carry_between(alloc, a, b, row.pt(), params, samples)
}

/// Whether there is a row, of Opus, G.711 or G.722.
fn has_pieces(row: Option<PayloadParams>) -> bool
    ensures { IsTrue result ↔ (IsSome row × IfSome row SendsPieces) }
{
    match row {
        Some(row) => is_cut(row.spec().codec),
        None => false,
    }
}

fn is_cut(codec: Codec) -> bool
    ensures { result ≡ sends_pieces codec }
{
    matches!(codec, Codec::Opus | Codec::PCMU | Codec::PCMA | Codec::G722)
}

/// The same between ends that have exchanged texts.
fn carry_between(
    alloc: Global,
    a: &mut End,
    b: &mut End,
    pt: Pt,
    params: StreamParams,
    samples: &[Sample],
) -> Option<Vec<Played>>
    requires exchanged { (answer : List ℕ) × HaveExchanged answer a.old b.old }
    requires first { params.first ≡ 0 }
    requires mtu { params.mtu ≡ 1200 }
    requires three { length samples.now ≡ 3 }
    requires short { All IsShortSample samples.now }
    ensures { IfSome result (λ all. map bytes_out (handed_out (poll_answers all.items))
        ≡ map (λ x. Ok x.bytes) samples.now) }
{
    headline();
    let (mid, ssrc) = (Mid::from("0"), Ssrc::from(44));
    if !has_pieces(a.agreed_row(mid, pt)) {
        return None;
    }
    if !params.is_sound(a.agreed_red(mid, pt)) {
        return None;
    }
    let tx = match a.open_sender(mid, ssrc, pt, params) {
        Ok(tx) => tx,
        Err(_) => return None,
    };
    let rx = match b.open_receiver(mid, ssrc, pt, 1023, MIN_HELD) {
        Ok(rx) => rx,
        Err(_) => return None,
    };
    carry_over(alloc, a, b, tx, rx, samples)
}

/// The same between these streams.
fn carry_over(
    alloc: Global,
    a: &mut End,
    b: &mut End,
    tx: usize,
    rx: usize,
    samples: &[Sample],
) -> Option<Vec<Played>>
    requires sender { is_sender_at a.old tx ≡ true }
    requires receiver { is_receiver_at b.old rx ≡ true }
    requires hears { Hears b.old rx opened_to_hold (sender_at a.old tx) samples.now }
    requires pieces { sends_pieces (sender_at a.old tx).row.codec ≡ true }
    requires first { (sender_at a.old tx).next ≡ 0 }
    requires limit { 1199 ≤ packet_limit (sender_at a.old tx) }
    requires three { length samples.now ≡ 3 }
    requires short { All IsShortSample samples.now }
    ensures { IfSome result (λ all. map bytes_out (handed_out (poll_answers all.items))
        ≡ map (λ x. Ok x.bytes) samples.now) }
{
    let schedule = [
        Event::Arrive(0),
        Event::Poll,
        Event::Arrive(2),
        Event::Poll,
        Event::Arrive(1),
        Event::Poll,
        Event::Poll,
        Event::Poll,
    ];
    let all = match play(alloc, a, b, tx, rx, samples, &schedule) {
        Ok(all) => all,
        Err(_) => return None,
    };
    if !ends_silent(&all) {
        return None;
    }
    Some(all)
}
