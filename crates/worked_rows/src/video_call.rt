//! A call of one frame of VP8 in two packets, of which the second comes as a retransmission.

ghost use Rattle.std.specs.Prelude.{◌≡◌, ◌↔◌, ◌==◌, ◌&&◌, ℕ, List, [], ◌∷◌, length, map, slice_get, string_bytes};
ghost use Rattle.std.specs.Prelude.{IfSome, IsSome, IsTrue, Ok, true};
ghost use Rattle.std.specs.Option.{option_map};
ghost use Rattle.media_types.specs.declared.codec.Codec.{Codec};
ghost use Rattle.rtp_media_schedules.specs.Hearing.{handed_out};
ghost use Rattle.rtp_media_sections.specs.Sections.{are_sound};
ghost use Rattle.rtp_media_ends.specs.Connections.{HaveExchanged};
ghost use Rattle.rtp_media_ends.specs.Ends.{is_receiver_at, is_sender_at, sender_at};
ghost use Rattle.rtp_media_runs.specs.OpusHops.{bytes_out};
ghost use Rattle.rtp_media_runs.specs.Runs.{Hears};
ghost use Rattle.rtp_media_runs.specs.Schedules.{poll_answers};
ghost use Rattle.worked_rows.specs.Call.{opened_to_hold};
ghost use Rattle.worked_rows.specs.VideoCall.{IsTwoPacketFrame, IsVp8, SendsFrames, frame_params, is_received};

use crate::silence::ends_silent;
use media_types::{Codec, MediaKind};
use payload_core_buffer::MIN_HELD;
use rtp_media_ends::{End, StreamParams, exchanged_law};
use rtp_media_runs::{Event, Played, Sample, headline, play};
use rtp_media_sections::SectionSpec;
use rtp_wire::{Direction, Mid, Pt, Ssrc};
use sdp_formats_rows::PayloadParams;
use std::alloc::Global;

/// Has two ends of a row of VP8 agree on section `0` by the three calls of an exchange, and carries a frame from one
/// to the other at SSRC 44. The second of its two packets is lost and comes first, sent again under SSRC 45 (RFC 4588);
/// what comes out is the frame.
///
/// None if the exchange, an opening, the frame or its repair is refused, more comes out than one unit, or memory runs
/// out.
pub(crate) fn carry_frame(
    alloc: Global,
    pt: Pt,
    a: &mut End,
    b: &mut End,
    frame: Sample,
) -> Option<Vec<Played>>
    requires { IsTwoPacketFrame frame }
    ensures { IfSome result (λ all. map bytes_out (handed_out (poll_answers all.items)) ≡ Ok frame.bytes ∷ []) }
{
    let _answer = exchange(alloc, a, b)?;
    carry_between(alloc, a, b, pt, frame)
}

/// The text of the answer that both ends agreed on.
fn exchange(alloc: Global, a: &mut End, b: &mut End) -> Option<String>
    ensures { IfSome result (λ answer. HaveExchanged (string_bytes answer) a.new b.new) }
{
    exchanged_law();
    let sections_a = video_sections(alloc, Ssrc::from(44), Ssrc::from(45))?;
    let sections_b = video_sections(alloc, Ssrc::from(46), Ssrc::from(47))?;
    let offer = match a.offer(sections_a) {
        Ok(offer) => offer,
        Err(_) => return None,
    };
    let answer = match b.answer(offer.as_str(), sections_b) {
        Ok(answer) => answer,
        Err(_) => return None,
    };
    match a.accept(answer.as_str()) {
        Ok(()) => Some(answer),
        Err(_) => None,
    }
}

/// One section of video that flows both ways, of this SSRC, whose packets are sent again under another one.
fn video_sections(alloc: Global, ssrc: Ssrc, repair: Ssrc) -> Option<Vec<SectionSpec>>
    ensures { IfSome result (λ sections. are_sound sections.items ≡ true) }
{
    let section = SectionSpec {
        mid: Mid::from("0"),
        kind: MediaKind::Video,
        dir: Direction::SendRecv,
        ssrcs: vec![in alloc; ssrc].ok()?,
        repairs: vec![in alloc; (ssrc, repair)].ok()?,
    };
    if !section.is_sound() {
        return None;
    }
    vec![in alloc; section].ok()
}

/// The call between ends that have exchanged texts.
fn carry_between(
    alloc: Global,
    a: &mut End,
    b: &mut End,
    pt: Pt,
    frame: Sample,
) -> Option<Vec<Played>>
    requires exchanged { (answer : List ℕ) × HaveExchanged answer a.old b.old }
    requires frame { IsTwoPacketFrame frame }
    ensures { IfSome result (λ all. map bytes_out (handed_out (poll_answers all.items)) ≡ Ok frame.bytes ∷ []) }
{
    headline();
    let (mid, ssrc) = (Mid::from("0"), Ssrc::from(44));
    if !is_vp8(a.agreed_row(mid, pt)) {
        return None;
    }
    let params = frame_params();
    if !params.is_sound(a.agreed_red(mid, pt)) {
        return None;
    }
    let tx = match a.open_sender(mid, ssrc, pt, params) {
        Ok(tx) => tx,
        Err(_) => return None,
    };
    let rx = match b.open_receiver(mid, ssrc, pt, 1023, MIN_HELD) {
        Ok(rx) => rx,
        Err(_) => return None,
    };
    carry_over(alloc, a, b, tx, rx, frame)
}

/// Whether there is a row, of VP8.
fn is_vp8(row: Option<PayloadParams>) -> bool
    ensures { IsTrue result ↔ (IsSome row × IfSome row IsVp8) }
{
    match row {
        Some(row) => is_vp8_codec(row.spec().codec),
        None => false,
    }
}

fn is_vp8_codec(codec: Codec) -> bool
    ensures { IsTrue result ↔ (codec ≡ Codec.Vp8) }
{
    matches!(codec, Codec::Vp8)
}

/// Packets of at most three bytes, numbered from 0.
fn frame_params() -> StreamParams
    ensures { result ≡ frame_params }
{
    StreamParams {
        first: 0,
        mtu: 3,
        limit: 1500,
        red: None,
        picture_id: None,
        for_browsers: false,
    }
}

/// The call between these streams.
fn carry_over(
    alloc: Global,
    a: &mut End,
    b: &mut End,
    tx: usize,
    rx: usize,
    frame: Sample,
) -> Option<Vec<Played>>
    requires sender { is_sender_at a.old tx ≡ true }
    requires receiver { is_receiver_at b.old rx ≡ true }
    requires hears { Hears b.old rx opened_to_hold (sender_at a.old tx) (frame ∷ []) }
    requires sends { SendsFrames (sender_at a.old tx) }
    requires frame { IsTwoPacketFrame frame }
    ensures { IfSome result (λ all. map bytes_out (handed_out (poll_answers all.items)) ≡ Ok frame.bytes ∷ []) }
{
    let samples = [frame];
    let schedule = [Event::Repair(1), Event::Arrive(0), Event::Poll, Event::Poll];
    let all = match play(alloc, a, b, tx, rx, &samples, &schedule) {
        Ok(all) => all,
        Err(_) => return None,
    };
    if !is_repaired(&all) {
        return None;
    }
    if !ends_silent(&all) {
        return None;
    }
    Some(all)
}

/// Whether four events were answered, and the first was that bytes came.
fn is_repaired(all: &[Played]) -> bool
    ensures { result ≡ (length all.now == 4) && is_received (slice_get all.now 0) }
{
    all.len() == 4 && is_received(all.first())
}

fn is_received(first: Option<&Played>) -> bool
    ensures { result ≡ is_received (option_map (λ p. p.now) first.entry) }
{
    matches!(first, Some(Played::Received(_)))
}
