//! Whole runs.

ghost use Rattle.std.specs.Prelude.{◌≡◌, ◌≢◌, ◌⊎◌, ◌++◌, ℕ, true, map, IfOk, IfErr, OnOk, OnErr, None};
ghost use Rattle.std.specs.Prelude.{option_to_list};
ghost use Rattle.std.specs.Prelude.{Ok};
ghost use Rattle.payload_core_buffer.specs.Buffered.{Holding};
ghost use Rattle.rtp_media_schedules.specs.Hearing.{handed_out, heard};
ghost use Rattle.rtp_media_schedules.specs.SentSamples.{timed_unit};
ghost use Rattle.rtp_media_schedules.specs.Legal.{IsLegal};
ghost use Rattle.rtp_media_streams.specs.Rows.{format_of};
ghost use Rattle.rtp_media_ends.specs.Ends.{is_receiver_at, is_sender_at, receiver_at};
ghost use Rattle.rtp_media_ends.specs.FullArrival.{IsFound, units_of};
ghost use Rattle.rtp_media_runs.specs.Runs.{FollowsSchedule, Hears, IsSaneSchedule, IsTameSchedule};
ghost use Rattle.rtp_media_runs.specs.Runs.{IsTimelySchedule, canonical_of, prompt_answers};
ghost use Rattle.rtp_media_schedules.specs.InTime.{timed_answer};
ghost use Rattle.rtp_media_ends.specs.Ends.{sender_at};
ghost use Rattle.rtp_media_runs.specs.Pushing.{IsCutShort, IsRefusedAt, PlaysSome, StopsAt, after_made, after_repairs};
ghost use Rattle.rtp_media_runs.specs.Pushing.{refusal_of_samples, source_at};
ghost use Rattle.rtp_media_runs.specs.Schedules.{after_bytes, after_event, after_schedule, answers_on, answers_to};
ghost use Rattle.rtp_media_runs.specs.Schedules.{bytes_of, made_at, own_events, played, poll_answers, repair_at};
ghost use Rattle.rtp_media_runs.specs.Schedules.{source_of};

use crate::events::{poll, receive, repair};
use crate::pushing::push_samples;
use crate::sample::Sample;
use crate::schedule::{Event, Played};
use h26x_payload::codec_law;
use rtp_media_ends::End;
use rtp_media_streams::{Datagram, SampleError};
use std::alloc::{AllocError, Global};

/// Pushes samples at a sending stream of `a`, one after the other, and then lets a schedule happen at `b`, whose polls
/// are polls of one of its receiving streams, and whose repairs that sending stream makes. Answers what `b` says of the
/// bytes that arrive, why a repair is refused, and what the polls return, in order.
///
/// # Conditions
/// `tx` is the number of a sending stream of `a`, and `rx` that of a receiving stream of `b`: `End::is_sender`,
/// `End::is_receiver`.
///
/// # Errors
/// What the first refused sample is refused for: those before it were pushed, and nothing of the schedule happens.
/// `SampleError::Memory` if memory runs out, at a sample, a datagram or a poll, after a part was done.
pub fn play(
    alloc: Global,
    a: &mut End,
    b: &mut End,
    tx: usize,
    rx: usize,
    samples: &[Sample],
    schedule: &[Event],
) -> Result<Vec<Played>, SampleError>
    requires sender { is_sender_at a.old tx ≡ true }
    requires receiver { is_receiver_at b.old rx ≡ true }
    ensures accepted { OnOk result (refusal_of_samples (sender_at a.old tx) samples.now ≡ None) }
    ensures repaired { let sent = source_of (sender_at a.old tx) samples.now in
        OnOk result (a.new ≡ after_repairs a.old tx sent schedule.now) }
    ensures answers { let sent = source_of (sender_at a.old tx) samples.now in
        IfOk result (λ all. all.items ≡ played sent rx b.old schedule.now) }
    ensures after { let sent = source_of (sender_at a.old tx) samples.now in
        OnOk result (b.new ≡ after_schedule sent rx b.old schedule.now) }
    ensures refused { IfErr result (λ e. e ≢ SampleError.Memory → IsRefusedAt a.old tx samples.now e a.new) }
    ensures unplayed { IfErr result (λ e. e ≢ SampleError.Memory → b.new ≡ b.old) }
    ensures memory { IfErr result (λ e. e ≡ SampleError.Memory →
        IsCutShort a.old b.old tx rx samples.now schedule.now a.new b.new) }

    // Isolation: whatever bytes come, the answers to the polls are what the stream hears of its own datagrams, repairs
    // of them, and polls, in their order.
    ensures isolated { let receiver = receiver_at b.old rx in
        let sent = source_of (sender_at a.old tx) samples.now in
        IfOk result (λ all. IsFound b.old rx receiver → poll_answers all.items
        ≡ heard (format_of receiver.row) receiver.stream (own_events sent receiver schedule.now)) }
    // Legal under every sane schedule: what the polls hand out is the canonical units, in order and each at most
    // once, and no poll returns a fault.
    ensures legal { let sender = sender_at a.old tx in
        IfOk result (λ all. (holding : Holding) → Hears b.old rx holding sender samples.now →
        IsSaneSchedule sender samples.now schedule.now →
        IsLegal (canonical_of sender samples.now) (poll_answers all.items)) }
    // Nothing is withheld: under every sane schedule a unit that came whole isn't skipped, and comes at the latest when
    // more units came whole than are held back.
    ensures follows { let sender = sender_at a.old tx in
        IfOk result (λ all. (holding : Holding) → Hears b.old rx holding sender samples.now →
        IsSaneSchedule sender samples.now schedule.now →
        FollowsSchedule sender samples.now holding schedule.now (poll_answers all.items)) }
    // Prompt: as long as every unit comes in time, each poll returns the next one if all its datagrams came.
    ensures prompt { let sender = sender_at a.old tx in
        IfOk result (λ all. (holding : Holding) → Hears b.old rx holding sender samples.now →
        IsTimelySchedule sender samples.now holding schedule.now →
        map timed_answer (poll_answers all.items)
        ≡ prompt_answers sender samples.now schedule.now (units_of sender samples.now)) }
    // Exact under every tame schedule: it is just the canonical units.
    ensures exact { let sender = sender_at a.old tx in
        IfOk result (λ all. (holding : Holding) → Hears b.old rx holding sender samples.now →
        IsTameSchedule sender samples.now holding schedule.now (poll_answers all.items) →
        map timed_unit (handed_out (poll_answers all.items)) ≡ map Ok (units_of sender samples.now)) }
{
    codec_law();
    let datagrams = match push_samples(alloc, a, tx, samples) {
        Ok(datagrams) => datagrams,
        Err(refusal) => return Err(refusal),
    };
    match play_schedule(alloc, a, b, tx, rx, &datagrams, schedule) {
        Ok(all) => Ok(all),
        Err(_) => Err(SampleError::Memory),
    }
}

/// Lets a schedule happen between two ends.
fn play_schedule(
    alloc: Global,
    a: &mut End,
    b: &mut End,
    tx: usize,
    rx: usize,
    datagrams: &[Datagram],
    schedule: &[Event],
) -> Result<Vec<Played>, AllocError>
    requires sender { is_sender_at a.old tx ≡ true }
    requires receiver { is_receiver_at b.old rx ≡ true }
    ensures answers { let sent = source_at a.old tx datagrams.now in
        IfOk result (λ all. all.items ≡ played sent rx b.old schedule.now) }
    ensures repaired { let sent = source_at a.old tx datagrams.now in
        OnOk result (a.new ≡ after_repairs a.old tx sent schedule.now) }
    ensures after { let sent = source_at a.old tx datagrams.now in
        OnOk result (b.new ≡ after_schedule sent rx b.old schedule.now) }
    ensures some { let sent = source_at a.old tx datagrams.now in
        OnErr result (PlaysSome sent tx rx a.old b.old schedule.now a.new b.new) }
{
    let mut all = Vec::new(alloc);
    for event in schedule {
        let answer = play_event(a, b, tx, rx, datagrams, event)?;
        keep(&mut all, answer)?;
    }
    Ok(all)
}

/// Lets an event happen.
fn play_event(
    a: &mut End,
    b: &mut End,
    tx: usize,
    rx: usize,
    datagrams: &[Datagram],
    event: &Event,
) -> Result<Option<Played>, AllocError>
    requires sender { is_sender_at a.old tx ≡ true }
    requires receiver { is_receiver_at b.old rx ≡ true }
    ensures answer { let sent = source_at a.old tx datagrams.now in
        IfOk result (λ answer. option_to_list answer ≡ answers_to sent rx b.old event.now) }
    ensures made { let sent = source_at a.old tx datagrams.now in
        OnOk result (a.new ≡ after_made a.old tx (made_at sent event.now)) }
    ensures after { let sent = source_at a.old tx datagrams.now in
        OnOk result (b.new ≡ after_event sent rx b.old event.now) }
    ensures stops { let sent = source_at a.old tx datagrams.now in
        OnErr result (StopsAt sent tx rx a.old b.old event.now a.new b.new) }
{
    match event {
        Event::Arrive(k) => match datagrams.get(*k) {
            Some(datagram) => receive(b, datagram.as_slice()),
            None => Ok(None),
        },
        Event::Repair(k) => repair_at(a, b, tx, datagrams, *k),
        Event::Foreign(bytes) => receive(b, bytes.as_slice()),
        Event::Poll => poll(b, rx),
    }
}

/// Has the k-th datagram retransmitted, and passes it on; nothing happens if there is none.
fn repair_at(
    a: &mut End,
    b: &mut End,
    tx: usize,
    datagrams: &[Datagram],
    k: usize,
) -> Result<Option<Played>, AllocError>
    requires { is_sender_at a.old tx ≡ true }
    ensures answer { let made = repair_at (source_at a.old tx datagrams.now) k in
        IfOk result (λ answer. option_to_list answer ≡ answers_on b.old made) }
    ensures made { let made = repair_at (source_at a.old tx datagrams.now) k in
        OnOk result (a.new ≡ after_made a.old tx made) }
    ensures after { let made = repair_at (source_at a.old tx datagrams.now) k in
        OnOk result (b.new ≡ after_bytes b.old (bytes_of made)) }
    ensures unfinished { let made = repair_at (source_at a.old tx datagrams.now) k in
        OnErr result ((a.new ≡ a.old) ⊎ (a.new ≡ after_made a.old tx made)) }
    ensures unchanged { OnErr result (b.new ≡ b.old) }
{
    match datagrams.get(k) {
        Some(datagram) => repair(a, b, tx, datagram.as_slice()),
        None => Ok(None),
    }
}

/// Puts an answer after others, if there is one.
fn keep(all: &mut Vec<Played>, answer: Option<Played>) -> Result<(), AllocError>
    ensures { OnOk result (all.new.items ≡ all.old.items ++ option_to_list answer) }
{
    if let Some(answer) = answer {
        all.push(answer)?;
    }
    Ok(())
}
