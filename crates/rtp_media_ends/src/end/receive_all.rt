//! Datagrams received one after the other, and then all units that are ready.

ghost use Rattle.std.specs.Prelude.{◌≡◌, ℕ, List, OnOk, OnErr, IfOk};
ghost use Rattle.payload_core_buffer.specs.Buffered.{Holding};
ghost use Rattle.rtp_media_streams.specs.Polls.{AreAnswered};
ghost use Rattle.rtp_media_streams.specs.Sending.{Sample, Sending};
ghost use Rattle.rtp_media_ends.specs.Ends.{with_streams};
ghost use Rattle.rtp_media_ends.specs.FullArrival.{verdicts_of, after_datagrams, units_of};
ghost use Rattle.rtp_media_stream_table.specs.Polled.{answers_at};
ghost use Rattle.rtp_media_stream_table.specs.Polled.{ArePolledOut};
ghost use Rattle.rtp_media_ends.specs.FullArrival.{HasAllOf, ReceivesAndPollsSome, ReceivesSome};

use super::End;
use h26x_payload::codec_law;
use rtp_media_stream_table::{Polls, ReceiveError, Received};
use rtp_media_streams::Datagram;

/// What `End::receive_all` answers.
#[derive(Drop)]
pub struct ReceivedAll {
    /// What was said of each datagram, in order.
    pub verdicts: Vec<Received>,
    /// What each stream returned to its polls, by its number; one that sends is not polled.
    pub polls: Vec<Polls>,
}

impl End {
    /// Takes datagrams in, one after the other, and then polls each receiving stream, in rising
    /// number, until it returns None or memory for a unit runs out, which is its last answer then.
    ///
    /// # Errors
    /// `ReceiveError::Memory`, after a part of that was done: some first datagrams were received, or all were and
    /// streams were polled some times.
    pub fn receive_all(&mut self, datagrams: &[Datagram]) -> Result<ReceivedAll, ReceiveError>
        ensures verdicts { IfOk result (λ all. all.verdicts.items ≡ verdicts_of self.old datagrams.now) }
        ensures polls { IfOk result (λ all. ArePolledOut (after_datagrams self.old datagrams.now).streams
            all.polls.items self.new.streams) }
        ensures others { OnOk result (self.new ≡ with_streams (after_datagrams self.old datagrams.now)
            self.new.streams) }
        // All datagrams of a stream's samples came: its polls return exactly the canonical units, unless
        // memory for one ran out.
        ensures exact { IfOk result (λ all. (stream : ℕ) (holding : Holding) (sender : Sending)
            (samples : List Sample) (arrivals : List ℕ) →
            HasAllOf self.old stream holding sender samples arrivals datagrams.now →
            AreAnswered (units_of sender samples) (answers_at all.polls.items stream)) }
        ensures memory { OnErr result (ReceivesAndPollsSome self.old datagrams.now self.new) }
    {
        codec_law();
        let verdicts = self.receive_each(datagrams)?;
        let polls = self.streams.poll_out()?;
        Ok(ReceivedAll { verdicts, polls })
    }

    /// Takes datagrams in, one after the other.
    fn receive_each(&mut self, datagrams: &[Datagram]) -> Result<Vec<Received>, ReceiveError>
        ensures verdicts { IfOk result (λ verdicts. verdicts.items ≡ verdicts_of self.old datagrams.now) }
        ensures after { OnOk result (self.new ≡ after_datagrams self.old datagrams.now) }
        ensures some { OnErr result (ReceivesSome self.old datagrams.now self.new) }
    {
        let mut verdicts = Vec::new(self.alloc);
        for datagram in datagrams {
            let verdict = self.receive(datagram.as_slice())?;
            verdicts.push(verdict)?;
        }
        Ok(verdicts)
    }
}
