//! Packets that are sent on without being put together.

ghost use Rattle.std.specs.Prelude.{◌≡◌, ◌≤◌, length, slice_range, true, IfErr, IfOk};
ghost use Rattle.payload_core_base.specs.Outgoing.{outgoing};
ghost use Rattle.rtp_media_streams.specs.PacketSteps.{MakesBy};
ghost use Rattle.rtp_media_streams.specs.Receiving.{number_taken, taken_number, with_stream};
ghost use Rattle.rtp_media_stream_table.specs.Arrivals.{Own, arrival_at};
ghost use Rattle.rtp_media_ends.specs.EndArrivals.{verdict_of, after_datagram};
ghost use Rattle.rtp_media_ends.specs.Ends.{is_receiver_at, is_sender_at, receiver_at, sender_at, with_receiver};
ghost use Rattle.rtp_media_ends.specs.PacketSteps.{packet_step_at};

use super::End;
use rtp_media_stream_table::Received;
use rtp_media_streams::{Arrival, Datagram, ForwardError};
use rtp_wire::{ExtensionValues, SeqNo};

impl End {
    /// The receiving stream whose own a datagram is, and how it arrives there: the low bits of its number, its
    /// timestamp and marker, the values of its header extensions, and the place of its payload. A repair brings what it
    /// wraps. It changes nothing.
    ///
    /// # Errors
    /// What [`End::receive`] says of another datagram: `Unreadable`, `Foreign` or `Damaged`.
    pub fn arrival(&self, datagram: &[u8]) -> Result<(usize, Arrival), Received>
        ensures own { IfOk result (λ f. arrival_at self.now.streams datagram.now ≡ Own f.0 f.1.low f.1.time f.1.marker
            f.1.ext_vals (slice_range datagram.now f.1.start f.1.end)) }
        ensures receives { IfOk result (λ f. is_receiver_at self.now f.0 ≡ true) }
        ensures within { IfOk result (λ f. (f.1.start ≤ f.1.end) × (f.1.end ≤ length datagram.now)) }
        ensures verdict { IfErr result (λ v. v ≡ verdict_of self.now datagram.now) }
        ensures stays { IfErr result (λ v. after_datagram self.now datagram.now ≡ self.now) }
    {
        self.streams.arrival(datagram)
    }

    /// Takes the number alone of a datagram that arrived at a receiving stream, and returns it widened; None if it
    /// was taken before, or is 1,024 or more below the greatest one taken. For a datagram that is sent on: nothing
    /// waits to be polled.
    ///
    /// # Conditions
    /// The number is that of a receiving stream: [`End::is_receiver`].
    pub fn take_number(&mut self, stream: usize, low: u16) -> Option<SeqNo>
        requires { is_receiver_at self.old stream ≡ true }
        ensures answer { result ≡ taken_number (receiver_at self.old stream).stream low }
        ensures after { self.new ≡ with_receiver self.old stream (with_stream (receiver_at self.old stream)
            (number_taken (receiver_at self.old stream).stream low)) }
    {
        let streams = &mut self.streams;
        streams.take_number(stream, low)
    }

    /// One packet of another stream as a datagram of a sending stream: this payload under this number, timestamp and
    /// marker, with all values that the stream's map has a number for. Numbers may come in any order. The stream's
    /// samples are numbered above them, and its repairs are those of these datagrams too.
    ///
    /// # Conditions
    /// The number is that of a sending stream: [`End::is_sender`].
    ///
    /// # Errors
    /// The first that holds of `AddsRedundancy`, `NumberTooLarge`, `NoPayload` and `LimitTooSmall`; or `Memory`. The
    /// end is then unchanged.
    pub fn send_packet(
        &mut self,
        stream: usize,
        number: u64,
        time: u32,
        marker: bool,
        values: &ExtensionValues,
        payload: &[u8],
    ) -> Result<Datagram, ForwardError>
        requires { is_sender_at self.old stream ≡ true }
        ensures sends { let packet = outgoing payload.now marker time values.now in
            MakesBy (packet_step_at self.old stream number packet) self.new result }
        ensures within { IfOk result (λ d. length d ≤ (sender_at self.old stream).limit) }
    {
        let streams = &mut self.streams;
        streams.send_packet(stream, number, time, marker, values, payload)
    }
}
