//! Datagrams that come, and the units that are ready.

ghost use Rattle.std.specs.Prelude.{◌≡◌, ◌≤◌, true, OnOk, OnErr, IfErr, IfOk};
ghost use Rattle.payload_core_buffer.specs.Steps.{AnswersBy};
ghost use Rattle.rtp_media_streams.specs.Polls.{IsPolled, IsPolledSome, drain_step, found, poll_step};
ghost use Rattle.rtp_media_ends.specs.EndArrivals.{verdict_of, after_datagram};
ghost use Rattle.payload_core_buffer.specs.Buffered.{is_done};
ghost use Rattle.payload_core_buffer.specs.Sizes.{bytes_of};
ghost use Rattle.rtp_media_streams.specs.Limits.{fragment_len, is_next, kept_within, passed_empty};
ghost use Rattle.rtp_media_streams.specs.Rows.{format_of};
ghost use Rattle.rtp_media_streams.specs.Missing.{missing};
ghost use Rattle.rtp_media_streams.specs.Passing.{passed_to};
ghost use Rattle.rtp_media_streams.specs.Receiving.{with_stream};
ghost use Rattle.rtp_media_ends.specs.Ends.{AtReceiver, is_receiver_at, receiver_at, with_receiver};

use super::End;
use payload_core_buffer::Unit;
use rtp_media_stream_table::{ReceiveError, Received};
use rtp_media_streams::PollFault;
use rtp_wire::SeqNo;
use std::alloc::{AllocError, AllocFailed};

impl End {
    /// Takes a datagram in, and says what it is: of the stream whose SSRC and one of whose payload types
    /// it has, a number that is new is recorded and its payload waits to be polled. Under the RED type
    /// the payload is the primary one.
    ///
    /// # Errors
    /// `ReceiveError::Memory`; the end is unchanged.
    pub fn receive(&mut self, datagram: &[u8]) -> Result<Received, ReceiveError>
        ensures verdict { IfOk result (λ v. v ≡ verdict_of self.old datagram.now) }
        ensures after { OnOk result (self.new ≡ after_datagram self.old datagram.now) }
        ensures unchanged { OnErr result (self.new ≡ self.old) }
    {
        let streams = &mut self.streams;
        streams.receive(datagram)
    }

    /// Takes a datagram in without a copy, for callers that own it: its verdict is that of [`End::receive`].
    ///
    /// # Errors
    /// Out of memory, which hands the datagram back; the end is unchanged.
    pub fn receive_owned(&mut self, datagram: Vec<u8>) -> Result<Received, AllocFailed<Vec<u8>>>
        ensures verdict { IfOk result (λ v. v ≡ verdict_of self.old datagram.items) }
        ensures after { OnOk result (self.new ≡ after_datagram self.old datagram.items) }
        ensures unchanged { OnErr result (self.new ≡ self.old) }
        ensures handed_back { IfErr result (λ e. e.value ≡ datagram) }
    {
        let streams = &mut self.streams;
        streams.receive_owned(datagram)
    }

    /// Whether a number of a receiving stream is done with: a unit with this number or one above it was handed out, or
    /// a frame with it was refused. A datagram of such a number is of no use any more.
    ///
    /// # Conditions
    /// The number is that of a receiving stream: [`End::is_receiver`].
    pub fn is_passed(&self, stream: usize, number: SeqNo) -> bool
        requires { is_receiver_at self.now stream ≡ true }
        ensures { result ≡ is_done (receiver_at self.now stream).stream.cutoff number }
    {
        self.streams.is_passed(stream, number)
    }

    /// Is done with all numbers of a receiving stream up to this one: what waits of them is dropped, a fragment that is
    /// open between units is given up, and the frame after the number is next, so that hold-back protects it. A number
    /// that is done with already changes nothing.
    ///
    /// So a stream begins with a key frame: before the first poll, pass to the number before its first packet. So it
    /// goes on at once after a loss that nobody repairs, and so what it holds is given back.
    ///
    /// # Conditions
    /// The number is that of a receiving stream: [`End::is_receiver`].
    pub fn pass_to(&mut self, stream: usize, number: SeqNo)
        requires { is_receiver_at self.old stream ≡ true }
        ensures { self.new ≡ with_receiver self.old stream (with_stream (receiver_at self.old stream)
            (passed_to number (receiver_at self.old stream).stream)) }
    {
        let streams = &mut self.streams;
        streams.pass_to(stream, number);
    }

    /// Tells a receiving stream that a number carries nothing for it, as one of padding alone (RFC 3550 5.1), or of
    /// another payload type of its SSRC, and is done with it if it is the next after the last that is done with: no
    /// frame then waits for it. Returns whether it was; if not, it may be told again after the next unit.
    ///
    /// # Conditions
    /// The number is that of a receiving stream: [`End::is_receiver`].
    pub fn pass_empty(&mut self, stream: usize, number: SeqNo) -> bool
        requires { is_receiver_at self.old stream ≡ true }
        ensures passed { result ≡ is_next (receiver_at self.old stream).stream.cutoff number }
        ensures after { self.new ≡ with_receiver self.old stream (with_stream (receiver_at self.old stream)
            (passed_empty number (receiver_at self.old stream).stream)) }
    {
        let streams = &mut self.streams;
        streams.pass_empty(stream, number)
    }

    /// Gives memory of a receiving stream back: of the packets that wait those with the highest numbers stay, whose
    /// payloads have at most `bytes` bytes together, and the stream is done with the numbers below them. A fragment
    /// that is open between units is given up if any packet went, or if it has more bytes.
    ///
    /// A call each time so many bytes came in keeps the stream within twice as many, whatever a peer sends; it looks at
    /// each packet that waits.
    ///
    /// # Conditions
    /// The number is that of a receiving stream: [`End::is_receiver`].
    pub fn keep_within(&mut self, stream: usize, bytes: usize)
        requires { is_receiver_at self.old stream ≡ true }
        ensures after { self.new ≡ with_receiver self.old stream (with_stream (receiver_at self.old stream)
            (kept_within bytes (receiver_at self.old stream).stream)) }
        ensures packets { bytes_of (receiver_at self.new stream).stream.held ≤ bytes }
        ensures fragment { fragment_len (receiver_at self.new stream).stream.fragment ≤ bytes }
    {
        let streams = &mut self.streams;
        streams.keep_within(stream, bytes);
    }

    /// Whether a frame of a receiving stream ends with a packet, by its marker bit and its payload without padding:
    /// what [`Forwarder::forward`](rtp_media_forward::Forwarder::forward) is told.
    ///
    /// # Conditions
    /// The number is that of a receiving stream: [`End::is_receiver`].
    pub fn ends_frame(&self, stream: usize, marker: bool, payload: &[u8]) -> bool
        requires { is_receiver_at self.now stream ≡ true }
        ensures { result ≡ (format_of (receiver_at self.now stream).row).tail marker payload.now }
    {
        self.streams.ends_frame(stream, marker, payload)
    }

    /// The missing numbers of a receiving stream, in increasing order: those after the last unit's, or, before any
    /// unit, after the lowest number that waits or was taken, that were not taken, below the greatest that was and
    /// within the replay window. These, and no others, are worth asking for (generic NACK, RFC 4585 6.2.1); they are at
    /// most 1,023.
    ///
    /// # Conditions
    /// The number is that of a receiving stream: [`End::is_receiver`].
    ///
    /// # Errors
    /// Out of memory for the list.
    pub fn missing(&self, stream: usize) -> Result<Vec<SeqNo>, AllocError>
        requires { is_receiver_at self.now stream ≡ true }
        ensures { IfOk result (λ numbers. numbers.items ≡ missing (receiver_at self.now stream).stream) }
    {
        self.streams.missing(stream)
    }

    /// The next unit of a receiving stream, if one is ready: the lowest one, if it begins right
    /// after the last one that was handed out, or nothing was, or more frames are complete than are
    /// held back. Fewer packets are then held.
    ///
    /// # Conditions
    /// The number is that of a receiving stream: [`End::is_receiver`].
    ///
    /// # Errors
    /// `PollFault::Payload` if a packet of the next frame is refused, which is then done with; or
    /// `PollFault::Memory`, only if a frame is ready, and it stays, while some of its packets may have
    /// been read. All else is unchanged.
    pub fn poll(&mut self, stream: usize) -> Result<Option<Unit>, PollFault>
        requires { is_receiver_at self.old stream ≡ true }
        ensures answers { AtReceiver self.old stream (λ r s. AnswersBy (poll_step r) s (found result)) self.new }
    {
        let streams = &mut self.streams;
        streams.poll(stream)
    }

    /// The lowest complete unit of a receiving stream, whether or not a datagram before it is missing: a poll that
    /// holds no complete frame back. For the end of a stream, when nothing more will come; None if no frame is
    /// complete.
    ///
    /// # Conditions
    /// The number is that of a receiving stream: [`End::is_receiver`].
    ///
    /// # Errors
    /// Those of [`End::poll`].
    pub fn drain(&mut self, stream: usize) -> Result<Option<Unit>, PollFault>
        requires { is_receiver_at self.old stream ≡ true }
        ensures answers { AtReceiver self.old stream (λ r s. AnswersBy (drain_step r) s (found result)) self.new }
    {
        let streams = &mut self.streams;
        streams.drain(stream)
    }

    /// Polls a receiving stream until no unit is ready or memory for one runs out, and returns what the polls
    /// answered, in order.
    ///
    /// # Conditions
    /// The number is that of a receiving stream: [`End::is_receiver`].
    ///
    /// # Errors
    /// `AllocError` if memory for that list runs out: what was polled is lost, and nothing else changes.
    pub fn poll_all(&mut self, stream: usize) -> Result<Vec<Result<Unit, PollFault>>, AllocError>
        requires { is_receiver_at self.old stream ≡ true }
        ensures polled { IfOk result (λ answers. AtReceiver self.old stream
            (λ r s. IsPolled poll_step r answers.items s) self.new) }
        ensures some { OnErr result (AtReceiver self.old stream (IsPolledSome poll_step) self.new) }
    {
        let streams = &mut self.streams;
        streams.poll_all(stream)
    }
}
