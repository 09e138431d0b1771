//! Numbers that a receiving stream misses, and those that it shall not wait for.

ghost use Rattle.std.specs.List.{range_with_len};
ghost use Rattle.std.specs.Prelude.{◌≡◌, ◌-◌, ◌≤◌, ◌&&◌, IfOk, Some, filter, nat_lt};
ghost use Rattle.payload_core_buffer.specs.Buffered.{is_done};
ghost use Rattle.payload_core_buffer.specs.Sizes.{bytes_of, excess};
ghost use Rattle.rtp_media_streams.specs.Limits.{closed, fragment_len, is_next, kept_within, passed_empty};
ghost use Rattle.rtp_media_streams.specs.Limits.{passed_if};
ghost use Rattle.rtp_media_streams.specs.Missing.{begin_of, in_reach, lowest_taken, missing, missing_in};
ghost use Rattle.rtp_wire.specs.Replay.{accepts};
ghost use Rattle.rtp_media_streams.specs.Passing.{passed_to};
ghost use Rattle.rtp_media_streams.specs.Receiving.{with_stream};
ghost use Rattle.rtp_media_streams.specs.Rows.{format_of};

use super::ReceivingStream;
use crate::codecs::depacketizer_for;
use payload_core_base::Depacketizer;
use rtp_wire::{SeqNo, SeqNoWindow};
use std::alloc::{AllocError, Global};

/// How many numbers below the greatest a window covers.
const REACH_BELOW: u64 = 1023;

/// The lowest number that a window has recorded, of those that it reaches.
fn lowest_taken(window: &SeqNoWindow) -> SeqNo
    ensures { result ≡ lowest_taken window.now }
{
    let greatest = window.max_seq().get();
    for number in greatest.saturating_sub(REACH_BELOW)..greatest {
        if !window.accepts(SeqNo::from(number)) {
            return SeqNo::from(number);
        }
    }
    SeqNo::from(greatest)
}

/// Where a stream begins before any unit, given the lowest number that is held and the lowest that was taken.
fn begin_of(held: Option<SeqNo>, taken: SeqNo) -> SeqNo
    ensures { result ≡ begin_of held taken }
{
    match held {
        Some(held) => SeqNo::from(held.get().min(taken.get())),
        None => taken,
    }
}

/// The numbers from `first` on that the window hasn't recorded, below its greatest.
fn not_recorded(alloc: Global, first: u64, window: &SeqNoWindow) -> Result<Vec<SeqNo>, AllocError>
    ensures { IfOk result (λ numbers. numbers.items
        ≡ filter (λ y. accepts window.now y) (range_with_len first (window.now.greatest - first))) }
{
    (first..window.max_seq().get())
        .map(SeqNo::from)
        .filter(|number| window.accepts(*number))
        .collect(alloc)
}

/// The numbers after this one that the window reaches and hasn't recorded, below its greatest.
fn missing_after(alloc: Global, last: SeqNo, window: &SeqNoWindow) -> Result<Vec<SeqNo>, AllocError>
    ensures { IfOk result (λ numbers. numbers.items
        ≡ filter (λ y. nat_lt last y && accepts window.now y) (in_reach window.now)) }
{
    let reached = window.max_seq().get().saturating_sub(REACH_BELOW);
    not_recorded(alloc, last.get().saturating_add(1).max(reached), window)
}

/// The numbers that are waited for, among those that the window reaches and hasn't recorded.
fn missing_in(
    alloc: Global,
    cutoff: Option<SeqNo>,
    lowest: Option<SeqNo>,
    window: &SeqNoWindow,
) -> Result<Vec<SeqNo>, AllocError>
    ensures { IfOk result (λ numbers. numbers.items ≡ missing_in cutoff lowest (Some window.now)) }
{
    match cutoff {
        Some(cutoff) => missing_after(alloc, cutoff, window),
        None => missing_after(alloc, begin_of(lowest, lowest_taken(window)), window),
    }
}

impl ReceivingStream {
    /// Whether a number is done with: a unit with this number or one above it was handed out, or a frame with it was
    /// refused. A datagram with such a number is of no use any more.
    pub fn is_passed(&self, number: SeqNo) -> bool
        ensures { result ≡ is_done self.now.stream.cutoff number }
    {
        match self.buffer.cutoff() {
            Some(cutoff) => number.get() <= cutoff.get(),
            None => false,
        }
    }

    /// Is done with all numbers up to this one: what waits of them is dropped, a fragment that is open between units is
    /// given up, and the frame after the number is next, so that hold-back protects it. A number that is done with
    /// already changes nothing.
    pub fn pass_to(&mut self, number: SeqNo)
        ensures { self.new ≡ with_stream self.old (passed_to number self.old.stream) }
    {
        if self.is_passed(number) {
            return;
        }
        self.buffer.pass_to(number);
        let depacketizer = depacketizer_for(self.alloc, &self.row);
        self.buffer.set_depacketizer(depacketizer);
    }

    /// Is told that a number carries nothing for this stream, as one of padding alone (RFC 3550 5.1), or of another
    /// payload type of its SSRC, and is done with it if it is the next after the last that is done with: no frame then
    /// waits for it. Returns whether it was; if not, it may be told again after the next unit.
    pub fn pass_empty(&mut self, number: SeqNo) -> bool
        ensures passed { result ≡ is_next self.old.stream.cutoff number }
        ensures after { self.new ≡ with_stream self.old (passed_empty number self.old.stream) }
    {
        match self.buffer.cutoff() {
            Some(cutoff) if cutoff.is_next(number) => {
                self.pass_to(number);
                true
            }
            _ => false,
        }
    }

    /// Gives memory back: of the packets that wait those with the highest numbers stay, whose payloads have at most
    /// `bytes` bytes together, and it is done with the numbers below them; a fragment that is open between units is
    /// given up if any packet went, or if it has more bytes. It looks at each packet that waits, at most `held`.
    pub fn keep_within(&mut self, bytes: usize)
        ensures after { self.new ≡ with_stream self.old (kept_within bytes self.old.stream) }
        ensures packets { bytes_of self.new.stream.held ≤ bytes }
        ensures fragment { fragment_len self.new.stream.fragment ≤ bytes }
    {
        self.keep_packets_within(bytes);
        if self.buffer.depacketizer().fragment_len() > bytes {
            self.close_fragment();
        }
    }

    /// Keeps the packets that wait within a limit of bytes; a fragment is given up if any packet went.
    fn keep_packets_within(&mut self, bytes: usize)
        ensures after { self.new ≡ with_stream self.old (passed_if (excess bytes self.old.stream.held)
            self.old.stream) }
        ensures packets { bytes_of self.new.stream.held ≤ bytes }
    {
        if self.buffer.keep_within(bytes) {
            self.close_fragment();
        }
    }

    /// Gives an open fragment up.
    fn close_fragment(&mut self)
        ensures { self.new ≡ with_stream self.old (closed self.old.stream) }
    {
        let depacketizer = depacketizer_for(self.alloc, &self.row);
        self.buffer.set_depacketizer(depacketizer);
    }

    /// Whether a frame ends with a packet of this stream's, by its marker bit and its payload, as a forwarder asks.
    pub fn ends_frame(&self, marker: bool, payload: &[u8]) -> bool
        ensures { result ≡ (format_of self.now.row).tail marker payload.now }
    {
        self.buffer
            .depacketizer()
            .is_partition_tail(marker, payload)
    }

    /// The missing numbers, in increasing order: those after the last unit's, or, before any unit, after the lowest
    /// number that waits or was taken, that were not taken, below the greatest that was and within the replay window.
    /// These, and no others, are worth asking for (generic NACK, RFC 4585 6.2.1); they are at most 1,023. So a stream
    /// whose numbers are only taken, to send its packets on, tells its gaps too.
    ///
    /// # Errors
    /// Out of memory for the list.
    pub fn missing(&self) -> Result<Vec<SeqNo>, AllocError>
        ensures { IfOk result (λ numbers. numbers.items ≡ missing self.now.stream) }
    {
        match &self.window {
            Some(window) => missing_in(
                self.alloc,
                self.buffer.cutoff(),
                self.buffer.lowest(),
                window,
            ),
            None => Ok(Vec::new(self.alloc)),
        }
    }
}
