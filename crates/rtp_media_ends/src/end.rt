//! An end of a session.

ghost use Rattle.std.specs.Prelude.{◌≡◌, ◌≤◌, [], true, length, OnErr, IfOk, IfErr};
ghost use Rattle.rtp_media_streams.specs.PacketSteps.{MakesBy};
ghost use Rattle.rtp_media_streams.specs.SendSteps.{SendsBy, left_in, returned};
ghost use Rattle.rtp_media_streams.specs.Sending.{skipped_to};
ghost use Rattle.rtp_media_sections.specs.Agreement.{agreed_row_of};
ghost use Rattle.rtp_media_ends.specs.Ends.{agreed_red, fixed_end, sender_at, with_sender, is_receiver_at};
ghost use Rattle.rtp_media_ends.specs.Ends.{is_sender_at};
ghost use Rattle.rtp_media_ends.specs.PacketSteps.{repair_step_at};
ghost use Rattle.rtp_media_ends.specs.SendSteps.{send_step_at};

mod closing;
mod exchanges;
mod forwarding;
mod openings;
mod receive_all;
mod receiving;

pub use exchanges::connect;
pub use receive_all::ReceivedAll;
use rtp_media_exchange::{EndError, Exchange};
use rtp_media_sections::AgreedSection;
use rtp_media_stream_table::StreamTable;
use rtp_media_streams::{Datagram, RepairError, SampleError};
use rtp_wire::{ExtensionValues, Frequency, MediaTime, Mid, Pt};
use sdp_formats_rounds::CodecConfig;
use sdp_formats_rows::PayloadParams;
use std::alloc::Global;
use std::marker::Model;

/// An end of a session: what it agreed on with the other end, and its streams.
pub struct End {
    alloc: Global,
    exchange: Exchange,
    streams: StreamTable,
}

/// Written by hand, so that crates that drop this type need no proof about its fields.
impl Drop for End {
    fn drop(self) {
        let End {
            alloc: _alloc,
            exchange: _exchange,
            streams: _streams,
        } = self;
    }
}

impl Model for End {
    ghost use Rattle.rtp_media_ends.specs.Ends.{EndState};
    ghost use Rattle.rtp_wire.specs.Replay.{window_code};
    ghost use Rattle.std.specs.Coded.{codes};

    ghost Value = { EndState };

    ghost coded = { Prim.hlevel (codes, window_code) };

    ghost view = { λ e. record {
      exchange = e.exchange;
      streams = e.streams;
    } };
}

impl End {
    /// An end of session id 0 that has agreed on one section with another such end, without an
    /// exchange: `0`, audio both ways, Opus at payload type 111, SSRC 44 at either side.
    ///
    /// # Errors
    /// `EndError::Memory`.
    pub fn fixed(alloc: Global) -> Result<Self, EndError>
        ensures end { IfOk result (λ e. e ≡ fixed_end) }
        ensures refused { IfErr result (λ e. e ≡ EndError.Memory) }
    {
        Ok(End {
            alloc,
            exchange: Exchange::fixed(alloc)?,
            streams: StreamTable::new(alloc),
        })
    }

    /// The rows of the end, in order of preference, as the exchanges so far left them: those that were matched are
    /// locked under their payload types.
    pub fn config(&self) -> &CodecConfig
        ensures { result.now ≡ self.now.exchange.config }
    {
        self.exchange.config()
    }

    /// The sections that were agreed on last, in the order of the texts: what each is called, which way media flows,
    /// its rows, and the SSRCs that the other end names.
    pub fn agreed_sections(&self) -> &[AgreedSection]
        ensures { result.now ≡ self.now.exchange.agreed }
    {
        self.exchange.agreed_sections()
    }

    /// The agreed row of a payload type in a section: the first of that type in the answer.
    pub fn agreed_row(&self, mid: Mid, pt: Pt) -> Option<PayloadParams>
        ensures { result ≡ agreed_row_of self.now.exchange.agreed mid pt }
    {
        self.exchange.agreed(mid)?.row_of(pt)
    }

    /// The RED type of that row (RFC 2198): a sending stream of it may add redundancy if and only
    /// if it has one.
    pub fn agreed_red(&self, mid: Mid, pt: Pt) -> Option<Pt>
        ensures { result ≡ agreed_red self.now mid pt }
    {
        self.agreed_row(mid, pt)?.red()
    }

    /// Whether this is the number of a sending stream.
    pub fn is_sender(&self, stream: usize) -> bool
        ensures { result ≡ is_sender_at self.now stream }
    {
        self.streams.is_sender(stream)
    }

    /// Whether this is the number of a receiving stream.
    pub fn is_receiver(&self, stream: usize) -> bool
        ensures { result ≡ is_receiver_at self.now stream }
    {
        self.streams.is_receiver(stream)
    }

    /// The clock rate of a sending stream's samples, in ticks a second.
    ///
    /// # Conditions
    /// The number is that of a sending stream: [`End::is_sender`].
    pub fn clock_rate(&self, stream: usize) -> Frequency
        requires { is_sender_at self.now stream ≡ true }
        ensures { result ≡ (sender_at self.now stream).row.clock_rate }
    {
        self.streams.clock_rate(stream)
    }

    /// The number that the next datagram of a sending stream's samples gets.
    ///
    /// # Conditions
    /// The number is that of a sending stream: [`End::is_sender`].
    pub fn next_number(&self, stream: usize) -> u64
        requires { is_sender_at self.now stream ≡ true }
        ensures { result ≡ (sender_at self.now stream).next }
    {
        self.streams.next_number(stream)
    }

    /// Leaves numbers of a sending stream out: those from its next number up to this one are never sent by a sample. A
    /// number that isn't above the next one changes nothing. With [`End::next_number`], streams of one SSRC and several
    /// payload types can be numbered as one (RFC 3550 5.1), as receivers and SRTP ask.
    ///
    /// # Conditions
    /// The number is that of a sending stream: [`End::is_sender`].
    pub fn skip_to(&mut self, stream: usize, number: u64)
        requires { is_sender_at self.old stream ≡ true }
        ensures { self.new ≡ with_sender self.old stream (skipped_to (sender_at self.old stream) number) }
    {
        let streams = &mut self.streams;
        streams.skip_to(stream, number);
    }

    /// The datagrams of a sample, which a sending stream sends: its packets of at most `mtu` bytes,
    /// under consecutive numbers, each with all values that the stream's map has a number for. A
    /// sample without packets has none and uses no number.
    ///
    /// The bytes are a sample of the row's codec: what an encoder made, of AV1 the OBUs of a temporal unit, of H.264,
    /// H.265 and H.266 an access unit with start codes (ITU-T H.264 annex B).
    ///
    /// # Conditions
    /// The number is that of a sending stream: [`End::is_sender`].
    ///
    /// # Errors
    /// The first that holds of `StreamFailed`, `TimeTooLarge`, `LimitTooSmall` and `Payload`, and the end is
    /// unchanged; or `Memory`, and the stream sends no more, while all else is unchanged.
    pub fn push_sample(
        &mut self,
        stream: usize,
        time: MediaTime,
        bytes: &[u8],
        values: &ExtensionValues,
    ) -> Result<Vec<Datagram>, SampleError>
        requires { is_sender_at self.old stream ≡ true }
        ensures sends { SendsBy (send_step_at self.old stream time values.now bytes.now) self.new (returned result) }
    {
        let streams = &mut self.streams;
        streams.push_sample(stream, time, bytes, values)
    }

    /// The datagrams of a sample, as [`End::push_sample`] gives them, in place of what a list has. A caller that hands
    /// the same list over each time has its memory used again, and that of its last datagram for a sample that is one
    /// payload, without redundancy, as of audio: such samples then ask for no memory.
    ///
    /// # Conditions
    /// The number is that of a sending stream: [`End::is_sender`].
    ///
    /// # Errors
    /// Those of [`End::push_sample`]; the list is then empty.
    pub fn push_sample_into(
        &mut self,
        stream: usize,
        time: MediaTime,
        bytes: &[u8],
        values: &ExtensionValues,
        datagrams: &mut Vec<Datagram>,
    ) -> Result<(), SampleError>
        requires { is_sender_at self.old stream ≡ true }
        ensures sends { SendsBy (send_step_at self.old stream time values.now bytes.now) self.new
            (left_in datagrams.new.items result) }
        ensures empty { OnErr result (datagrams.new.items ≡ []) }
    {
        let streams = &mut self.streams;
        streams.push_sample_into(stream, time, bytes, values, datagrams)
    }

    /// The repair of a datagram that a sending stream sent (RFC 4588 4): the datagram under the SSRC, the type and the
    /// next number of the stream's repairs, with the two bytes of its own number after the header. All other bytes
    /// stay: marker, timestamp, header extensions, padding. It has at most `limit` bytes. A stream that failed repairs
    /// too.
    ///
    /// # Conditions
    /// The number is that of a sending stream: [`End::is_sender`].
    ///
    /// # Errors
    /// The first that holds of `NoRepair`, `NotOwn` and `LimitTooSmall`; or `Memory`. The end is then unchanged.
    pub fn repair(&mut self, stream: usize, datagram: &[u8]) -> Result<Datagram, RepairError>
        requires { is_sender_at self.old stream ≡ true }
        ensures repairs { MakesBy (repair_step_at self.old stream datagram.now) self.new result }
        ensures within { IfOk result (λ d. length d ≤ (sender_at self.old stream).limit) }
    {
        let streams = &mut self.streams;
        streams.repair(stream, datagram)
    }
}
