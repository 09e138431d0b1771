//! The commands of lines.

use crate::exchange::{
    AcceptCommand, AnswerCommand, ConnectCommand, EndCommand, ExtCommand, OfferCommand, RowCommand,
};
use crate::owned::{Bytes, Word};
use crate::play_words::{PlayCommand, QueueCommand};
use crate::relay_words::RelayCommand;
use crate::words::Letter;

/// `send E MID SSRC PT FIRST MTU LIMIT DISTANCES PICTUREID`: open a sending stream.
#[derive(Drop)]
pub struct SendCommand {
    /// The end that sends.
    pub letter: Letter,
    /// The media identification of the section (RFC 5888 4).
    pub mid: Word,
    /// The synchronization source (RFC 3550 3).
    pub ssrc: u32,
    /// The payload type (RFC 3551 6).
    pub pt: u8,
    /// The number of the first datagram.
    pub first: u64,
    /// The most bytes of a payload.
    pub mtu: usize,
    /// The maximum datagram size in bytes.
    pub limit: usize,
    /// How many payloads back each redundant block lies (RFC 2198), or none at a dash.
    pub distances: Option<Bytes>,
    /// The first picture id (RFC 7741 4.2), or none at a dash.
    pub picture_id: Option<u16>,
}

/// `open E MID SSRC PT HOLDBACK [HELD]`: open a receiving stream.
#[derive(Drop)]
pub struct OpenCommand {
    /// The end that receives.
    pub letter: Letter,
    /// The media identification of the section (RFC 5888 4).
    pub mid: Word,
    /// The synchronization source (RFC 3550 3).
    pub ssrc: u32,
    /// The payload type (RFC 3551 6).
    pub pt: u8,
    /// How many complete frames are held back for one that is missing.
    pub hold_back: usize,
    /// How many packets may wait, 4,096 if the line doesn't say.
    pub held: usize,
}

/// `sample E N TIME HEX [mid=TEXT]`: send a sample.
#[derive(Drop)]
pub struct SampleCommand {
    /// The end that sends.
    pub letter: Letter,
    /// The number of the sending stream.
    pub stream: usize,
    /// The time, at the clock rate of the stream's row.
    pub time: u64,
    /// The sample's bytes.
    pub sample: Bytes,
    /// The media identification that its header extension carries (RFC 9143 15), if one is given.
    pub mid: Option<Word>,
}

/// `repair E N HEX`: send a datagram again under the repair pair of its stream (RFC 4588).
#[derive(Drop)]
pub struct RepairCommand {
    /// The end that sent it.
    pub letter: Letter,
    /// The number of the sending stream.
    pub stream: usize,
    /// The datagram's bytes, as they were sent.
    pub datagram: Bytes,
}

/// `receive E HEX`: hand an end a datagram.
#[derive(Drop)]
pub struct ReceiveCommand {
    /// The end that receives.
    pub letter: Letter,
    /// The datagram's bytes.
    pub datagram: Bytes,
}

/// `poll E N`: ask a receiving stream for its next unit.
#[derive(Clone, Copy, Debug, PartialEq, Eq)]
pub struct PollCommand {
    /// The end that receives.
    pub letter: Letter,
    /// The number of the receiving stream.
    pub stream: usize,
}

/// What is asked of a stream.
#[derive(Clone, Copy, Debug, PartialEq, Eq)]
pub enum Ask {
    /// The number that a sending stream's next datagram gets.
    Next,
    /// The numbers that a receiving stream misses.
    Missing,
    /// That the stream is closed.
    Close,
}

/// `next E N`, `missing E N`, `close E N`: ask something of a stream.
#[derive(Clone, Copy, Debug, PartialEq, Eq)]
pub struct AskCommand {
    /// The end that has the stream.
    pub letter: Letter,
    /// The number of the stream.
    pub stream: usize,
    /// What is asked.
    pub ask: Ask,
}

/// A bound to a stream's numbers.
#[derive(Clone, Copy, Debug, PartialEq, Eq)]
pub enum Bound {
    /// A sending stream leaves lower numbers out.
    Skip,
    /// A receiving stream is done with the numbers up to it.
    Pass,
    /// A receiving stream is told that this number carries nothing.
    Empty,
    /// The payloads of the packets that wait in a receiving stream have at most so many bytes.
    Keep,
}

/// `skip E N NUMBER`, `pass E N NUMBER`, `empty E N NUMBER`, `keep E N NUMBER`: set a bound to a stream.
#[derive(Clone, Copy, Debug, PartialEq, Eq)]
pub struct BoundCommand {
    /// The end that has the stream.
    pub letter: Letter,
    /// The number of the stream.
    pub stream: usize,
    /// The bound.
    pub number: u64,
    /// What it bounds.
    pub bound: Bound,
}

/// A call that a line asks for.
#[derive(Drop)]
pub enum Command {
    /// `fixed E`: replace an end by the fixed one.
    Fixed(Letter),
    /// Open a sending stream.
    Send(SendCommand),
    /// Open a receiving stream.
    Open(OpenCommand),
    /// Send a sample.
    Sample(SampleCommand),
    /// Hand an end a datagram.
    Receive(ReceiveCommand),
    /// Ask a receiving stream for its next unit.
    Poll(PollCommand),
    /// Send a datagram again.
    Repair(RepairCommand),
    /// Ask something of a stream.
    AskStream(AskCommand),
    /// Set a bound to a stream's numbers.
    BoundStream(BoundCommand),
    /// Put a row into the draft of an end.
    Row(RowCommand),
    /// Put a header extension into the draft of an end.
    Ext(ExtCommand),
    /// Replace an end by a new one of its draft.
    End(EndCommand),
    /// Ask for the text of an offer.
    Offer(OfferCommand),
    /// Answer an offer.
    Answer(AnswerCommand),
    /// Take the answer to an offer.
    Accept(AcceptCommand),
    /// `withdraw E`: give up an offer.
    Withdraw(Letter),
    /// Let `a` offer and `b` answer.
    Connect(ConnectCommand),
    /// Keep a sample for a run.
    Queue(QueueCommand),
    /// Send what was kept at `a`, and let a schedule happen at `b`.
    Play(PlayCommand),
    /// Have a forwarder and an end send packets on.
    Relay(RelayCommand),
}
