//! Numbers and timestamps of packets that are sent on.

ghost use Rattle.std.specs.Prelude.{◌≡◌, ◌+◌, ◌<◌, ◌≤◌, ◌^◌, ◌++◌, [], ◌∷◌, IfErr, IfOk, IfSome, OnErr, OnOk};
ghost use Rattle.rtp_media_forward.specs.Forwarding.{after_packet, end_before, ended, is_in, nothing_from};
ghost use Rattle.rtp_media_forward.specs.Forwarding.{placed, placed_in, reserved, shift_to, skipped, switched};
ghost use Rattle.rtp_media_forward.specs.Forwarding.{is_next_of, kept, passed_empty, start_of, with_piece};
ghost use Rattle.rtp_media_forward.specs.Forwarding.{with_pieces};
ghost use Rattle.rtp_media_forward.specs.declared.forwarder.ReserveError.TheVariants.{Memory, NumberTooLarge};

use std::alloc::{AllocError, Global};
use std::marker::Model;
use thiserror::Error;

/// The first number that can't be sent any more.
const END_OF_NUMBERS: u64 = 0x4000_0000_0000_0000;

/// How many pieces are kept.
const MOST_PIECES: usize = 64;

/// Where a packet is among those that are sent on.
#[derive(Clone, Copy, Debug, PartialEq, Eq, Drop)]
pub struct Placed {
    /// Its number.
    pub number: u64,
    /// Its timestamp.
    pub time: u32,
}

/// A piece of a source that is sent on.
#[derive(Clone, Copy, Debug, PartialEq, Eq, Drop)]
pub struct Piece {
    /// The source.
    pub source: u64,
    /// The number of its first packet at the source.
    pub first: u64,
    /// The number under which that one is sent.
    pub out: u64,
    /// What is added to timestamps.
    pub shift: u32,
}

/// Why no numbers are reserved.
#[derive(Clone, Copy, Debug, PartialEq, Eq, Drop, Error)]
pub enum ReserveError {
    /// They would reach 2^62.
    #[error("the numbers are too large")]
    NumberTooLarge,
    /// Out of memory.
    #[error("out of memory")]
    Memory,
}

impl From<AllocError> for ReserveError {
    ghost from_gives = { λ _ e. e ≡ Memory };

    fn from(_error: AllocError) -> ReserveError {
        ReserveError::Memory
    }
}

/// Numbers and times the packets of one source after another as those of one stream: the packets of a source keep their
/// distances, and one source's begin above the greatest number that was given before: right above it if that packet
/// ends its frame, and otherwise one number is left free, so that no receiver joins packets of two sources to one
/// frame. Packets that come late are sent on where they belong, those of an earlier source too; at least the last 64
/// pieces are kept. If several pieces have a packet, the newest one counts.
#[derive(Drop)]
pub struct Forwarder {
    pieces: Vec<Piece>,
    next: u64,
    whole: bool,
}

impl Model for Forwarder {
    ghost use Rattle.rtp_media_forward.specs.Forwarding.{Forwarding};

    ghost Value = { Forwarding };

    ghost view = { λ f. record { pieces = f.pieces.items; next = f.next; whole = f.whole } };
}

/// What is added to a timestamp so that it becomes another.
fn shift_to(time: u32, at: u32) -> u32
    ensures { result ≡ shift_to time at }
{
    at.wrapping_sub(time)
}

impl Piece {
    /// Whether it has a source's packet of this number, if its numbers end here.
    fn has(&self, end: u64, source: u64, number: u64) -> bool
        ensures { result ≡ is_in self.now end source number }
    {
        source == self.source
            && self.first <= number
            && number - self.first < end.saturating_sub(self.out)
    }
}

/// Where the numbers before these pieces end.
fn end_before(pieces: &[Piece]) -> u64
    ensures end { result ≡ end_before pieces.now }
{
    match pieces.first() {
        Some(piece) => piece.out,
        None => END_OF_NUMBERS,
    }
}

/// Where a source's packet is in these pieces.
fn placed_in(pieces: &[Piece], source: u64, number: u64, time: u32) -> Option<Placed>
    ensures placed { result ≡ placed_in pieces.now source number time }
    ensures below { IfSome result (λ p. p.number + 1 < 2 ^ 64) }
{
    for newer in 0..pieces.len() {
        let i = pieces.len() - 1 - newer;
        let piece = pieces[i];
        if piece.has(end_before(&pieces[i + 1..]), source, number) {
            return Some(Placed {
                number: piece.out + (number - piece.first),
                time: time.wrapping_add(piece.shift),
            });
        }
    }
    None
}

impl Forwarder {
    /// Sends nothing on; the first packet will get the number `first`.
    pub fn new(alloc: Global, first: u64) -> Self
        ensures { result ≡ nothing_from first }
    {
        Forwarder {
            pieces: Vec::new(alloc),
            next: first,
            whole: true,
        }
    }

    /// The first number above all those that were given or left free.
    pub fn next(&self) -> u64
        ensures { result ≡ self.now.next }
    {
        self.next
    }

    /// Under which number and timestamp a source's packet of these is sent on. None if no piece has it, and it is
    /// not sent on.
    pub fn place(&self, source: u64, number: u64, time: u32) -> Option<Placed>
        ensures placed { result ≡ placed self.now source number time }
        ensures below { IfSome result (λ p. p.number + 1 < 2 ^ 64) }
    {
        placed_in(self.pieces.as_slice(), source, number, time)
    }

    /// The same, and the number is given: the next piece begins above it. `ends` says whether the packet is the last
    /// one of its frame: for video [`is_partition_tail`](payload_core_base::Depacketizer::is_partition_tail) of its
    /// marker and payload, for audio true.
    pub fn forward(&mut self, source: u64, number: u64, time: u32, ends: bool) -> Option<Placed>
        ensures placed { result ≡ placed self.old source number time }
        ensures after { self.new ≡ after_packet self.old (placed self.old source number time) ends }
    {
        let placed = self.place(source, number, time)?;
        if self.next <= placed.number {
            self.whole = ends;
        }
        self.next = self.next.max(placed.number + 1);
        Some(placed)
    }

    /// Goes over to a source, from its packet of this number and timestamp on, which gets the timestamp `at` and the
    /// next number; one number is left free before it if the last packet wasn't sent on as the end of its frame. The
    /// frame before is then lost to a receiver, except if its last packet still comes.
    ///
    /// # Errors
    /// `AllocError`, and nothing has changed.
    pub fn switch(&mut self, source: u64, number: u64, time: u32, at: u32) -> Result<(), AllocError>
        ensures after { OnOk result (self.new ≡ switched self.old source number time at) }
        ensures unchanged { OnErr result (self.new ≡ self.old) }
    {
        self.begin(source, number, shift_to(time, at))
    }

    /// Says that what is sent on of the source that is sent on last ends before its packet of this number, if that is
    /// known, as from the first packet of its next frame: the next piece begins where that packet would be, and
    /// packets before it may still come. Nothing changes if a later packet was sent on.
    pub fn end_at(&mut self, number: u64)
        ensures after { self.new ≡ ended self.old number }
        ensures onward { self.old.next ≤ self.new.next }
    {
        if let Some(piece) = self.pieces.last() {
            let piece = *piece;
            if piece.has(END_OF_NUMBERS, piece.source, number) {
                let end = piece.out + (number - piece.first);
                if self.next <= end {
                    self.next = end;
                    self.whole = true;
                }
            }
        }
    }

    /// Leaves out what the source that is sent on sends before the packet of this number, which gets the next number,
    /// after one that is left free as by `switch`; the timestamps stay those of the source's clock. Between two frames,
    /// for layers that are not sent on.
    ///
    /// # Errors
    /// `AllocError`, and nothing has changed.
    pub fn skip_to(&mut self, number: u64) -> Result<(), AllocError>
        ensures after { OnOk result (self.new ≡ skipped self.old number) }
        ensures unchanged { OnErr result (self.new ≡ self.old) }
    {
        match self.pieces.last() {
            Some(piece) => {
                let piece = *piece;
                self.begin(piece.source, number, piece.shift)
            }
            None => Ok(()),
        }
    }

    /// Leaves a source's packet out that carries nothing to send on, such as only padding (RFC 3550 5.1). If it would
    /// get the next number, the source's packet after it gets that number, and true is returned. Otherwise nothing
    /// changes: call this again after the packets before it were sent on. Between two frames.
    ///
    /// # Errors
    /// `AllocError`, and nothing has changed.
    pub fn pass_empty(&mut self, source: u64, number: u64) -> Result<bool, AllocError>
        ensures is_next { IfOk result (λ is. is ≡ is_next_of self.old source number) }
        ensures after { OnOk result (self.new ≡ passed_empty self.old source number) }
        ensures unchanged { OnErr result (self.new ≡ self.old) }
    {
        match self.pieces.last() {
            Some(piece) => {
                let piece = *piece;
                if piece.has(END_OF_NUMBERS, source, number)
                    && number < END_OF_NUMBERS
                    && piece.out + (number - piece.first) == self.next
                {
                    self.add(Piece {
                        source: piece.source,
                        first: number + 1,
                        out: self.next,
                        shift: piece.shift,
                    })?;
                    Ok(true)
                } else {
                    Ok(false)
                }
            }
            None => Ok(false),
        }
    }

    /// Reserves the next `count` numbers for packets that no source sends, such as those of samples that are pushed in
    /// between, and returns the first of them; one number is left free before it as by `switch`. What was sent on
    /// before ends there: go on by `switch` or `skip_to`. The sources' own numbers are below 2^62.
    ///
    /// # Errors
    /// See [`ReserveError`]; nothing has changed then.
    pub fn reserve(&mut self, count: u64) -> Result<u64, ReserveError>
        ensures first { IfOk result (λ first. first ≡ start_of self.old) }
        ensures after { OnOk result (self.new ≡ reserved self.old count) }
        ensures fits { OnOk result (start_of self.old + count ≤ 2 ^ 62) }
        ensures refused { IfErr result (λ e. e ≡ NumberTooLarge → 2 ^ 62 < start_of self.old + count) }
        ensures memory { IfErr result (λ e. e ≡ Memory → start_of self.old + count ≤ 2 ^ 62) }
        ensures unchanged { OnErr result (self.new ≡ self.old) }
    {
        let first = self.start();
        if first > END_OF_NUMBERS || count > END_OF_NUMBERS - first {
            return Err(ReserveError::NumberTooLarge);
        }
        let (source, shift) = match self.pieces.last() {
            Some(piece) => (piece.source, piece.shift),
            None => (0, 0),
        };
        self.begin(source, END_OF_NUMBERS, shift)?;
        self.next = first + count;
        Ok(first)
    }

    /// Where the next piece begins.
    fn start(&self) -> u64
        ensures { result ≡ start_of self.now }
    {
        if self.whole || self.next >= END_OF_NUMBERS {
            return self.next;
        }
        self.next + 1
    }

    /// Begins a piece after all numbers that were given.
    fn begin(&mut self, source: u64, first: u64, shift: u32) -> Result<(), AllocError>
        ensures after { OnOk result (self.new ≡ with_piece self.old source first shift) }
        ensures unchanged { OnErr result (self.new ≡ self.old) }
    {
        let out = self.start();
        self.add(Piece {
            source,
            first,
            out,
            shift,
        })?;
        self.next = out;
        self.whole = true;
        Ok(())
    }

    /// One piece more.
    fn add(&mut self, piece: Piece) -> Result<(), AllocError>
        ensures after { OnOk result (self.new ≡ with_pieces self.old (kept (self.old.pieces ++ piece ∷ []))) }
        ensures unchanged { OnErr result (self.new ≡ self.old) }
    {
        self.pieces.push(piece)?;
        if self.pieces.len() > MOST_PIECES {
            self.pieces.remove(0);
        }
        Ok(())
    }
}
