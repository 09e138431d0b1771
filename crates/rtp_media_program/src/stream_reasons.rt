//! What is known of streams.

ghost use Rattle.std.specs.Prelude.{◌≡◌};
ghost use Rattle.rtp_media_program.specs.Noted.{opened};

use crate::lines::{number_at, number_or_zero_at, word_at};
use std::alloc::{AllocError, Global};
use std::fmt;
use std::marker::Model;

/// The capacity of a receiving stream whose line doesn't give one.
const HELD: u64 = 4096;

/// A stream of an end, and what came of it.
pub(crate) struct Stream {
    pub(crate) number: u64,
    pub(crate) is_sender: bool,
    pub(crate) ssrc: u64,
    pub(crate) pt: u64,
    /// The datagrams that were printed of the samples of a sending stream.
    datagrams: u64,
    taken: u64,
    refused: u64,
    damaged: u64,
    units: u64,
    faults: u64,
    /// The numbers that were taken and wait to be handed out, if these can be known.
    waiting: Vec<u64>,
    is_waiting_known: bool,
    /// The most packets that it holds.
    held: u64,
    /// The lowest number that may still be handed out.
    next: u64,
}

/// Written by hand, so that crates that drop this type need no proof about its fields.
impl Drop for Stream {
    fn drop(self) {
        let Stream {
            number: _number,
            is_sender: _is_sender,
            ssrc: _ssrc,
            pt: _pt,
            datagrams: _datagrams,
            taken: _taken,
            refused: _refused,
            damaged: _damaged,
            units: _units,
            faults: _faults,
            waiting: _waiting,
            is_waiting_known: _is_waiting_known,
            held: _held,
            next: _next,
        } = self;
    }
}

impl Model for Stream {
    ghost use Rattle.rtp_media_program.specs.Noted.{KnownStream};

    ghost Value = { KnownStream };

    ghost view = { λ s. record { number = s.number; is_sender = s.is_sender; ssrc = s.ssrc; pt = s.pt } };
}

impl Stream {
    /// A stream of this number that the line opens.
    pub(crate) fn new(alloc: Global, number: u64, line: &str) -> Stream
        ensures { result ≡ opened number line.now }
    {
        Stream {
            number,
            is_sender: word_at(line, 0) == "send",
            ssrc: number_or_zero_at(line, 3),
            pt: number_or_zero_at(line, 4),
            datagrams: 0,
            taken: 0,
            refused: 0,
            damaged: 0,
            units: 0,
            faults: 0,
            waiting: Vec::new(alloc),
            is_waiting_known: true,
            held: number_at(line, 6).unwrap_or(HELD),
            next: 0,
        }
    }

    /// Counts what was said of a sample, a datagram, or a poll.
    pub(crate) fn count(&mut self, reply: &str) -> Result<(), AllocError>
        ensures { self.new ≡ self.old }
    {
        match word_at(reply, 0) {
            "datagram" => self.datagrams = self.datagrams.saturating_add(1),
            "taken" => {
                self.taken = self.taken.saturating_add(1);
                if let Some(number) = number_at(reply, 2)
                    && self.is_waiting_known
                    && self.next <= number
                {
                    self.waiting.push(number)?;
                    self.is_waiting_known = self.waiting.len() as u64 <= self.held;
                }
            }
            "came" => self.taken = self.taken.saturating_add(1),
            "refused" if reply == "refused" => self.refused = self.refused.saturating_add(1),
            "damaged" => self.damaged = self.damaged.saturating_add(1),
            "unit" => {
                self.units = self.units.saturating_add(1);
                let last = number_or_zero_at(reply, 2);
                self.next = last.saturating_add(1);
                self.waiting.retain(|number| last < *number);
            }
            "fault" => {
                self.faults = self.faults.saturating_add(1);
                self.is_waiting_known = false;
            }
            _ => {}
        }
        Ok(())
    }

    /// Writes what became of a stream, of the end of this letter.
    pub(crate) fn write<W: fmt::Write>(
        &self,
        f: &mut fmt::Formatter<W>,
        letter: &str,
    ) -> fmt::Result {
        let (number, ssrc, pt) = (self.number, self.ssrc, self.pt);
        if self.is_sender {
            let datagrams = self.datagrams;
            return writeln!(
                f,
                "  sender {number} of {letter}: SSRC {ssrc}, type {pt}, {datagrams} datagrams printed"
            );
        }
        write!(f, "  receiver {number} of {letter}: SSRC {ssrc}, type {pt}")?;
        self.write_counts(f)
    }

    /// Writes what was counted of a receiving stream.
    fn write_counts<W: fmt::Write>(&self, f: &mut fmt::Formatter<W>) -> fmt::Result {
        let counts = [
            (self.taken, "taken"),
            (self.refused, "refused"),
            (self.damaged, "damaged"),
            (self.units, "units"),
            (self.faults, "faults"),
        ];
        for (count, of) in &counts {
            write!(f, ", {count} {of}")?;
        }
        if self.is_waiting_known {
            let held = self.waiting.len();
            write!(f, ", {held} packets held")?;
        }
        f.write_str("\n")
    }
}
