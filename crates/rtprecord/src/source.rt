//! An SSRC of a capture.

use h26x_payload::SeqNo;
use rtp_wire::{ExtensionMap, Reception, SeqNoWindow, Ssrc, extend_u16, receive_one};
use std::alloc::Global;

/// An SSRC: packets of all its payload types share one sequence.
#[derive(Drop)]
pub(crate) struct Source {
    pub(crate) ssrc: Ssrc,
    /// The port that its packets go to, if its rows are meant for that alone.
    pub(crate) port: Option<u16>,
    window: Option<SeqNoWindow>,
    lowest: u64,
    greatest: u64,
    /// The payload types that its packets have had.
    types: [bool; 128],
    /// The numbers and types of its streams.
    pub(crate) streams: Vec<(u64, u8)>,
    /// Packets that were taken.
    pub(crate) taken: u64,
    /// Those of them that came as repairs.
    pub(crate) repaired: u64,
    /// Packets that came before, or too late.
    pub(crate) late: u64,
    /// Packets whose padding or redundancy can't be read.
    pub(crate) damaged: u64,
    /// Packets of padding alone.
    pub(crate) padding: u64,
}

impl Source {
    /// A source of which nothing came.
    pub(crate) fn new(alloc: Global, ssrc: Ssrc, port: Option<u16>) -> Source {
        Source {
            ssrc,
            port,
            window: None,
            lowest: u64::MAX,
            greatest: 0,
            types: [false; 128],
            streams: Vec::new(alloc),
            taken: 0,
            repaired: 0,
            late: 0,
            damaged: 0,
            padding: 0,
        }
    }

    /// Notes a payload type of its packets; returns whether it is a new one.
    pub(crate) fn note_type(&mut self, pt: u8) -> bool {
        if pt >= 128 || self.types[pt as usize] {
            return false;
        }
        self.types[pt as usize] = true;
        true
    }

    /// Whether its packets have had a payload type.
    pub(crate) fn has_type(&self, pt: u8) -> bool {
        pt < 128 && self.types[pt as usize]
    }

    /// Notes a number that is taken.
    fn note(&mut self, seq_no: SeqNo) {
        self.taken = self.taken.saturating_add(1);
        self.lowest = self.lowest.min(seq_no.get());
        self.greatest = self.greatest.max(seq_no.get());
    }

    /// Takes a packet: its number, if it is a new one.
    pub(crate) fn receive(&mut self, datagram: &[u8]) -> Option<SeqNo> {
        match receive_one(&mut self.window, datagram, &ExtensionMap::empty()) {
            Reception::Taken(seq_no) => {
                self.note(seq_no);
                Some(seq_no)
            }
            Reception::Refused | Reception::Unreadable => {
                self.late = self.late.saturating_add(1);
                None
            }
        }
    }

    /// Takes the low 16 bits of the number of a packet that came as a repair: its number, if it is a new one
    /// (RFC 4588 4).
    pub(crate) fn receive_repaired(&mut self, low: u16) -> Option<SeqNo> {
        let window = self.window.as_mut()?;
        let seq_no = SeqNo::from(extend_u16(Some(window.max_seq().get()), low));
        if !window.accepts(seq_no) {
            self.late = self.late.saturating_add(1);
            return None;
        }
        window.update(seq_no);
        self.note(seq_no);
        self.repaired = self.repaired.saturating_add(1);
        Some(seq_no)
    }

    /// Whether a packet with these low 16 bits of its number is missing.
    pub(crate) fn misses(&self, low: u16) -> bool {
        match &self.window {
            Some(window) => {
                let number = extend_u16(Some(window.max_seq().get()), low);
                number < window.max_seq().get() && window.accepts(SeqNo::from(number))
            }
            None => false,
        }
    }

    /// How many numbers between the lowest and the greatest didn't come.
    pub(crate) fn lost(&self) -> u64 {
        if self.taken == 0 {
            return 0;
        }
        self.greatest
            .saturating_sub(self.lowest)
            .saturating_add(1)
            .saturating_sub(self.taken)
    }
}
