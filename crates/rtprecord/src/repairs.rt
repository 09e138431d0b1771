//! Repairs of lost packets (RFC 4588), to the streams that they repair.

use crate::found::Found;
use crate::input::Arrival;
use crate::passed::count;
use crate::recorder::{Recorder, Taken};
use crate::row::Row;
use rtp_wire::{RtpHeader, Ssrc, unpad_payload, wrapped_in};
use std::alloc::AllocError;

// How many sources are asked at most which of them misses a packet.
const MOST_ASKED: usize = 256;

impl Recorder {
    /// Takes a packet of retransmissions as what it wraps (RFC 4588 4).
    pub(crate) fn take_repair(
        &mut self,
        row: Row,
        header: &RtpHeader,
        arrival: &Arrival<'_>,
    ) -> Result<(), AllocError> {
        let behind = arrival.bytes.get(header.header_len..).unwrap_or(&[]);
        let payload = unpad_payload(header.has_padding, behind).unwrap_or(&[]);
        let Some((low, payload)) = wrapped_in(payload) else {
            count(&mut self.passed.empty_repairs);
            return Ok(());
        };
        let repaired = row.repairs.and_then(|pt| self.rows.row(pt, arrival.port()));
        let Some(row) = repaired else {
            count(&mut self.passed.strange_repairs);
            return Ok(());
        };
        let port = row.ports.and_then(|_| arrival.port());
        let Some(place) = self.repaired_place(header.ssrc, port, row.pt, low) else {
            count(&mut self.passed.strange_repairs);
            return Ok(());
        };
        let Some(source) = self.sources.get_mut(&place) else {
            return Ok(());
        };
        let Some(seq_no) = source.receive_repaired(low) else {
            return Ok(());
        };
        let taken = Taken {
            header,
            seq_no,
            port,
            time: None,
            ports: None,
        };
        self.take_payload(place, row, &taken, payload)
    }

    /// The number of the source that these are the repairs of: the one that a text groups them with, else the only one
    /// with this type, else the only one of these that misses the packet.
    fn repaired_place(&self, ssrc: Ssrc, port: Option<u16>, pt: u8, low: u16) -> Option<u64> {
        if let Some(stream) = self.rows.repaired_by(ssrc.get()) {
            return self.known_source(Ssrc::from(stream), port);
        }
        let numbers = self.typed.with(port, pt)?;
        if numbers.len() == 1 {
            return numbers.first().copied();
        }
        if numbers.len() > MOST_ASKED {
            return None;
        }
        let mut missing = Found::None;
        for number in numbers {
            if let Some(source) = self.sources.get(number) {
                if source.misses(low) {
                    missing = missing.and(*number);
                }
            }
        }
        missing.only()
    }
}
