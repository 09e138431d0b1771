//! A forwarder of units. Uses the crates `anyhow`, `rtp_media` and `rtp_wire`.

use anyhow::ensure;
use rtp_media::{Datagram, End, MIN_HELD, StreamParams, Unit};
use rtp_wire::{MediaTime, Mid, Pt, Ssrc};
use std::alloc::Global;

/// The maximum number of units handed out after one datagram.
const MOST_UNITS: usize = 4096;

/// A stream of the end that receives, whose units are the samples of a stream of the end that sends.
#[derive(Drop)]
pub(crate) struct Forwarder {
    inward: End,
    rx: usize,
    outward: End,
    tx: usize,
}

impl Forwarder {
    /// A forwarder between two ends that have each agreed on Opus with payload type 111 with some
    /// other end: its datagrams are numbered from 500, whatever the received ones' numbers.
    pub(crate) fn new(mut inward: End, mut outward: End) -> anyhow::Result<Forwarder> {
        let (mid, ssrc, pt) = (Mid::from("0"), Ssrc::from(44), Pt::from(111));
        let params = StreamParams {
            first: 500,
            mtu: 1200,
            limit: 1400,
            red: None,
            picture_id: None,
            for_browsers: false,
        };
        ensure!(
            params.is_sound(outward.agreed_red(mid, pt)),
            "unsound parameters"
        );
        let rx = inward.open_receiver(mid, ssrc, pt, 2, MIN_HELD)?;
        let tx = outward.open_sender(mid, ssrc, pt, params)?;
        Ok(Forwarder {
            inward,
            rx,
            outward,
            tx,
        })
    }

    /// Takes a datagram, and returns the datagrams to forward.
    pub(crate) fn forward(
        &mut self,
        alloc: Global,
        datagram: &[u8],
    ) -> anyhow::Result<Vec<Datagram>> {
        self.inward.receive(datagram)?;
        let mut sent = Vec::new(alloc);
        for _ in 0..MOST_UNITS {
            ensure!(self.inward.is_receiver(self.rx), "no such stream");
            match self.inward.poll(self.rx)? {
                Some(unit) => sent.extend(self.push(&unit)?)?,
                None => break,
            }
        }
        Ok(sent)
    }

    /// The datagrams of a unit, with its time and the values of its header extensions.
    fn push(&mut self, unit: &Unit) -> anyhow::Result<Vec<Datagram>> {
        ensure!(self.outward.is_sender(self.tx), "no such stream");
        let time = MediaTime::new(u64::from(unit.time()), self.outward.clock_rate(self.tx));
        Ok(
            self.outward
                .push_sample(self.tx, time, unit.bytes(), &unit.ext_vals())?,
        )
    }
}
