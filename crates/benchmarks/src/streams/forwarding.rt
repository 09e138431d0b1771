//! Packets that are sent on, each to some subscribers, of which each has a stream and a forwarder of its own.

use crate::streams::line::Line;
use crate::streams::receiving::{datagrams_of, receiver, renumber};
use crate::streams::sending::table;
use crate::streams::slices::{SLICES, shorter};
use rtp_media_forward::Forwarder;
use rtp_media_stream_table::StreamTable;
use rtp_media_streams::Arrival;
use std::alloc::Global;
use std::io;
use std::time::Instant;

/// How many packets are sent on in a slice, over all subscribers.
const SENT: usize = 2_000;

/// Who is sent packets on: a table with a sending stream, and where in it packets go.
#[derive(Drop)]
struct Subscriber {
    table: StreamTable,
    stream: usize,
    forwarder: Forwarder,
}

impl Subscriber {
    /// One that is sent packets on from number 1 on.
    fn new(alloc: Global, line: &Line<'_>) -> io::Result<Self> {
        let (table, stream) = table(alloc, line)?;
        let mut forwarder = Forwarder::new(alloc, 0);
        forwarder.switch(0, 1, 1, 0)?;
        Ok(Subscriber {
            table,
            stream,
            forwarder,
        })
    }

    /// The size of the datagram that a packet becomes, 0 if it isn't sent on.
    fn send(&mut self, number: u64, arrival: &Arrival, payload: &[u8]) -> usize {
        let Some(placed) = self.forwarder.forward(0, number, arrival.time, true) else {
            return 0;
        };
        if !self.table.is_sender(self.stream) {
            return 0;
        }
        let sent = self.table.send_packet(
            self.stream,
            placed.number,
            placed.time,
            arrival.marker,
            &arrival.ext_vals,
            payload,
        );
        match sent {
            Ok(datagram) => datagram.as_slice().len(),
            Err(_) => 0,
        }
    }
}

/// Takes a datagram's number, and sends its packet on to each subscriber; the size of the last datagram.
fn send_on(
    table: &mut StreamTable,
    stream: usize,
    datagram: &[u8],
    subscribers: &mut Vec<Subscriber>,
) -> usize {
    let Ok((_, arrival)) = table.arrival(datagram) else {
        return 0;
    };
    if !table.is_receiver(stream) {
        return 0;
    }
    let Some(number) = table.take_number(stream, arrival.low) else {
        return 0;
    };
    let Some(payload) = datagram.get(arrival.start..arrival.end) else {
        return 0;
    };
    let mut size = 0;
    for subscriber in subscribers {
        size = subscriber.send(number.get(), &arrival, payload);
    }
    size
}

/// Sends the packets of a sample on over and over, each to so many subscribers.
pub(crate) fn measure(rt: &HostRuntime, line: &Line<'_>, count: usize) -> io::Result<()> {
    let (mut table, stream) = receiver(rt.alloc(), line, 0)?;
    let mut datagrams = datagrams_of(rt.alloc(), line)?;
    let mut subscribers = Vec::new(rt.alloc());
    for _ in 0..count {
        subscribers.push(Subscriber::new(rt.alloc(), line)?)?;
    }
    let packets = datagrams.len().saturating_mul(count).max(1);
    let turns = (SENT / packets).max(1);
    let mut nanos = u128::MAX;
    let mut size = 0;
    let mut number = 0u16;
    for _ in 0..SLICES {
        let start = Instant::now(rt)?;
        for _ in 0..turns {
            for datagram in &mut datagrams {
                number = number.wrapping_add(1);
                renumber(datagram, number, number);
                size = send_on(&mut table, stream, datagram, &mut subscribers);
            }
        }
        nanos = shorter(rt, &start, nanos)?;
    }
    println!(*rt;
        "{}, {count} subscribers: {size} bytes in a datagram",
        line.name
    )?;
    let sent = (turns as u128).wrapping_mul(packets as u128).max(1);
    eprintln!(*rt;
        "{}, {count} subscribers: {} ns to send a packet on to one",
        line.name,
        nanos / sent
    )
}
