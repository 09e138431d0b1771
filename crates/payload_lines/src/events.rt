//! Reports of telephone events (RFC 4733 2.3).

use payload_core::TelephoneEvent;
use rtp_wire::Frequency;
use words_and_replies::CommandLine;

/// What `read RATE PACKET` and `write RATE EVENT VOLUME NANOSECONDS [end]` give.
pub(crate) fn answer(line: &mut CommandLine<'_>) {
    let (command, rate) = (line.word(), line.word());
    let rate = line.value_or(rate, Frequency::MICROS);
    if command == "read" {
        return read(line, rate);
    }
    let event = TelephoneEvent {
        event: line.number::<u8>(),
        volume: line.number::<u8>(),
        duration: line.number::<u64>(),
        end: line.rest() == "end",
    };
    match event.to_bytes(rate) {
        Some(report) => line.put_bytes(&report),
        None => line.refuse("no report"),
    }
}

/// The events of a packet, each as `write` reads it.
fn read(line: &mut CommandLine<'_>, rate: Frequency) {
    let packet = line.bytes();
    let Some(events) = TelephoneEvent::parse_all(&packet, rate) else {
        return line.refuse("no reports");
    };
    for event in events {
        let end = if event.end { " end" } else { "" };
        line.put(format_args!("[{} {} {}{end}]", event.event, event.volume, event.duration));
    }
}
