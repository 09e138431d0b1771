//! What is read, as text.

use rtp_wire::{ExtensionMap, ExtensionValues, Reception, RtpHeader, receive_run, unpad_payload};
use words_and_replies::CommandLine;

/// The fields, each as the words of a header that is written say it.
fn put_fields(line: &mut CommandLine<'_>, header: &RtpHeader) {
    line.put_field("type", Some(header.payload_type));
    line.put_field("number", Some(header.sequence_number));
    line.put_field("time", Some(header.timestamp));
    line.put_field("ssrc", Some(header.ssrc));
    for source in header.csrc.iter().take(header.csrc_count) {
        line.put_field("csrc", Some(*source));
    }
    line.put_where(header.marker, "marker ");
    line.put_where(header.has_padding, "padding ");
    line.put_where(!header.has_extension, "bare ");
}

fn put_values(line: &mut CommandLine<'_>, values: &ExtensionValues) {
    line.put_field("audio-level", values.audio_level);
    line.put_field("voice", values.voice_activity);
    line.put_field("send-time", values.abs_send_time);
    line.put_field("transport", values.transport_cc);
    line.put_field("mid", values.mid);
    line.put_field("rid", values.rid);
    line.put_field("repaired", values.rid_repair);
    if let Some(orientation) = values.video_orientation {
        line.put_field("orientation", Some(orientation.get()));
    }
    line.put_field("delay-min", values.play_delay_min);
    line.put_field("delay-max", values.play_delay_max);
    line.put_field("content", values.video_content_type);
    if let Some(time) = values.abs_capture_time {
        line.put_field("captured", Some(time.capture_time));
        line.put_field("offset", time.clock_offset);
    }
}

/// `read-header HEX`: the header in front of a datagram, its length, and the payload after it.
pub(crate) fn header_text(line: &mut CommandLine<'_>, map: &ExtensionMap) {
    let datagram = line.bytes();
    let Some(header) = RtpHeader::parse(&datagram, map) else {
        return line.put("none");
    };
    put_fields(line, &header);
    put_values(line, &header.ext_vals);
    line.put(format_args!("length={} payload=", header.header_len));
    put_unpadded(line, header.has_padding, &datagram[header.header_len..])
}

/// What is left of a payload without its padding.
fn put_unpadded(line: &mut CommandLine<'_>, has_padding: bool, payload: &[u8]) {
    match unpad_payload(has_padding, payload) {
        Some(rest) => line.put_bytes(rest),
        None => line.put("none"),
    }
}

/// `padded HEX` or `unpadded HEX`: what is left of a payload without its padding.
pub(crate) fn payload_text(line: &mut CommandLine<'_>, has_padding: bool) {
    let payload = line.bytes();
    put_unpadded(line, has_padding, &payload)
}

/// `run HEX ..`: what becomes of each datagram of a list at a new window, the number under which it is taken, or why
/// it isn't.
pub(crate) fn run_text(line: &mut CommandLine<'_>, map: &ExtensionMap) {
    let mut datagrams = Vec::new(line.alloc());
    for word in line.rest().split_whitespace() {
        let datagram = line.bytes_of(word);
        line.keep(&mut datagrams, datagram);
    }
    let mut slices = Vec::new(line.alloc());
    for datagram in &datagrams {
        line.keep(&mut slices, datagram.as_slice());
    }
    match receive_run(line.alloc(), &slices, map) {
        Ok(verdicts) => put_verdicts(line, &verdicts),
        Err(fault) => line.refuse(fault),
    }
}

fn put_verdicts(line: &mut CommandLine<'_>, verdicts: &[Reception]) {
    for verdict in verdicts {
        match verdict {
            Reception::Taken(number) => line.put(format_args!("{number} ")),
            Reception::Refused => line.put("refused "),
            Reception::Unreadable => line.put("unreadable "),
        }
    }
}
