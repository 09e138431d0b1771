//! Streams of an end after an exchange with a browser, and what it agreed on.

use anyhow::ensure;
use rtp_media::{AgreedSection, Datagram, End, MIN_HELD, PayloadParams, StreamParams};
use rtp_wire::{ExtensionValues, MediaTime, Mid, Pt, Ssrc};
use words_and_replies::{ReplyText, parted};

/// The SSRC and the payload type of two words.
fn stream_of(words: &str) -> anyhow::Result<(Ssrc, Pt)> {
    let (ssrc, pt) = parted(words);
    Ok((
        Ssrc::from(ssrc.parse::<u32>()?),
        Pt::from(pt.parse::<u8>()?),
    ))
}

/// A row by its types, as `96 rtx 97`.
fn put_row(row: &PayloadParams, reply: &mut ReplyText) {
    reply.say(" ", &row.pt());
    reply.say_some(" rtx ", &row.resend());
    reply.say_some(" red ", &row.red());
}

/// The types of an agreed section.
fn put_section(section: &AgreedSection, reply: &mut ReplyText) {
    reply.say("\n  ", &section.mid());
    reply.put(":");
    for row in section.rows() {
        put_row(row, reply);
    }
}

/// The types of each agreed section.
pub(crate) fn put_agreed(end: &End, reply: &mut ReplyText) {
    for section in end.agreed_sections() {
        put_section(section, reply);
    }
}

/// Opens a sending stream in a section, sends a sample, and repairs its first datagram: whether it is sent again as a
/// retransmission.
pub(crate) fn put_sender(
    end: &mut End,
    mid: &str,
    words: &str,
    reply: &mut ReplyText,
) -> anyhow::Result<()> {
    let (mid, (ssrc, pt)) = (Mid::from(mid), stream_of(words)?);
    let params = StreamParams {
        first: 1000,
        mtu: 1200,
        limit: 1400,
        red: None,
        picture_id: None,
        for_browsers: true,
    };
    ensure!(params.is_sound(end.agreed_red(mid, pt)), "unsound");
    match end.open_sender(mid, ssrc, pt, params) {
        Ok(stream) => put_repair(end, stream, reply),
        Err(error) => {
            reply.say("\n  refused: ", &error);
            Ok(())
        }
    }
}

fn put_repair(end: &mut End, stream: usize, reply: &mut ReplyText) -> anyhow::Result<()> {
    ensure!(end.is_sender(stream), "no such stream");
    let time = MediaTime::new(0, end.clock_rate(stream));
    let sent: Vec<Datagram> = end.push_sample(
        stream,
        time,
        &[16, 2, 3],
        &ExtensionValues::absent(),
    )?;
    ensure!(end.is_sender(stream), "no such stream");
    if let Some(first) = sent.first() {
        match end.repair(stream, first.as_slice()) {
            Ok(repair) => reply.say("\n  repaired by bytes: ", &repair.as_slice().len()),
            Err(error) => reply.say("\n  not repaired: ", &error),
        }
    }
    Ok(())
}

/// Opens a receiving stream in a section.
pub(crate) fn put_receiver(
    end: &mut End,
    mid: &str,
    words: &str,
    reply: &mut ReplyText,
) -> anyhow::Result<()> {
    let (ssrc, pt) = stream_of(words)?;
    match end.open_unsignalled(Mid::from(mid), ssrc, pt, 0, MIN_HELD) {
        Ok(stream) => reply.say("\n  stream ", &stream),
        Err(error) => reply.say("\n  refused: ", &error),
    }
    Ok(())
}
