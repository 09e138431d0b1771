//! The rows that sections list.

use sdp_formats::{MediaLine, PayloadParams, RtpParams, Sdp};
use std::alloc::Global;
use words_and_replies::ReplyText;

/// `listed NAME`: of each section its rows, each with its type, codec, clock rate, channels, format, feedback, and the
/// types of its retransmissions and of its redundancy.
pub(crate) fn put_listed(alloc: Global, sdp: &Sdp, reply: &mut ReplyText) {
    for section in sdp.media_lines.as_slice() {
        put_section(alloc, section, reply);
    }
}

fn put_section(alloc: Global, section: &MediaLine, reply: &mut ReplyText) {
    match section.rtp_params(alloc) {
        Ok(rows) => {
            reply.say("\n  section: ", &rows.len());
            reply.put(" rows");
            for row in rows.as_slice() {
                put_row(alloc, row, reply);
            }
        }
        Err(_) => reply.fail(),
    }
}

fn put_row(alloc: Global, row: &PayloadParams, reply: &mut ReplyText) {
    let spec = row.spec();
    reply.say("\n    ", &row.pt());
    reply.say(" ", &spec.codec);
    reply.say(" ", &spec.clock_rate);
    reply.say_or_dash(" ", &spec.channels);
    reply.put_printed_or_dash(" ", spec.format.to_string(alloc));
    put_feedback(row, reply);
    reply.say_or_dash(" ", &row.resend());
    reply.say_or_dash(" ", &row.red());
}

fn put_feedback(row: &PayloadParams, reply: &mut ReplyText) {
    reply.put_flag(" ", "cc", row.fb_transport_cc());
    reply.put_flag(" ", "nack", row.fb_nack());
    reply.put_flag(" ", "pli", row.fb_pli());
    reply.put_flag(" ", "fir", row.fb_fir());
    reply.put_flag(" ", "remb", row.fb_remb());
}
