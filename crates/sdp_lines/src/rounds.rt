//! What rounds give, as text.

use sdp_formats::{CodecConfig, Direction, PayloadParams, RoundError};
use std::alloc::Global;
use words_and_replies::ReplyText;

/// Writes a row: its types, whether it is locked and uses transport-wide feedback, its codec, channels and format.
fn put_row(alloc: Global, row: &PayloadParams, reply: &mut ReplyText) {
    let spec = row.spec();
    reply.say(" | ", &row.pt());
    reply.say_or_dash(" ", &row.resend());
    reply.say_or_dash(" ", &row.red());
    reply.put(if row.is_locked() { " locked" } else { " open" });
    reply.put(if row.fb_transport_cc() { " cc" } else { " -" });
    reply.say(" ", &spec.codec);
    reply.say_or_dash(" ", &spec.channels);
    reply.put_printed(" ", spec.format.to_string(alloc));
}

/// Writes the rows, each after a bar.
fn put_rows(alloc: Global, rows: &[PayloadParams], reply: &mut ReplyText) {
    for row in rows {
        put_row(alloc, row, reply);
    }
}

/// `rows`: how many own rows there are, and which.
pub(crate) fn put_own_rows(alloc: Global, rows: &[PayloadParams], reply: &mut ReplyText) {
    reply.say("", &rows.len());
    put_rows(alloc, rows, reply);
}

fn put_refusal(refusal: RoundError, reply: &mut ReplyText) {
    match refusal {
        RoundError::TypeTaken(pt) => reply.say("TypeTaken ", &pt),
        RoundError::ResendTaken(pt) => reply.say("ResendTaken ", &pt),
        RoundError::NoFreeType => reply.put("NoFreeType"),
        RoundError::Memory => reply.fail(),
    }
}

/// `round DIRECTION`: what a round with the other end's rows leaves.
pub(crate) fn put_round(
    alloc: Global,
    config: &mut CodecConfig,
    remote: &[PayloadParams],
    dir: Direction,
    reply: &mut ReplyText,
) {
    match config.round(remote, dir) {
        Ok(()) => reply.put("ok"),
        Err(refusal) => put_refusal(refusal, reply),
    }
    put_rows(alloc, config.params(), reply);
}
