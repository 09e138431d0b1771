//! Commands on rows that come alone: how well they match, their feedback, and what they equal.

use crate::words::{row_of, spec_of};
use sdp_formats::{PayloadParams, Pt};
use words_and_replies::ReplyText;

/// A new row of the codec at the front.
fn new_row(words: &[&str]) -> Option<PayloadParams> {
    let spec = spec_of(words)?;
    Some(PayloadParams::new(Pt::new_with_value(96), None, spec))
}

/// `score SPEC SPEC`: how well two rows match.
pub(crate) fn put_score(words: &[&str], reply: &mut ReplyText) -> Option<()> {
    let one = new_row(words)?;
    let other = new_row(words.get(4..)?)?;
    match one.match_score(&other) {
        Some(points) => reply.say("", &points),
        None => reply.put("none"),
    }
    Some(())
}

/// `feedback FLAG SPEC`: the feedback of a new row, once one flag is off, or none at a dash.
pub(crate) fn put_feedback(words: &[&str], reply: &mut ReplyText) -> Option<()> {
    let [flag, spec @ ..] = words else {
        return None;
    };
    let mut row = new_row(spec)?;
    match *flag {
        "cc" => row.set_fb_transport_cc(false),
        "nack" => row.set_fb_nack(false),
        "pli" => row.set_fb_pli(false),
        "fir" => row.set_fb_fir(false),
        "remb" => row.set_fb_remb(false),
        "-" => {}
        _ => return None,
    }
    put_flags(&row, reply);
    Some(())
}

fn put_flags(row: &PayloadParams, reply: &mut ReplyText) {
    reply.put_flag("", "cc", row.fb_transport_cc());
    reply.put_flag(" ", "nack", row.fb_nack());
    reply.put_flag(" ", "pli", row.fb_pli());
    reply.put_flag(" ", "fir", row.fb_fir());
    reply.put_flag(" ", "remb", row.fb_remb());
}

/// `equal LOCK ROW LOCK ROW`: whether two rows are equal, if LOCK is `locked` or `open`.
pub(crate) fn put_equality(words: &[&str], reply: &mut ReplyText) -> Option<()> {
    let one = locked_or_open(words)?;
    let other = locked_or_open(words.get(9..)?)?;
    reply.put(if one == other { "equal" } else { "unequal" });
    Some(())
}

fn locked_or_open(words: &[&str]) -> Option<PayloadParams> {
    let [lock, row @ ..] = words else {
        return None;
    };
    let mut row = row_of(row)?;
    if *lock == "locked" {
        row.lock();
    }
    Some(row)
}
