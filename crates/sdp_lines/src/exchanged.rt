//! Commands on offers and answers.

use crate::texts::put_refusal;
use sdp_formats::{Parse, Sdp, SdpAnswer, SdpError, SdpOffer};
use std::alloc::Global;
use words_and_replies::ReplyText;

/// `offer NAME`: whether the text is an offer, and the offer is printed as its session text is.
pub(crate) fn put_offer(alloc: Global, text: &str, reply: &mut ReplyText) {
    match SdpOffer::from_sdp_string(alloc, text) {
        Ok(offer) => {
            reply.say("an offer of ", &offer.media_lines.as_slice().len());
            match offer.to_sdp_string(alloc) {
                Ok(printed) => put_sameness(alloc, text, printed.as_str(), reply),
                Err(_) => reply.fail(),
            }
        }
        Err(error) => put_refusal(error, reply),
    }
}

/// `answer NAME`: whether the text is an answer, and the answer is printed as its session text is.
pub(crate) fn put_answer(alloc: Global, text: &str, reply: &mut ReplyText) {
    match SdpAnswer::from_sdp_string(alloc, text) {
        Ok(answer) => {
            reply.say("an answer of ", &answer.media_lines.as_slice().len());
            match answer.to_sdp_string(alloc) {
                Ok(printed) => put_sameness(alloc, text, printed.as_str(), reply),
                Err(_) => reply.fail(),
            }
        }
        Err(error) => put_refusal(error, reply),
    }
}

fn put_sameness(alloc: Global, text: &str, printed: &str, reply: &mut ReplyText) {
    match printed_text(alloc, text) {
        Ok(same) => reply.say(
            " sections, printed as its text ",
            &(same.as_str() == printed),
        ),
        Err(error) => put_refusal(error, reply),
    }
}

/// What is read of a text, printed.
fn printed_text(alloc: Global, text: &str) -> Result<String, SdpError> {
    Ok(Sdp::parse(alloc, text)?.to_sdp_string(alloc)?)
}
