//! What the program replies if it says no, in words.

ghost use Rattle.std.specs.Prelude.{◌≡◌, is_some};
ghost use Rattle.rtp_media_program.specs.ExplainedReplies.{says_no};

use crate::reason::Reason;

/// Why each of these refusals comes.
const REFUSALS: [(&str, &str); 25] = [
    (
        "refused RowNotPlain",
        "a row of the draft is of a kind that an end can't agree on",
    ),
    (
        "refused TypesNotDistinct",
        "a payload type stands for two things in the draft's rows",
    ),
    (
        "refused NotWritable",
        "a section's name, or the URI of a header extension, can't be written",
    ),
    (
        "refused OutOfTurn",
        "an offer is pending, or none is where an answer to it comes",
    ),
    (
        "refused NotCorresponding",
        "the sections don't correspond to those of the other text",
    ),
    (
        "refused NotMedia",
        "a section of the text is no audio or video that can be agreed on",
    ),
    (
        "refused NoCommonRow",
        "a section would list no row: the two ends have none in common",
    ),
    (
        "refused Unreadable",
        "the text isn't one of an offer or an answer that an end reads",
    ),
    (
        "refused Round",
        "the rows can't be settled against those of the other end",
    ),
    ("refused NoSection", "no section of this name is agreed"),
    (
        "refused RowNotAgreed",
        "the answer's section has no row of this payload type",
    ),
    (
        "refused RowDiffers",
        "the end's own row of this payload type isn't the agreed one",
    ),
    (
        "refused WrongDirection",
        "the section doesn't flow this way",
    ),
    (
        "refused SsrcNotNamed",
        "the sender's section doesn't name this SSRC",
    ),
    (
        "refused AlreadyOpen",
        "a stream of this direction has this SSRC and payload type",
    ),
    ("refused StreamFailed", "the stream sends no more"),
    (
        "refused TimeTooLarge",
        "the time doesn't fit 64 bits at the stream's clock",
    ),
    (
        "refused LimitTooSmall",
        "MTU and a header with all values pass LIMIT, or a packet that is sent on or a repair's two bytes more do",
    ),
    ("refused Payload", "the codec doesn't take these bytes"),
    (
        "refused NoRepair",
        "the stream has no pair of an SSRC and a type for repairs, or it sends redundancy",
    ),
    (
        "refused NotOwn",
        "the datagram isn't one that the stream sent",
    ),
    (
        "refused AddsRedundancy",
        "the stream sends redundancy, so it sends no packet on",
    ),
    (
        "refused NumberTooLarge",
        "the packet's number, or one that would be reserved, is too large",
    ),
    ("refused NoPayload", "the packet has no payload"),
    ("refused Memory", "memory runs out"),
];

/// Why a reply says no, if it does.
pub(crate) fn refusal_of(reply: &str) -> Option<Reason<'static>>
    ensures { is_some result ≡ says_no reply.now }
{
    if reply.starts_with("refused ") {
        return Some(Reason::words(refusal_named(reply)));
    }
    let words = match reply {
        "unreadable" => "no RTP header stands in front",
        "foreign" => "no receiving stream has this SSRC and payload type",
        "damaged" =>
            "its padding or its redundancy can't be read, or its payload is empty or of another type",
        "refused" => "its number came before, or is 1,024 or more below the greatest",
        "fault Memory" => "memory runs out; the unit stays",
        "fault Payload" => "a packet of the frame isn't of its format; the frame is done with",
        _ => return None,
    };
    Some(Reason::words(words))
}

/// Why a call refuses.
fn refusal_named(reply: &str) -> &'static str {
    for (known, words) in &REFUSALS {
        if *known == reply {
            return words;
        }
    }
    "the call refused"
}
