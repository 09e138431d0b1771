//! The line `m=` (RFC 8866 5.14).

ghost use Rattle.std.specs.Prelude.{◌≡◌};
ghost use Rattle.sdp_formats_grammar.specs.Refusals.{Gives};
ghost use Rattle.sdp_formats_reader.specs.Heads.{media_type, unknown_type, is_begun, proto, pt_number, formats};
ghost use Rattle.sdp_formats_reader.specs.Heads.{media_line};

use rtp_wire::Pt;
use sdp_formats_grammar::{
    Lined, Listed, Reads, Refusal, behind, fitted, list_of, number_8, some, split, stripped,
    text_of,
};
use sdp_formats_values::{MediaType, Proto};
use std::alloc::Global;

/// What a line `m=` says (RFC 8866 5.14).
#[derive(Debug, Drop)]
pub struct MediaHead {
    /// What the section carries.
    pub typ: MediaType,
    /// Whether its port is 0.
    pub disabled: bool,
    /// How it is carried.
    pub proto: Proto,
    /// The payload types; none if the list isn't of numbers up to 255.
    pub pts: Listed<Pt>,
}

// The number of a payload type, up to 255.
struct PtNumber;

impl Reads<Pt> for PtNumber {
    ghost use Rattle.sdp_formats_reader.specs.Heads.{pt_number};

    ghost reads = { pt_number };

    fn read(_alloc: Global, text: &str) -> Result<Pt, Refusal> {
        Ok(Pt::from(number_8(text)?))
    }
}

/// Does the word begin with the name of a kind?
fn is_begun(word: &str) -> bool
    ensures { result ≡ is_begun word.now }
{
    stripped(word, "audio").is_some()
        || stripped(word, "video").is_some()
        || stripped(word, "application").is_some()
}

fn unknown_type(alloc: Global, word: &str) -> Result<MediaType, Refusal>
    ensures { Gives result (unknown_type word.now) }
{
    if is_begun(word) {
        return Err(Refusal::Unfit);
    }
    Ok(MediaType::Unknown(text_of(alloc, word)?))
}

fn media_type(alloc: Global, word: &str) -> Result<MediaType, Refusal>
    ensures { Gives result (media_type word.now) }
{
    match word {
        "audio" => Ok(MediaType::Audio),
        "video" => Ok(MediaType::Video),
        "application" => Ok(MediaType::Application),
        _ => unknown_type(alloc, word),
    }
}

fn proto_of(word: &str) -> Result<Proto, Refusal>
    ensures { Gives result (proto word.now) }
{
    match word {
        "UDP/TLS/RTP/SAVPF" => Ok(Proto::Srtp),
        "DTLS/SCTP" => Ok(Proto::Sctp),
        "UDP/DTLS/SCTP" => Ok(Proto::Sctp),
        _ => Err(Refusal::Unfit),
    }
}

fn formats(alloc: Global, text: &str) -> Result<Listed<Pt>, Refusal>
    ensures { Gives result (formats text.now) }
{
    if text.is_empty() {
        return Ok(Listed::new(alloc));
    }
    if stripped(text, " ").is_some() {
        return Err(Refusal::Unfit);
    }
    match fitted(list_of::<Pt, PtNumber>(alloc, text, ' '))? {
        Some(pts) => Ok(pts),
        None => Ok(Listed::new(alloc)),
    }
}

fn media_line(alloc: Global, value: &str) -> Result<MediaHead, Refusal>
    ensures { Gives result (media_line.reads value.now) }
{
    let (word, rest) = split(value, ' ')?;
    let typ = media_type(alloc, word)?;
    let (port, rest) = split(rest, ' ')?;
    let port = some(port)?;
    let (word, list) = split(rest, ' ')?;
    let proto = proto_of(word)?;
    let pts = formats(alloc, list)?;
    Ok(MediaHead {
        typ,
        disabled: port == "0",
        proto,
        pts,
    })
}

/// The line `m=`.
pub struct HeadLine;

impl Lined<MediaHead> for HeadLine {
    ghost use Rattle.sdp_formats_reader.specs.Lines.{head_line};

    ghost form = { head_line };

    fn read(alloc: Global, content: &str) -> Result<MediaHead, Refusal> {
        media_line(alloc, behind(content, "m=")?)
    }

    fn exact_law() {}
}
