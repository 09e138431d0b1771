//! SDP made to be slow to process: a few lines repeated many times, naming each other.

use crate::measured::{Round, measure};
use crate::tally::Tally;
use sdp_formats::{RtpParams, sdp_parser};
use std::alloc::Global;
use std::io;

/// What is before the types of the one section, of which this is the first.
const HEAD: &str = "v=0\r\no=- 1 2 IN IP4 0.0.0.0\r\ns=-\r\nt=0 0\r\nm=audio 9 UDP/TLS/RTP/SAVPF 0";

/// What is between its types and its other lines.
const SECTION: &str = "\r\nc=IN IP4 0.0.0.0\r\na=mid:0\r\na=sendrecv\r\n";

/// A session text that is read with the rows of its sections.
#[derive(Drop)]
struct Reading<'a> {
    text: &'a str,
}

/// Counts rows, and the bytes of the text with each section.
impl Round for Reading<'_> {
    ghost use Rattle.benchmarks.specs.MadeTexts.{CountsRows};

    ghost counts = { CountsRows };

    fn round(&mut self, alloc: Global, _number: u32, tally: &mut Tally) {
        if let Ok((sdp, _)) = sdp_parser(alloc, self.text) {
            for section in sdp.media_lines.as_slice() {
                if let Ok(rows) = section.rtp_params(alloc) {
                    tally.add(rows.len(), self.text.len());
                }
            }
        }
    }
}

/// Reads, once, a text whose section lists these extra types and repeats these lines so many times.
fn read_made(
    rt: &HostRuntime,
    what: &str,
    types: &str,
    lines: &str,
    times: usize,
) -> io::Result<()> {
    let lines = lines.repeat(rt.alloc(), times)?;
    let text = [HEAD, types, SECTION, lines.as_str()].concat(rt.alloc())?;
    read_once(rt, what, text.as_str())
}

/// Reads a text once with its rows.
fn read_once(rt: &HostRuntime, what: &str, text: &str) -> io::Result<()> {
    let read = measure(rt, what, "read", &mut Reading { text }, 1)?;
    println!(*rt;
        "{what}: {} rows\n{what}: {} bytes",
        read.packets, read.bytes
    )
}

/// Reads, once, a text whose section maps this many types, each with a hundred lines more.
fn read_mapped(rt: &HostRuntime, count: u8) -> io::Result<()> {
    let alloc = rt.alloc();
    let mut maps = String::new(alloc);
    let mut lines = String::new(alloc);
    for pt in 0..count {
        maps.push_str(format!(in alloc; "a=rtpmap:{pt} VP8/90000\r\n")?.as_str())?;
        lines.push_str(format!(in alloc; "a=fmtp:{pt} x=1\r\na=rtcp-fb:{pt} nack\r\n")?.as_str())?;
    }
    let lines = lines.as_str().repeat(alloc, 50)?;
    let text = [HEAD, SECTION, maps.as_str(), lines.as_str()].concat(alloc)?;
    let what = format!(in alloc; "{count} types mapped")?;
    read_once(rt, what.as_str(), text.as_str())
}

/// Each kind of text, read with its rows.
pub(crate) fn measure_all(rt: &HostRuntime) -> io::Result<()> {
    let types = " 0".repeat(rt.alloc(), 50_000)?;
    read_made(
        rt,
        "one type listed again",
        types.as_str(),
        "a=x\r\n",
        20_000,
    )?;
    read_made(
        rt,
        "one retransmission named again",
        "",
        "a=fmtp:97 apt=96\r\n",
        10_000,
    )?;
    let lines = "a=rtpmap:1 PCMU/8000\r\na=fmtp:2 apt=1\r\n";
    read_made(rt, "one type mapped again", "", lines, 5_000)?;
    for count in [16, 32, 64, 128] {
        read_mapped(rt, count)?;
    }
    Ok(())
}
