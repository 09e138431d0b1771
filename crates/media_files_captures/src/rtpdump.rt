//! Files of rtpdump (rtptools, rtpdump 1.0).

ghost use Rattle.std.specs.Prelude.{◌≡◌, ◌≢◌, ◌<◌, ◌==◌, IfErr, IfOk, IfSome, None, length, map, position};
ghost use Rattle.media_files_captures.specs.Rtpdump.{IsRtpdump, behind_line, datagram_seen, first_line};
ghost use Rattle.media_files_captures.specs.Runs.{HoldsAll};
ghost use Rattle.media_files_captures.specs.Rtpdump.{read_datagram, rest_seen, rtpdump_record, rtpdump_records};

use crate::captures::CaptureError;
use crate::numbers::{ByteOrder, rest_from, u16_be, u32_at};
use std::alloc::{AllocError, Global};

/// A datagram that a file holds.
#[derive(Debug, Clone, Copy)]
pub struct RtpdumpDatagram<'a> {
    /// When it came, in milliseconds after the start.
    pub milliseconds: u32,
    /// How many bytes it had, if it is a packet of RTP; 0 for RTCP.
    pub rtp_len: u16,
    /// What the file keeps of it, from its front.
    pub bytes: &'a [u8],
}

/// The datagrams that a file holds, in their order.
#[derive(Debug, Drop)]
pub struct Rtpdump<'a> {
    /// Each datagram once.
    pub datagrams: Vec<RtpdumpDatagram<'a>>,
    /// What follows the last datagram, and is none.
    pub unread: &'a [u8],
}

/// How long the first line is, without its line feed.
fn line_len(file: &[u8]) -> Option<usize>
    ensures value { result ≡ position (λ b. b == 10) file.now }
    ensures within { IfSome result (λ n. n < length file.now) }
{
    file.iter().position(|byte| *byte == b'\n')
}

/// What follows the first line and the header.
fn behind_line(file: &[u8]) -> Option<&[u8]>
    ensures { rest_seen result ≡ behind_line (position (λ b. b == 10) file.now) file.now }
{
    let len = line_len(file)?;
    if file.len() < len + 17 {
        return None;
    }
    Some(rest_from(file, len + 17))
}

/// The records of a file, after its first line and its header; None if there are none.
#[tactic(auto, unfolding(crate::specs::Rtpdump::rtpdump_records))]
pub fn rtpdump_records(file: &[u8]) -> Option<&[u8]>
    ensures { rest_seen result ≡ rtpdump_records file.now }
{
    if !file.starts_with(b"#!rtpplay1.0 ") {
        return None;
    }
    behind_line(file)
}

/// The record in front of these bytes, and what follows it.
#[tactic(auto, unfolding(crate::specs::Rtpdump::rtpdump_record))]
fn rtpdump_record(bytes: &[u8]) -> Option<(RtpdumpDatagram<'_>, &[u8])>
    ensures value { read_datagram result ≡ rtpdump_record bytes.now }
    ensures shorter { IfSome result (λ r. length r.1.now < length bytes.now) }
{
    if bytes.len() < 8 {
        return None;
    }
    let len = u16_be(bytes, 0) as usize;
    if len < 8 || bytes.len() < len {
        return None;
    }
    let datagram = RtpdumpDatagram {
        milliseconds: u32_at(ByteOrder::Big, bytes, 4),
        rtp_len: u16_be(bytes, 2),
        bytes: &bytes[8..len],
    };
    Some((datagram, rest_from(bytes, len)))
}

/// The datagrams of records after the header of a file, up to the first that isn't whole: of all records, or of a piece
/// of them, after which reading goes on with what is left and the bytes that follow.
///
/// # Errors
/// There is no memory for the list.
pub fn read_rtpdump_records(alloc: Global, bytes: &[u8]) -> Result<Rtpdump<'_>, AllocError>
    ensures { IfOk result (λ d. HoldsAll rtpdump_record bytes.now (map datagram_seen d.datagrams.items) d.unread.now) }
{
    let mut datagrams = Vec::new(alloc);
    let mut unread = bytes;
    while let Some((datagram, behind)) = rtpdump_record(unread) {
        datagrams.push(datagram)?;
        unread = behind;
    }
    Ok(Rtpdump { datagrams, unread })
}

/// The datagrams of a file of rtpdump.
///
/// # Errors
/// The bytes don't begin with the first line and the header of such a file, or there is no memory for the list.
pub fn read_rtpdump(alloc: Global, file: &[u8]) -> Result<Rtpdump<'_>, CaptureError>
    ensures value { IfOk result (λ d. IsRtpdump file.now (map datagram_seen d.datagrams.items) d.unread.now) }
    ensures refused { IfErr result (λ e. e ≢ CaptureError.Memory
        → (e ≡ CaptureError.UnknownFormat) × (rtpdump_records file.now ≡ None)) }
{
    let Some(records) = rtpdump_records(file) else {
        return Err(CaptureError::UnknownFormat);
    };
    Ok(read_rtpdump_records(alloc, records)?)
}
