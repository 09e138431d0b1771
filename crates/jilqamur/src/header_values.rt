//! Values of header extensions of a datagram, without a stream.

ghost use Rattle.std.specs.Prelude.{◌≡◌, ◌≢◌, ◌≤◌, ◌++◌, length, drop, true};
ghost use Rattle.rtp_wire.specs.Header.{header_in};
ghost use Rattle.rtp_media_ends.specs.Stops.{Where};
ghost use Rattle.jilqamur.specs.Codes.{ok, out_of_range};
ghost use Rattle.jilqamur.specs.HeaderValues.{TellsHeader, are_ids, len_told, map_of, name_told, names_told, with_id};

use crate::codes;
use crate::values::WireValues;
use rtp_wire::{Extension, ExtensionMap, ExtensionValues, Mid, Rid, RtpHeader};

/// The ids of header extensions (RFC 8285), 1 to 16; 0 for one that has none. Of two with one id the later one has it.
#[repr(C)]
#[derive(Clone, Copy, Drop)]
pub struct WireIds {
    /// The audio level and voice activity.
    pub audio_level: u8,
    /// The time of sending.
    pub abs_send_time: u8,
    /// The transport-wide sequence number.
    pub transport_cc: u8,
    /// The video orientation.
    pub video_orientation: u8,
    /// The least and the greatest playout delay.
    pub play_delay: u8,
    /// The content type of video.
    pub video_content_type: u8,
    /// The time of capture and the clock offset.
    pub capture_time: u8,
    /// The media section's mid.
    pub mid: u8,
    /// The stream's id in its section (RID).
    pub rid: u8,
    /// The id of the stream that is repaired.
    pub repaired_rid: u8,
}

/// The names of section and stream that a datagram carries; bytes after a name are 0.
#[repr(C)]
#[derive(Clone, Copy, Drop)]
pub struct WireNames {
    /// Whether there is a mid.
    pub has_mid: bool,
    /// The length of the mid in bytes.
    pub mid_len: u8,
    /// The mid (RFC 9143 15).
    pub mid: [u8; 16],
    /// Whether there is a RID.
    pub has_rid: bool,
    /// The length of the RID in bytes.
    pub rid_len: u8,
    /// The RID (RFC 8852 4.1).
    pub rid: [u8; 8],
    /// Whether there is the RID of a stream that is repaired.
    pub has_repaired_rid: bool,
    /// The length of that RID in bytes.
    pub repaired_rid_len: u8,
    /// That RID (RFC 8852 4.2).
    pub repaired_rid: [u8; 8],
}

impl WireIds {
    #[tactic(auto, unfolding(crate::specs::HeaderValues::are_ids))]
    fn are_ids(&self) -> bool
        ensures { result ≡ are_ids self.now }
    {
        self.audio_level <= 16
            && self.abs_send_time <= 16
            && self.transport_cc <= 16
            && self.video_orientation <= 16
            && self.play_delay <= 16
            && self.video_content_type <= 16
            && self.capture_time <= 16
            && self.mid <= 16
            && self.rid <= 16
            && self.repaired_rid <= 16
    }

    #[tactic(auto, unfolding(crate::specs::HeaderValues::are_ids, crate::specs::HeaderValues::map_of))]
    fn map(&self) -> ExtensionMap
        requires { are_ids self.now ≡ true }
        ensures { result ≡ map_of self.now }
    {
        let mut exts = ExtensionMap::empty();
        put(&mut exts, self.audio_level, Extension::AudioLevel);
        put(&mut exts, self.abs_send_time, Extension::AbsoluteSendTime);
        put(
            &mut exts,
            self.transport_cc,
            Extension::TransportSequenceNumber,
        );
        put(
            &mut exts,
            self.video_orientation,
            Extension::VideoOrientation,
        );
        put(&mut exts, self.play_delay, Extension::PlayoutDelay);
        put(
            &mut exts,
            self.video_content_type,
            Extension::VideoContentType,
        );
        put(&mut exts, self.capture_time, Extension::AbsoluteCaptureTime);
        put(&mut exts, self.mid, Extension::RtpMid);
        put(&mut exts, self.rid, Extension::RtpStreamId);
        put(&mut exts, self.repaired_rid, Extension::RepairedRtpStreamId);
        exts
    }
}

/// Gives an id to an extension, unless it is 0.
fn put(exts: &mut ExtensionMap, id: u8, extension: Extension)
    requires { id ≤ 16 }
    ensures { exts.new ≡ with_id exts.old id extension }
{
    if id >= 1 {
        exts.set(id, extension);
    }
}

/// Copies a name over the front of bytes, and returns its length.
fn put_name(name: &[u8], bytes: &mut [u8]) -> u8
    requires fits { length name.now ≤ length bytes.old }
    requires counts { length name.now ≤ 255 }
    ensures bytes { bytes.new ≡ name.now ++ drop (length name.now) bytes.old }
    ensures len { result ≡ length name.now }
{
    bytes[..name.len()].copy_from_slice(name);
    name.len() as u8
}

/// A mid in zeros, and its length.
#[tactic(auto, using(crate::proofs::Named::padded, crate::proofs::Named::short))]
fn mid_told(name: Option<Mid>) -> ([u8; 16], u8)
    ensures bytes { result.0 ≡ name_told 16 name }
    ensures len { result.1 ≡ len_told name }
{
    let mut bytes = [0; 16];
    match name {
        None => (bytes, 0),
        Some(name) => {
            let len = put_name(name.as_bytes(), &mut bytes);
            (bytes, len)
        }
    }
}

/// A RID in zeros, and its length.
#[tactic(auto, using(crate::proofs::Named::padded, crate::proofs::Named::short))]
fn rid_told(name: Option<Rid>) -> ([u8; 8], u8)
    ensures bytes { result.0 ≡ name_told 8 name }
    ensures len { result.1 ≡ len_told name }
{
    let mut bytes = [0; 8];
    match name {
        None => (bytes, 0),
        Some(name) => {
            let len = put_name(name.as_bytes(), &mut bytes);
            (bytes, len)
        }
    }
}

/// The names among the values of header extensions.
fn names_told(values: &ExtensionValues) -> WireNames
    ensures { result ≡ names_told values.now }
{
    let (mid, mid_len) = mid_told(values.mid);
    let (rid, rid_len) = rid_told(values.rid);
    let (repaired_rid, repaired_rid_len) = rid_told(values.rid_repair);
    WireNames {
        has_mid: values.mid.is_some(),
        mid_len,
        mid,
        has_rid: values.rid.is_some(),
        rid_len,
        rid,
        has_repaired_rid: values.rid_repair.is_some(),
        repaired_rid_len,
        repaired_rid,
    }
}

/// Tells the values of the header extensions in front of a datagram, read by these ids, and the names of its section
/// and stream, and returns `OK`; or `OUT_OF_RANGE` if an id is above 16, `UNREADABLE` if the datagram doesn't begin
/// with a header, and nothing is told.
#[unsafe(no_mangle)]
pub extern "C" fn jilqamur_header_values(
    datagram: &[u8],
    ids: &WireIds,
    values: &mut WireValues,
    names: &mut WireNames,
) -> u32
    ensures answer { Where (are_ids ids.now)
        (TellsHeader (header_in (map_of ids.now) datagram.now) result values.new names.new) (result ≡ out_of_range) }
    ensures values { result ≢ ok → values.new ≡ values.old }
    ensures names { result ≢ ok → names.new ≡ names.old }
{
    if !ids.are_ids() {
        return codes::OUT_OF_RANGE;
    }
    match RtpHeader::parse_values(datagram, &ids.map()) {
        None => codes::UNREADABLE,
        Some(told) => {
            *values = WireValues::of(&told);
            *names = names_told(&told);
            codes::OK
        }
    }
}
