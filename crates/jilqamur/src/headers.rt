//! Headers, padding and sequence numbers.

ghost use Rattle.std.specs.Prelude.{◌≡◌, ◌≢◌, ◌++◌, length, drop, Some, None, MatchOption};
ghost use Rattle.rtp_wire.specs.Header.{header_in, spelled};
ghost use Rattle.rtp_wire.specs.Padding.{unpadded};
ghost use Rattle.rtp_wire.specs.Widening.{widened};
ghost use Rattle.rtp_wire.specs.Maps.{empty_map};
ghost use Rattle.jilqamur.specs.Codes.{ok, unreadable, damaged, unwritable};
ghost use Rattle.jilqamur.specs.Headers.{as_wire, as_header, write_outcome};

use crate::codes;
use crate::header::{WireHeader, header_of, read_header};
use rtp_wire::{ExtensionMap, extend_u16, unpad_payload};

/// The header in front of a datagram.
#[unsafe(no_mangle)]
pub extern "C" fn jilqamur_header_read(datagram: &[u8], header: &mut WireHeader) -> u32
    ensures read { result ≡ ok → header_in empty_map datagram.now ≢ None }
    ensures header { MatchOption (header_in empty_map datagram.now) (result ≡ unreadable)
        (λ h. (result ≡ ok) × (header.new ≡ as_wire h)) }
    ensures kept { result ≢ ok → header.new ≡ header.old }
{
    match read_header(datagram) {
        Some(read) => {
            *header = read;
            codes::OK
        }
        None => codes::UNREADABLE,
    }
}

/// Writes the header to the front of the buffer, and returns `OK`; the bytes after it don't change.
/// `UNWRITABLE` if the payload type is above 127 or there are more than 15 CSRCs; otherwise
/// `TOO_SMALL` if the buffer is shorter than the header; then the buffer is unchanged. `needed` is
/// the header's length, but isn't written for `UNWRITABLE`.
#[unsafe(no_mangle)]
pub extern "C" fn jilqamur_header_write(
    header: &WireHeader,
    buffer: &mut [u8],
    needed: &mut usize,
) -> u32
    ensures outcome { result ≡ write_outcome header.now buffer.old }
    ensures needed { result ≢ unwritable → needed.new ≡ length (spelled empty_map (as_header header.now)) }
    ensures written { result ≡ ok → buffer.new ≡ spelled empty_map (as_header header.now)
        ++ drop (length (spelled empty_map (as_header header.now))) buffer.old }
    ensures kept { result ≢ ok → buffer.new ≡ buffer.old }
    ensures unwritable { result ≡ unwritable → needed.new ≡ needed.old }
{
    if header.payload_type >= 128 || header.csrc_count > 15 {
        return codes::UNWRITABLE;
    }
    let exts = ExtensionMap::empty();
    let header = header_of(header);
    *needed = header.wire_len(&exts);
    if buffer.len() < *needed {
        return codes::TOO_SMALL;
    }
    header.write_to(buffer, &exts);
    codes::OK
}

/// The length of a payload without its padding.
#[unsafe(no_mangle)]
pub extern "C" fn jilqamur_payload_unpad(has_padding: bool, payload: &[u8], len: &mut usize) -> u32
    ensures payload { MatchOption (unpadded has_padding payload.now) (result ≡ damaged)
        (λ rest. (result ≡ ok) × (len.new ≡ length rest)) }
    ensures kept { result ≢ ok → len.new ≡ len.old }
{
    match unpad_payload(has_padding, payload) {
        Some(rest) => {
            *len = rest.len();
            codes::OK
        }
        None => codes::DAMAGED,
    }
}

/// The number nearest to the previous one with these low 16 bits, modulo 2^64.
#[unsafe(no_mangle)]
pub extern "C" fn jilqamur_number_widen(previous: u64, low: u16) -> u64
    ensures { result ≡ widened (Some previous) low }
{
    extend_u16(Some(previous), low)
}
