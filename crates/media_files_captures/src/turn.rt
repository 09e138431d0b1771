//! Datagrams that a TURN server relays (RFC 8656).

ghost use Rattle.std.specs.Prelude.{◌≡◌, ◌<◌, ◌≤◌, length};
ghost use Rattle.media_files_captures.specs.Turn.{bytes_shown, channel_data, data_attribute, indicated, is_indication};
ghost use Rattle.media_files_captures.specs.Turn.{is_on_channel, relayed};

use crate::interfaces::padded;
use crate::numbers::{ByteOrder, rest_from, u16_be, u32_at};

// The types of the messages Send and Data, and of the attribute that has what they relay.
const SEND: u16 = 0x16;

const DATA: u16 = 0x17;

const DATA_ATTRIBUTE: u16 = 0x13;

const MAGIC_COOKIE: u32 = 0x2112_a442;

/// What a message on a channel relays.
#[tactic(auto, unfolding(crate::specs::Turn::channel_data))]
fn channel_data(bytes: &[u8]) -> Option<&[u8]>
    ensures { bytes_shown result ≡ channel_data bytes.now }
{
    if bytes.len() < 4 {
        return None;
    }
    let end = 4 + u16_be(bytes, 2) as usize;
    if bytes.len() < end {
        return None;
    }
    Some(&bytes[4..end])
}

/// Whether a message of STUN is a Send or a Data indication.
fn is_indication(bytes: &[u8]) -> bool
    ensures value { result ≡ is_indication bytes.now }
{
    if bytes.len() < 20 {
        return false;
    }
    let kind = u16_be(bytes, 0);
    (kind == SEND || kind == DATA) && u32_at(ByteOrder::Big, bytes, 4) == MAGIC_COOKIE
}

/// The value of the first attribute DATA, among at most so many attributes.
#[tactic(auto, unfolding(crate::specs::Turn::data_attribute))]
fn data_attribute(most: usize, bytes: &[u8]) -> Option<&[u8]>
    ensures { bytes_shown result ≡ data_attribute most bytes.now }
{
    let mut rest = bytes;
    for _passed in 0..most {
        if rest.len() < 4 {
            return None;
        }
        let len = u16_be(rest, 2);
        let end = 4 + padded(len);
        if rest.len() < end {
            return None;
        }
        if u16_be(rest, 0) == DATA_ATTRIBUTE {
            return Some(&rest[4..4 + len as usize]);
        }
        rest = rest_from(rest, end);
    }
    None
}

/// What a Send or Data indication relays.
#[tactic(auto, unfolding(crate::specs::Turn::indicated))]
fn indicated(bytes: &[u8]) -> Option<&[u8]>
    requires { 20 ≤ length bytes.now }
    ensures { bytes_shown result ≡ indicated bytes.now }
{
    let end = 20 + u16_be(bytes, 2) as usize;
    if bytes.len() < end {
        return None;
    }
    data_attribute(bytes.len(), &bytes[20..end])
}

/// Whether a message is on a channel.
fn is_on_channel(bytes: &[u8]) -> bool
    requires { 0 < length bytes.now }
    ensures { result ≡ is_on_channel bytes.now }
{
    bytes[0] >= 64 && bytes[0] <= 79
}

/// The datagram that a message of TURN relays: on a channel (RFC 8656 12.4), or in a Send or a Data indication (RFC
/// 8656 11.1 and 11.3). None if it is no such message, or less than its length says.
#[tactic(auto, unfolding(crate::specs::Turn::relayed))]
pub fn relayed_in(message: &[u8]) -> Option<&[u8]>
    ensures { bytes_shown result ≡ relayed message.now }
{
    if message.is_empty() {
        return None;
    }
    if is_on_channel(message) {
        return channel_data(message);
    }
    if is_indication(message) {
        return indicated(message);
    }
    None
}
