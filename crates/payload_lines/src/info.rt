//! What packets say of their frames.

use packet_info::packet_info;
use payload_core::Codec;
use words_and_replies::CommandLine;

/// `info PACKET 0` and, with the marker bit, `info PACKET 1`: whether a frame can begin and end with a packet, whether
/// it shows a key frame, and its layers.
pub(crate) fn info(line: &mut CommandLine<'_>, codec: Codec) {
    let packet = line.bytes();
    let told = packet_info(codec, &packet, line.word() == "1");
    line.put("says ");
    line.put_where(told.is_head, "head ");
    line.put_where(told.is_tail, "tail ");
    line.put_where(told.shows_key_frame, "key ");
    line.put_field("spatial", told.layers.spatial);
    line.put_field("temporal", told.layers.temporal);
}
