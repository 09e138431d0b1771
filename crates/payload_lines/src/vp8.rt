//! Ids in VP8 payload descriptors (RFC 7741 4.2).

use payload_core::{Vp8Descriptor, Vp8Patch};
use words_and_replies::{CommandLine, part};

// A payload of this many bytes reaches each id that a descriptor can have.
const REACHES_IDS: usize = 6;

/// What `read PAYLOAD` and `patch PAYLOAD [id=N] [tl0=N] [key=N]` give: the picture id, TL0PICIDX and KEYIDX of a
/// payload and whether it begins a keyframe, or the payload with other ids.
pub(crate) fn answer(line: &mut CommandLine<'_>) {
    let command = line.word();
    let payload = line.bytes();
    match Vp8Descriptor::parse(&payload) {
        Ok(descriptor) if command == "read" => line.put(format_args!(
            "{:?} {:?} {:?} {}",
            descriptor.picture_id(),
            descriptor.tl0_pic_idx(),
            descriptor.key_idx(),
            descriptor.starts_keyframe(&payload)
        )),
        Ok(descriptor) => patched(line, &descriptor, &payload),
        Err(fault) => line.refuse(fault),
    }
}

/// A payload with the ids that words say, each by its name, in place of its own.
fn patched(line: &mut CommandLine<'_>, descriptor: &Vp8Descriptor, payload: &[u8]) {
    let mut builder = descriptor.patch();
    for word in line.rest().split_whitespace() {
        let (name, number) = part(word, '=');
        builder = match name {
            "id" => builder.picture_id(line.value::<u16>(number)),
            "tl0" => builder.tl0_pic_idx(line.value::<u8>(number)),
            "key" => builder.key_idx(line.value::<u8>(number)),
            _ => return line.refuse(format_args!("no id {word}")),
        };
    }
    match builder.build() {
        Ok(patch) => copied(line, payload, &patch),
        Err(fault) => line.refuse(fault),
    }
}

/// A payload with the ids of a patch.
fn copied(line: &mut CommandLine<'_>, payload: &[u8], patch: &Vp8Patch) {
    if payload.len() < REACHES_IDS {
        return line.refuse("a payload of fewer than six bytes");
    }
    match vec![in line.alloc(); 0; payload.len()] {
        Ok(mut out) => {
            patch.copy_to(payload, &mut out);
            line.put_bytes(&out);
        }
        Err(fault) => line.refuse(fault),
    }
}
