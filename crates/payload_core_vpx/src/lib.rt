//! VP8 payloads, sent, read, and with their ids patched, and VP9 payloads in flexible mode.
#![tactic(auto)]

mod laws;
mod vp8_descriptor;
mod vp8_patch;
mod vp8_receiver;
mod vp8_sender;
mod vp8_shift;
mod vp9_laws;
mod vp9_receiver;
mod vp9_sender;

pub use laws::{vp8_keyframe_law, vp8_law, vp8_layout_law, vp8_patch_law};
pub use vp8_descriptor::{Vp8Descriptor, Vp8DescriptorError, detect_vp8_keyframe};
pub use vp8_patch::{Vp8Patch, Vp8PatchBuilder, Vp8PatchError};
pub use vp8_receiver::Vp8Depacketizer;
pub use vp8_sender::{VP8_HEADER_SIZE, Vp8Packetizer};
pub use vp8_shift::{Vp8Shift, vp8_shift_law};
pub use vp9_laws::{vp9_law, vp9_layout_law};
pub use vp9_receiver::Vp9Depacketizer;
pub use vp9_sender::Vp9Packetizer;
