//! Payload rows from the lines of a media section, and as such lines.
#![tactic(auto)]

mod attributes;
mod facts;
mod feedback;
mod given;
mod links;
mod mapped;
mod maps;
mod params;
mod section_rows;
mod type_lists;

pub use attributes::AsMediaAttrs;
pub use given::{
    Events, FromSdpFmtp, any_declined, events_given, is_amr_wb, most_of, with_attributes,
    with_events,
};
pub use maps::{ToCodecSpec, ToRtpMap};
pub use section_rows::RtpParams;
