//! Session texts as data: sessions, media sections and attributes, what they say, printed, compared and copied.
#![tactic(auto)]

mod attributes;
mod candidate_keys;
mod candidates;
mod direction;
mod directions;
mod equality;
mod error;
mod faults;
mod known;
mod listed_candidates;
mod mapped;
mod media;
mod name_set;
mod preference;
mod printed;
mod printed_section;
mod printed_whole;
mod retransmitted;
mod said;
mod section_lists;
mod section_lookups;
mod session;
mod session_lookups;
mod source_infos;
mod sources;
mod texts;
mod value_equality;
mod whole_lookups;
mod whole_text;
mod wholes;

pub use equality::{
    attribute_equality_law, bandwidth_equality_law, sdp_equality_law, section_equality_law,
    session_attribute_equality_law, session_equality_law,
};
pub use error::SdpError;
pub use faults::{Inconsistency, are_consistent};
pub use media::{MediaAttribute, MediaLine, RtpMap};
pub use name_set::NameSet;
pub use printed_whole::{Sections, SessionAttributes};
pub use said::is_no_stream;
pub use session::{Sdp, Session, SessionAttribute};
pub use sources::sources_of;
pub use value_equality::candidate_equality_law;
