//! Media sections as an end wants them, offers and answers them, and agrees on them; what is printed of a section is
//! read as it.
#![tactic(auto)]

mod agreement;
mod answered;
mod correspondence;
mod extmaps;
mod laws;
mod lines;
mod meaning;
mod offered;
mod printable;
mod printed;
mod read;
mod repairs;
mod rounds;
mod sections;
mod ssrc_list;
mod wanted;
mod wanted_laws;

pub use agreement::{AgreedSection, agreed_by_accept, agreed_by_answer};
pub use answered::{answered_section, flow};
pub use correspondence::{corresponds, may_follow};
pub use extmaps::{is_writable, map_of_extmaps};
pub use laws::extmaps_law;
pub use lines::types_listed;
pub use meaning::own_row_agrees;
pub use offered::offered_section;
pub use printable::printable_sections_law;
pub use printed::printed_sections_law;
pub use read::{kind_of, mid_of};
pub use repairs::are_sound_pairs;
pub use rounds::read_sections_keep_rows;
pub use sections::{Section, Source};
pub use wanted::{SectionSpec, are_sound};
pub use wanted_laws::wanted_sections_law;
