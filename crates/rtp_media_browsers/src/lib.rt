//! Browsers' texts as they come: what an end is handed of them, and what a browser gets for the end's texts.
#![tactic(auto)]

mod asking;
mod bundle;
mod calls;
mod copies;
mod defaults;
mod error;
mod fit;
mod following;
mod identifying;
mod identity;
mod in_common;
mod kept_lines;
mod known;
mod laws;
mod lines;
mod listing;
mod names;
mod placing;
mod reading;
mod received;
mod refusals;
mod repairing;
mod request;
mod said_lines;
mod state;
mod stopping;
mod telling;
mod tidying;
mod transport;
mod versions;
mod wanted;
mod with_transport;

pub use asking::{NamedRequest, RequestError, Target, requests_for};
pub use calls::{answer_for_end, for_browser, for_end};
pub use defaults::{map_for_browsers, rows_for_browsers};
pub use error::BrowserError;
pub use identity::{Identity, Said, Track};
pub use in_common::requests_in_common;
pub use laws::{
    answer_law, end_text_law, following_law, in_common_law, levels_law, lines_law, order_law,
    parameters_law, places_law, return_law, roles_law,
};
pub use request::SectionRequest;
pub use state::{BrowserState, Place, Remote};
pub use transport::{Gathering, Transport};
pub use wanted::sections_for;
