//! What a receiving stream hears and what it answers to its polls; and whole runs over every schedule of arrivals and
//! polls, for every payload format: legal under each sane one, exact under each tame one.
#![tactic(auto)]

mod bare;
mod hold_back;
mod illegal;
mod in_time;
mod laws;
mod losses;
mod runs;

pub use bare::bare_laws;
pub use hold_back::hold_back_law;
pub use illegal::not_legal;
pub use in_time::{in_rounds, prompt_in_time};
pub use laws::{
    exact_after_full_arrival, exact_under_tame_schedule, legal_under_sane_schedule,
    legal_with_drains, poll_laws, polls_come_to_an_end, selections_have_places, true_numbers,
};
pub use losses::{not_followed, nothing_withheld};
pub use runs::run_laws;
