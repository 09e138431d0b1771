//! The grammar of session texts: lines, words, numbers and lists.
#![tactic(auto)]

mod cutting;
mod joined;
mod lined;
mod listed;
mod numbers;
mod primitives;
mod reads;
mod refusal;
mod stepped;
mod text;

pub use cutting::line;
pub use joined::{FingerprintFmt, Joined, Maybe};
pub use lined::{Lined, line_of};
pub use listed::Listed;
pub use numbers::{has_digits_alone, maybe_number_8, number_8, number_16, number_32, number_64};
pub use primitives::{
    behind, copied, copy, field, fitted, halves, maybe_some, named, some, split, stripped, text_of,
};
pub use reads::{Reads, first_part, list_of};
pub use refusal::Refusal;
pub use stepped::{Stepped, many, perhaps};
pub use text::Text;
