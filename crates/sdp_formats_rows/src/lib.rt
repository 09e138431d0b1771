//! Payload rows: codecs with their payload types and format parameters, how well two match, and the rows by default.
#![tactic(auto)]

mod format;
mod format_scores;
mod h264;
mod kinds;
mod last_values;
mod level_scores;
mod levels;
mod one_param;
mod parameters;
mod plain;
mod points;
mod printing;
mod replaced;
mod row;
pub mod rows;
mod same;
mod score;
mod set_values;
mod spec;

pub use format::FormatParams;
pub use format_scores::{format_score, modes_score};
pub use kinds::rows_of_kind;
pub use last_values::{gives_level, last_value};
pub use level_scores::{GivenH265, GivenH266, GivenLevel, level_agreed};
pub use plain::is_media_codec;
pub use printing::numbers_of;
pub use replaced::{drop_rows, put_rows};
pub use row::PayloadParams;
pub use same::{alike, same_byte, same_flag, same_format, same_half_word};
pub use score::{scores_in_range, scores_symmetric};
pub use spec::CodecSpec;
