//! Laws of session texts: what is printed is read as itself.
#![tactic(auto)]

mod candidates;
mod formats;
mod lines;
mod mapped;
mod modes;
mod printed_parameters;
mod read_lines;
mod repeated_keys;
mod rows;
mod rows_back;
mod sections;
mod sources;
mod texts;
mod values;

pub use candidates::candidates_once_law;
pub use formats::{format_parts_law, format_values_law};
pub use lines::{
    candidate_words_law, names_law, other_lines_law, printed_lines_law, printed_session_lines_law,
    restrictions_law,
};
pub use mapped::mapped_types_law;
pub use modes::modes_law;
pub use printed_parameters::{
    fallbacks_law, formats_law, links_law, parameter_lists_law, plain_parameters_law,
};
pub use read_lines::{one_reading_law, read_lines_law, rounds_keep_plain_rows, sound_rows_law};
pub use repeated_keys::{
    entry_values_law, last_value_law, other_parameters_law, settled_pairs_law,
};
pub use rows::{
    read_rows_law, read_sections_law, row_lines_law, row_texts_law, rows_without_fault_law,
    static_types_law, writable_row_texts_law, written_row_texts_law,
};
pub use rows_back::plain_rows_come_back;
pub use sections::{section_formats_law, section_links_law};
pub use sources::sources_once_law;
pub use texts::{fits_nowhere_law, line_ends_law, printed_texts_law};
pub use values::{candidate_texts_law, fingerprint_texts_law};
