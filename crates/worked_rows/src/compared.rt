//! Worked rows, and what comes of them.

use crate::refusal_rows::refusal_rows;
use crate::sessions::{
    extensions_that_would_be_read_otherwise_are_refused,
    lines_that_would_be_read_otherwise_are_refused, offers_say_the_lines_of_the_session,
};
use crate::stream_rows::stream_rows;
use crate::value_rows::value_rows;
use crate::worked_rows::{
    a_limit_that_is_too_small, a_time_in_milliseconds, a_time_that_does_not_fit,
    receive_all_hands_out_in_order, receive_owned_hands_out_in_order,
};

/// Prints a line for each row, and returns whether each is as it must be.
pub(crate) fn print_rows(rt: &HostRuntime) -> bool {
    let alloc = rt.alloc();
    let rows = [
        ("row 12, receive_all", receive_all_hands_out_in_order(alloc)),
        (
            "row 12, receive_owned",
            receive_owned_hands_out_in_order(alloc),
        ),
        (
            "row 20, a time that does not fit",
            a_time_that_does_not_fit(alloc),
        ),
        (
            "a limit that is too small",
            a_limit_that_is_too_small(alloc),
        ),
        ("a time in milliseconds", a_time_in_milliseconds(alloc)),
        (
            "an offer with lines of the session",
            offers_say_the_lines_of_the_session(alloc),
        ),
        (
            "lines that would be read otherwise",
            lines_that_would_be_read_otherwise_are_refused(alloc),
        ),
        (
            "extensions that would be read otherwise",
            extensions_that_would_be_read_otherwise_are_refused(alloc),
        ),
    ];
    let mut are_right = true;
    for (name, row) in &rows {
        are_right = print_row(rt, name, *row) && are_right;
    }
    for (name, row) in &refusal_rows(alloc) {
        are_right = print_row(rt, name, *row) && are_right;
    }
    for (name, row) in &stream_rows(alloc) {
        are_right = print_row(rt, name, *row) && are_right;
    }
    for (name, is_right) in &value_rows() {
        are_right = print_row(rt, name, Some(*is_right)) && are_right;
    }
    are_right
}

/// Prints a row's name and what came of it, and returns whether it is as it must be; None is a row of which a call was
/// refused.
fn print_row(rt: &HostRuntime, name: &str, row: Option<bool>) -> bool {
    let word = match row {
        Some(true) => "ok",
        Some(false) => "wrong",
        None => "refused",
    };
    let _ = println!(*rt; "{name}: {word}");
    matches!(row, Some(true))
}
