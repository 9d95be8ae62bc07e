//! The notation of case files: how the lines of a case give bytes, numbers and what a run is given, and how what came is told as
//! text. `docs/TESTING.md` has it for those who write cases.
#![tactic(auto)]

mod escapes;
mod fault;
mod given;
mod lines;
mod outside;
mod pieces;
mod texts;
mod told;
mod written;

pub use escapes::{bytes_of_escaped_text, hex_bytes};
pub use fault::Fault;
pub use given::{
    Given, KEY_TEXT, check_given_lines, given_connections, given_keys, given_moments,
    given_numbers, given_text_behind, has_failing_call, has_given_line,
};
pub use lines::append_bytes_of_lines;
pub use outside::{LARGE, clock_of_run, line_of_one_connection, line_of_run};
pub use pieces::{
    are_pieces_successful, begins_reply, is_piece_service_unavailable, reply_of_pieces,
    tell_pieces, tell_pieces_without_calls, tell_statuses_of_pieces,
};
pub use texts::{
    cut_text, is_line_passed_over, number_of_text, numbers_of_text, text_of_bytes, words_of_text,
};
pub use told::{Told, copy_of_bytes, tell_owned_value, tell_value};
pub use written::{tell_bytes_by_lines, tell_text_by_lines};
