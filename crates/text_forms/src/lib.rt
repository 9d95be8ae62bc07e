//! What bytes are as text: blanks and quotes at the ends, digits, hexadecimal digits in lower case, the numbers that digits write,
//! numbers in decimal that are read and written, and UTF-8.
#![tactic(auto)]

mod blanks;
mod classes;
mod digits;
mod numbers;
mod quotes;
mod utf8;

pub use blanks::without_blanks;
pub use classes::{all_digits, all_lower_hex, is_digit, is_lower_hex};
pub use digits::{digits_value, short_value};
pub use numbers::{append_decimal, decimal_text, is_decimal_of, is_number, number_of};
pub use quotes::without_quotes;
pub use utf8::{is_utf8, text_of};
