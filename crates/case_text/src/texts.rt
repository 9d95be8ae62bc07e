//! Lines, words and numbers of a text.
use crate::{Fault, Told};
use gate_base::List;
use std::alloc::Global;

/// Whether a line is empty, a comment, or one that is expected.
pub fn is_line_passed_over(line: &str) -> bool {
    line.is_empty() || line.starts_with('#') || line == "=" || line.starts_with("= ")
}

/// What stands before the first such character, and what follows it.
pub fn cut_text(text: &str, mark: char) -> (&str, &str) {
    match text.split_once(mark) {
        Some(parts) => parts,
        None => (text, ""),
    }
}

/// The number that a text writes in decimal.
pub fn number_of_text(text: &str, told: &mut Told) -> u64 {
    match text.parse::<u64>() {
        Ok(number) => number,
        Err(_) => {
            told.note_fault(Fault::Unread("no number"));
            0
        }
    }
}

/// The numbers of a text with such characters between them.
pub fn numbers_of_text(alloc: Global, text: &str, between: char, told: &mut Told) -> List<u64> {
    let mut numbers = List::new(alloc);
    for word in text.split(between) {
        if !word.is_empty() {
            let number = number_of_text(word, told);
            told.push(&mut numbers, number);
        }
    }
    numbers
}

/// The words of a program, with a space between each two. The word `''` is the empty one.
pub fn words_of_text(alloc: Global, text: &str, told: &mut Told) -> Vec<String> {
    let mut words = Vec::new(alloc);
    for word in text.split(' ') {
        if !word.is_empty() {
            add_word_of_text(alloc, word, &mut words, told);
        }
    }
    words
}

fn add_word_of_text(alloc: Global, word: &str, to: &mut Vec<String>, told: &mut Told) {
    let text = if word == "''" { "" } else { word };
    if let Some(word) = told.keep_made(String::from_str(alloc, text)) {
        let done = to.push(word);
        told.check_done(done);
    }
}

/// The text of these bytes.
pub fn text_of_bytes<'a>(bytes: &'a [u8], told: &mut Told) -> &'a str {
    match str::from_utf8(bytes) {
        Ok(text) => text,
        Err(_) => {
            told.note_fault(Fault::Unread("no UTF-8"));
            ""
        }
    }
}
