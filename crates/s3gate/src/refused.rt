//! What is said of words that are refused.

use gate_base::{Bytes, Memory};
use std::alloc::Global;

/// The commands, each with its options. Every option but the flag has a value.
const COMMANDS: [(&[u8], &[&[u8]]); 8] = [
    (
        b"session",
        &[b"--region", b"--least-part", b"--largest-body", FLAG],
    ),
    (
        b"serve",
        &[
            b"--connections",
            b"--region",
            b"--least-part",
            b"--largest-body",
            FLAG,
        ],
    ),
    (b"recover", &[]),
    (b"sweep", &[b"--forget-before"]),
    (b"check", &[]),
    (b"sign", &[b"--key", b"--region"]),
    (b"presign", &[b"--key", b"--region", b"--expires"]),
    (b"trial", &[b"--number", b"--requests"]),
];

/// The option without a value.
const FLAG: &[u8] = b"--extended";

/// The longest name of an option that is repeated.
const LONGEST_NAME: usize = 64;

/// The line, with its end: what of the words isn't taken, and what would be. Of an option its name is shown, and no value.
pub fn refused_words_line(alloc: Global, words: &[String]) -> Result<Bytes, Memory> {
    let mut line = Bytes::from_slice(alloc, b"s3gate: ")?;
    match words.split_first() {
        Some((command, behind)) => append_refused_command(&mut line, command.as_bytes(), behind)?,
        None => append_built_commands(&mut line)?,
    }
    line.append(b"\n")?;
    Ok(line)
}

fn append_built_commands(line: &mut Bytes) -> Result<(), Memory> {
    line.append(b"built are session, serve, recover, sweep, check, sign, presign and trial")
}

fn append_refused_command(
    line: &mut Bytes,
    command: &[u8],
    behind: &[String],
) -> Result<(), Memory> {
    for (name, options) in COMMANDS {
        if name == command {
            line.append(command)?;
            append_refused_option(line, options, behind)?;
            return append_options(line, options);
        }
    }
    append_built_commands(line)
}

fn append_refused_option(
    line: &mut Bytes,
    options: &[&[u8]],
    words: &[String],
) -> Result<(), Memory> {
    match foreign_word(options, words) {
        Some(word) if is_option_name(word) => {
            line.append(b" has no option ")?;
            line.append(word)
        }
        Some(_) => line.append(b" takes options alone"),
        None => line.append(
            b" lacks an option or a value, or has an option twice or a value of another form",
        ),
    }
}

/// The first word that is neither one of the options nor the value of one, up to its equals sign.
fn foreign_word<'a>(options: &[&[u8]], words: &'a [String]) -> Option<&'a [u8]> {
    let mut is_value = false;
    for word in words {
        let name = name_in_word(word.as_bytes());
        if is_value {
            is_value = false;
        } else if options.iter().any(|option| *option == name) {
            is_value = name != FLAG && name.len() == word.len();
        } else {
            return Some(name);
        }
    }
    None
}

fn name_in_word(word: &[u8]) -> &[u8] {
    match word.iter().position(|byte| *byte == b'=') {
        Some(end) => &word[..end],
        None => word,
    }
}

fn is_option_name(word: &[u8]) -> bool {
    word.starts_with(b"-")
        && word.len() <= LONGEST_NAME
        && word.iter().all(|byte| byte.is_ascii_graphic())
}

fn append_options(line: &mut Bytes, options: &[&[u8]]) -> Result<(), Memory> {
    if options.is_empty() {
        return line.append(b"; it has none");
    }
    let mut front: &[u8] = b"; it has ";
    for option in options {
        line.append(front)?;
        line.append(option)?;
        front = b", ";
    }
    Ok(())
}
