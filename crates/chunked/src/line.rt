//! The lines behind the last chunk.
ghost use Rattle.std.specs.Prelude.{◌≡◌, ◌==◌, IfOk, map, slice_index};
ghost use Rattle.std.specs.Char.{to_ascii_lowercase};
ghost use Rattle.chunked.specs.Reading.{Gives, Reads, line_at, end_at, lines_at, with_front};
ghost use Rattle.chunked.specs.Sent.{pair_of};
ghost use Rattle.chunked.specs.Views.{line_of, lines, trailing};

use crate::ChunkedFault;
use crate::scan::{ChunkClass, read_chunk_run, read_chunk_word};
use gate_base::{Bytes, List, Memory, Pair};
use std::alloc::Global;
use text_forms::without_blanks;

/// A line: its name, the text behind the colon, and what stands before the CRLF that ends it.
#[derive(Clone, Copy)]
pub(crate) struct LineParts<'a> {
    pub name: &'a [u8],
    pub text: &'a [u8],
    pub feed: &'a [u8],
}

/// The line at the front, and the bytes behind it.
#[tactic(auto, unfolding(crate::specs::Reading::line_at))]
fn read_chunked_line(bytes: &[u8]) -> Result<(LineParts<'_>, &[u8]), ChunkedFault>
    ensures { Reads lines result (line_at bytes.now) }
{
    let (name, rest) = read_chunk_run(bytes, ChunkClass::Name, 1, 128)?;
    let rest = read_chunk_word(rest, b":")?;
    let (text, rest) = read_chunk_run(rest, ChunkClass::Text, 0, 1024)?;
    let (feed, rest) = read_chunk_run(rest, ChunkClass::Feed, 0, 1)?;
    let rest = read_chunk_word(rest, b"\r\n")?;
    Ok((LineParts { name, text, feed }, rest))
}

/// What a line says.
fn chunked_line_pair(alloc: Global, line: &LineParts<'_>) -> Result<Pair, Memory>
    ensures { IfOk result (λ pair. pair ≡ pair_of (line_of line.now)) }
{
    Ok(Pair {
        name: lowercase_chunked_name(alloc, line.name)?,
        value: Bytes::from_slice(alloc, without_blanks(line.text))?,
    })
}

fn lowercase_chunked_name(alloc: Global, name: &[u8]) -> Result<Bytes, Memory>
    ensures { IfOk result (λ text. text ≡ map to_ascii_lowercase name.now) }
{
    let mut text = Vec::from_slice(alloc, name)?;
    text.make_ascii_lowercase();
    Ok(Bytes::from_vec(text))
}

/// The lines at the front up to an empty one, at most so many, as names and values; and the bytes behind them.
#[tactic(auto, unfolding(crate::specs::Reading::lines_at))]
pub(crate) fn read_chunked_lines(
    alloc: Global,
    most: usize,
    bytes: &[u8],
) -> Result<(List<Pair>, &[u8]), ChunkedFault>
    ensures { Gives trailing result (lines_at most bytes.now) }
{
    let mut lines = List::new(alloc);
    let mut rest = bytes;
    'lines: for turn in 0..most {
        if begins_line_end(rest) {
            return end_chunked_lines(lines, rest);
        }
        let (line, behind) = read_chunked_line(rest)?;
        lines.push(chunked_line_pair(alloc, &line)?)?;
        rest = behind;
    }
    end_chunked_lines(lines, rest)
}

fn begins_line_end(bytes: &[u8]) -> bool
    ensures { result ≡ (slice_index bytes.now 0 == 13) }
{
    match bytes {
        [first, ..] => *first == b'\r',
        [] => false,
    }
}

/// The lines so far, where the empty line is at the front.
#[tactic(auto, unfolding(crate::specs::Reading::end_at))]
fn end_chunked_lines(lines: List<Pair>, bytes: &[u8]) -> Result<(List<Pair>, &[u8]), ChunkedFault>
    ensures { Reads trailing result (with_front lines (end_at bytes.now)) }
{
    let rest = read_chunk_word(bytes, b"\r\n")?;
    Ok((lines, rest))
}
