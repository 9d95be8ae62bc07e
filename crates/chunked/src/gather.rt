//! The data of chunks, moved together in their place.
ghost use Rattle.std.specs.Prelude.{◌≡◌, ◌≤◌, ◌+◌, ◌++◌, length, take, drop};
ghost use Rattle.chunked.specs.Reading.{chunk_at, gathered_at, sizes_of};

use crate::chunk::read_chunk;

/// Leaves the bytes of the chunks alone, each moved once, up to an empty chunk or to what is no chunk. It takes no memory.
pub(crate) fn gather_chunks(body: &mut Vec<u8>, signed: bool)
    ensures { body.new.items ≡ gathered_at (length body.old.items) signed body.old.items }
{
    let mut to = 0;
    let mut at = 0;
    'chunks: loop {
        let (count, left) = chunk_sizes(signed, &body[at..]);
        if count == 0 {
            body.truncate(to);
            return;
        }
        let end = body.len() - left;
        move_chunk(body, end - 2 - count, count, to);
        to += count;
        at = end;
    }
}

/// How many bytes the chunk at the front has, none where it is no chunk, and how many are behind it.
fn chunk_sizes(signed: bool, bytes: &[u8]) -> (usize, usize)
    ensures { (result.0, result.1) ≡ sizes_of (chunk_at signed bytes.now) }
{
    match read_chunk(signed, bytes) {
        Ok((chunk, rest)) => (chunk.bytes.len(), rest.len()),
        Err(_) => (0, 0),
    }
}

/// Moves so many bytes to the left.
fn move_chunk(body: &mut Vec<u8>, from: usize, count: usize, to: usize)
    requires within { from + count ≤ length body.old.items }
    requires left { to ≤ from }
    ensures front { take (to + count) body.new.items ≡ take to body.old.items ++ take count (drop from body.old.items) }
    ensures behind { drop (from + count) body.new.items ≡ drop (from + count) body.old.items }
    ensures same { length body.new.items ≡ length body.old.items }
{
    body.copy_within(from..from + count, to);
}
