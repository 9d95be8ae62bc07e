ghost use Rattle.std.specs.Prelude.{◌<◌, ◌≤◌, sum};
ghost use Rattle.slo_manifest.specs.Cover.{Lies};

use crate::ranges::Cover;

/// Where the bytes `from` to `to`, both included, lie in segments of these sizes, in bytes. It asks that the range
/// lies within them; a segment of size 0 has no byte and is passed over. It takes no memory.
pub fn cover(sizes: &[u64], from: u64, to: u64) -> Cover
    requires ordered { from ≤ to }
    requires within { to < sum sizes.now }
    ensures first { Lies sizes.now from result.first result.skip }
    ensures last { Lies sizes.now to result.last result.end }
    ensures in_order { result.first ≤ result.last }
{
    let (first, skip) = segment_of_byte(sizes, from);
    let (last, end) = segment_of_byte(sizes, to);
    Cover {
        first,
        skip,
        last,
        end,
    }
}

/// The segment that a byte lies in, and the bytes of it before that byte.
fn segment_of_byte(sizes: &[u64], at: u64) -> (usize, u64)
    requires { at < sum sizes.now }
    ensures { Lies sizes.now at result.0 result.1 }
{
    let mut left = at;
    for (index, size) in sizes.iter().enumerate() {
        if left < *size {
            return (index, left);
        }
        left -= *size;
    }
    unreachable!()
}
