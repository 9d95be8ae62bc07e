//! What a body in chunks says.
ghost use Rattle.chunked.specs.Chunked.{Decodes};
ghost use Rattle.chunked.specs.Reading.{Gives, decoded_of};

use crate::form::is_signed;
use crate::gather::gather_chunks;
use crate::trailers::chunked_trailers;
use crate::{ChunkedFault, ChunkedForm, Seal};
use gate_base::{Bytes, List, Pair};
use std::alloc::Global;

/// What a body in chunks says: its data, and its trailers in their order, with names in lower case and values without the blanks
/// around them.
#[derive(Debug, Drop)]
pub struct Decoded {
    pub data: Bytes,
    pub trailers: List<Pair>,
}

/// What a body in chunks says of which `count` bytes of data are announced (by `x-amz-decoded-content-length`); or why it says
/// nothing, by the fault that shows first in its bytes. The data is moved together in the memory of the body, and each byte of it
/// is hashed at most once. `decodes` says what the answer means, and `gives` the same as a function. A form without signatures doesn't look at the seal.
pub fn decode(
    alloc: Global,
    form: ChunkedForm,
    seal: &Seal,
    count: u64,
    body: Vec<u8>,
) -> Result<Decoded, ChunkedFault>
    ensures decodes { Decodes form seal.now count body.items result }
    ensures gives { Gives (λ decoded. decoded) result (decoded_of form seal.now count body.items) }
{
    decoded_body(alloc, form, seal, count, body)
}

#[tactic(auto, unfolding(crate::specs::Reading::decoded_of))]
fn decoded_body(
    alloc: Global,
    form: ChunkedForm,
    seal: &Seal,
    count: u64,
    body: Vec<u8>,
) -> Result<Decoded, ChunkedFault>
    ensures { Gives (λ decoded. decoded) result (decoded_of form seal.now count body.items) }
{
    let trailers = chunked_trailers(alloc, form, seal, &body)?;
    let mut body = body;
    gather_chunks(&mut body, is_signed(form));
    if body.len() as u64 != count {
        return Err(ChunkedFault::IncompleteBody);
    }
    Ok(Decoded {
        data: Bytes::from_vec(body),
        trailers,
    })
}
