use gate_base::Memory;

/// Why a body in chunks says nothing. Of the first three the one that shows first in the bytes; `Memory` may stand in place of any
/// other, where memory ran out.
#[derive(Clone, Copy, Debug, PartialEq, Eq)]
pub enum ChunkedFault {
    /// The bytes are only the front of a body of the form, or a body of another number of data bytes than was announced (S3's code
    /// IncompleteBody).
    IncompleteBody,
    /// The bytes aren't of the form, or the trailers' signature isn't there (InvalidRequest).
    InvalidRequest,
    /// The signature of a chunk, or that of the trailers, isn't the one that is due (SignatureDoesNotMatch).
    SignatureDiffers,
    /// Memory ran out.
    Memory,
}

impl From<Memory> for ChunkedFault {
    ghost use Rattle.std.specs.Prelude.{◌≡◌};
    ghost use Rattle.chunked.specs.declared.fault.ChunkedFault.TheVariants.{Memory as out_of_memory};

    ghost from_gives = { λ _ fault. fault ≡ out_of_memory };

    fn from(_: Memory) -> ChunkedFault {
        ChunkedFault::Memory
    }
}
