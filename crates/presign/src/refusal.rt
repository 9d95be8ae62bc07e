use gate_base::Memory;

/// Why a presigned request isn't taken, in the order in which the reasons are tried: the first that fits is answered.
/// `Memory` may stand in place of any other, where memory ran out.
#[derive(Clone, Copy, Debug, PartialEq, Eq)]
pub enum QueryRefusal {
    /// There is an Authorization header besides; one of the six parameters isn't there exactly once or hasn't its form; or
    /// the time isn't of the credential's day (S3's code AuthorizationQueryParametersError).
    QueryMalformed,
    /// No key has the id (InvalidAccessKeyId).
    UnknownKey,
    /// The credential is of another region, or of a service other than `s3` (AuthorizationQueryParametersError).
    WrongScope,
    /// There is no `host`, or `host` or a header `x-amz-*` other than `x-amz-content-sha256` isn't among the signed names
    /// (AccessDenied).
    UnsignedHeader,
    /// The body would come in signed pieces (NotImplemented).
    Streaming,
    /// The moment is more than 900 seconds before the time of the signature, or later than the seconds that it holds for
    /// (AccessDenied).
    OutOfTime,
    /// The signature isn't that of the request; with the SHA-256 of the canonical request that was expected
    /// (SignatureDoesNotMatch).
    SignatureDiffers([u8; 32]),
    /// Memory ran out.
    Memory,
}

impl From<Memory> for QueryRefusal {
    ghost use Rattle.std.specs.Prelude.{◌≡◌};
    ghost use Rattle.presign.specs.declared.refusal.QueryRefusal.TheVariants.{Memory as out_of_memory};

    ghost from_gives = { λ _ refusal. refusal ≡ out_of_memory };

    fn from(_: Memory) -> QueryRefusal {
        QueryRefusal::Memory
    }
}
