use gate_base::Memory;

/// Why a request isn't taken for its signature's sake, in the order in which the reasons are tried: the first that fits
/// is answered. `Memory` may stand in place of any other, where memory ran out.
#[derive(Clone, Copy, Debug, PartialEq, Eq)]
pub enum Refusal {
    /// More than one Authorization header, or one that hasn't the form of Signature Version 4 (S3's code
    /// AuthorizationHeaderMalformed).
    HeaderMalformed,
    /// No key has the id (InvalidAccessKeyId).
    UnknownKey,
    /// The credential is of another region, or of a service other than `s3` (AuthorizationHeaderMalformed).
    WrongScope,
    /// There is no `host`, or `host` or a header `x-amz-*` isn't among the signed names (AccessDenied).
    UnsignedHeader,
    /// There isn't exactly one `x-amz-date`, or it is no time of the calendar, or not of the credential's day
    /// (AccessDenied).
    NoDate,
    /// The time differs from the moment by more than 900 seconds (RequestTimeTooSkewed).
    Skewed,
    /// The body would come in signed pieces (NotImplemented).
    Streaming,
    /// There isn't exactly one `x-amz-content-sha256`, or it is neither 64 lower-case hexadecimal digits nor
    /// `UNSIGNED-PAYLOAD` (InvalidRequest).
    NoPayloadHash,
    /// The signature isn't that of the request; with the SHA-256 of the canonical request that was expected
    /// (SignatureDoesNotMatch).
    SignatureDiffers([u8; 32]),
    /// The hash isn't that of the body (XAmzContentSHA256Mismatch).
    PayloadDiffers,
    /// Memory ran out.
    Memory,
}

impl From<Memory> for Refusal {
    ghost use Rattle.std.specs.Prelude.{◌≡◌};
    ghost use Rattle.sigv4.specs.declared.refusal.Refusal.TheVariants.{Memory as out_of_memory};

    ghost from_gives = { λ _ refusal. refusal ≡ out_of_memory };

    fn from(_: Memory) -> Refusal {
        Refusal::Memory
    }
}
