//! What a request is answered whose signature, or whose body in chunks, is refused.
ghost use Rattle.std.specs.Prelude.{◌≡◌};
ghost use Rattle.extended.specs.Refused.{refused_by, refused_by_chunks};

use chunked::ChunkedFault;
use s3_machine::Code;
use s3_requests::Meant;
use sigv4::Refusal;

/// What a request is answered whose signature is refused.
pub fn refused_by(refusal: Refusal) -> Meant
    ensures { result ≡ refused_by refusal }
{
    match refusal {
        Refusal::HeaderMalformed | Refusal::WrongScope => {
            Meant::refused(Code::AuthorizationHeaderMalformed)
        }
        Refusal::UnknownKey => Meant::refused(Code::InvalidAccessKeyId),
        Refusal::UnsignedHeader | Refusal::NoDate => Meant::refused(Code::AccessDenied),
        Refusal::Skewed => Meant::refused(Code::RequestTimeTooSkewed),
        Refusal::Streaming => Meant::refused(Code::NotImplemented),
        Refusal::NoPayloadHash => Meant::refused(Code::InvalidRequest),
        Refusal::SignatureDiffers(_) => Meant::refused(Code::SignatureDoesNotMatch),
        Refusal::PayloadDiffers => Meant::refused(Code::XAmzContentSHA256Mismatch),
        Refusal::Memory => Meant::Memory,
    }
}

/// What a request is answered whose body says nothing.
pub(crate) fn refused_by_chunks(fault: ChunkedFault) -> Meant
    ensures { result ≡ refused_by_chunks fault }
{
    match fault {
        ChunkedFault::IncompleteBody => Meant::refused(Code::IncompleteBody),
        ChunkedFault::InvalidRequest => Meant::refused(Code::InvalidRequest),
        ChunkedFault::SignatureDiffers => Meant::refused(Code::SignatureDoesNotMatch),
        ChunkedFault::Memory => Meant::Memory,
    }
}
