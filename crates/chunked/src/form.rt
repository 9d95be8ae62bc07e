//! The forms in which a body comes in chunks.
ghost use Rattle.std.specs.Prelude.{◌≡◌};
ghost use Rattle.chunked.specs.Forms.{form_of, is_signed, most_lines};

/// How a body comes in chunks, by the value of `x-amz-content-sha256` (Amazon S3 API Reference, "Signature calculations for
/// the Authorization header: transferring a payload in multiple chunks").
#[derive(Clone, Copy, Debug, PartialEq, Eq)]
pub enum ChunkedForm {
    /// `STREAMING-UNSIGNED-PAYLOAD-TRAILER`: chunks without signatures, and trailers.
    UnsignedTrailer,
    /// `STREAMING-AWS4-HMAC-SHA256-PAYLOAD`: chunks with signatures, and no trailer.
    Signed,
    /// `STREAMING-AWS4-HMAC-SHA256-PAYLOAD-TRAILER`: chunks with signatures, and trailers with one.
    SignedTrailer,
}

/// The form that a value of `x-amz-content-sha256` names, byte by byte; none for every other text.
pub fn form_of(value: &[u8]) -> Option<ChunkedForm>
    ensures { result ≡ form_of value.now }
{
    if value == b"STREAMING-UNSIGNED-PAYLOAD-TRAILER".as_slice() {
        Some(ChunkedForm::UnsignedTrailer)
    } else if value == b"STREAMING-AWS4-HMAC-SHA256-PAYLOAD".as_slice() {
        Some(ChunkedForm::Signed)
    } else if value == b"STREAMING-AWS4-HMAC-SHA256-PAYLOAD-TRAILER".as_slice() {
        Some(ChunkedForm::SignedTrailer)
    } else {
        None
    }
}

/// Whether each chunk of this form has a signature, so that a seal is needed.
pub fn is_signed(form: ChunkedForm) -> bool
    ensures { result ≡ is_signed form }
{
    match form {
        ChunkedForm::UnsignedTrailer => false,
        ChunkedForm::Signed => true,
        ChunkedForm::SignedTrailer => true,
    }
}

/// How many lines may stand behind the last chunk.
pub(crate) fn most_chunked_lines(form: ChunkedForm) -> usize
    ensures { result ≡ most_lines form }
{
    match form {
        ChunkedForm::UnsignedTrailer => 8,
        ChunkedForm::Signed => 0,
        ChunkedForm::SignedTrailer => 9,
    }
}
