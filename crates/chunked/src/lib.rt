//! Bodies in chunks, as S3 clients send them: their form by the header `x-amz-content-sha256`, the data and the trailers that they
//! say, and the signatures of chunks and trailers.
#![tactic(auto)]

mod body;
mod chunk;
mod encoding;
mod fault;
mod form;
mod gather;
mod laws;
mod line;
mod scan;
mod sign;
mod trailers;

pub use body::{Decoded, decode};
pub use encoding::without_chunked;
pub use fault::ChunkedFault;
pub use form::{ChunkedForm, form_of, is_signed};
pub use laws::{law_chunked_read, law_decoded_means, law_one_answer, law_printed_read};
pub use sigv4::Seal;
