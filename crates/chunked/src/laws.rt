//! The laws of the definitions: each is the contract of a function that does nothing.
ghost use Rattle.chunked.specs.Laws.{DecodedMeans, OneAnswer, ChunkedRead, PrintedRead};

/// What the function on lists gives of any bytes is what the relation says of them.
pub fn law_decoded_means()
    ensures { DecodedMeans }
{}

/// The relation has one answer for any bytes, but for want of memory: so it says exactly when each fault comes, and when none.
pub fn law_one_answer()
    ensures { OneAnswer }
{}

/// A body that says data and trailers is read as these, and so says no others.
pub fn law_chunked_read()
    ensures { ChunkedRead }
{}

/// What a printer of chunks writes is read back, for each of the three forms: bytes that are cut into chunks anyhow, and trailers, with
/// the signatures that are due where the form has them.
pub fn law_printed_read()
    ensures { PrintedRead }
{}
