//! Verbs of HTTP's messages and pages, and of signatures. Bytes are those of the lines `>`, and a request is read from them as
//! from a connection.
//!
//! `messages [SIZES]` tells the first three messages of a connection, and before each what was written while it was read; where
//! one ends the reader, those alone. They are read in pieces of 65,536 bytes, and again in pieces of each of the sizes (1, 2, 3
//! and 7 where none is given), alone and behind another request: what these tell is the same, or else it is told too.
//! `lengths [SIZES]` does so too, and tells of a request how many headers and how many bytes of a body it has.
//! `front SIZE CALL` tells the first message in pieces of one size, while the line's call of that number fails: `next` is the
//! first call, the reads and writes follow; 0 is none.
//! `page STATUS METHOD END NAME VALUE` prints a page with that header and with the bytes as its body; END is `open` or `close`.
//! `memory METHOD` is the reply where memory runs out.
//!
//! The keys are that of the Amazon S3 API Reference's examples, and the region is `us-east-1`. `verify MOMENT` tells who sent
//! the first request, or why it isn't taken, at a moment in seconds since the beginning of 1970. `canonical NAMES PAYLOAD` is
//! its canonical request, with `;` between the signed names. `is-date-time TEXT` tells whether a time has the form of one.
//! `hmac KEY` is the code of the bytes by a key in hexadecimal digits. `secret ID` is the secret of an id, by the keys that the
//! bytes give. `first [CALL]` signs the first request of a line, while its call of that number fails, and
//! `first-of-none` one of a line of no connection. `verify-query MOMENT` tells of a presigned request what `verify` does, and
//! `presign MOMENT SECONDS` the URL for a request. `trial-input NUMBER REQUESTS` tells the bytes of so many requests of a trial.
pub(crate) mod fronts;
pub(crate) mod pages;
pub(crate) mod presigned;
pub(crate) mod signatures;
