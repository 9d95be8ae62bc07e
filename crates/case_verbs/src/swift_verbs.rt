//! Verbs of the layers of Swift. Bytes are those of the lines `>`. Calls are read from HTTP requests at the place with host `h`,
//! account `a` and token `t`.
//!
//! `read-call` tells whether the first request has the token, the call that it spells, and the request that is written for
//! that call, and `read-call newest` the request that is written where all replicas are asked. `read-answer` tells the reply
//! that the bytes behind the first empty line spell, as the answer to the call of the request before them. `answer-end` tells
//! where the first answer ends, and `answer-end head` where it is one to HEAD.
//! `fits TYPE | PIECE` tells whether a PUT of an object with that content type and that piece of metadata is within the limits,
//! for what no field of HTTP can have.
//!
//! `calls` makes the calls of the requests on a store in memory, and tells each reply, and the account behind one that changes
//! it; then how many calls were made, and the account that is left. `write-answer` makes all but the last call, and tells the
//! answer to that one that is written for the reply to the call before it. The words behind either are, each where it is needed:
//! `large N`, so many requests come first that aren't made, but give a container each with one large object, whose body is its
//! manifest of two segments; `before N,N`, `after N,N` and `stop N`, the numbers of the calls that fail without effect, of those
//! that fail after their effect, and of the first of those that all fail; and of `calls` `at N,N`, the account after so many
//! calls is told; of `write-answer` `made N`, so many calls come before those two.
//!
//! `swiftd WORDS` is a whole run over one connection and an empty shelf in memory: what is written, the status, the report.
//!
//! `manifest FORM` tells the segments of a manifest, `put` or `got`, their joined ETag, and both manifests that are written of
//! them; `manifest-size FORM` how many they are, and that ETag. Segments that no manifest may list are given as
//! `CONTAINER | NAME | ETAG | SIZE;`, with escapes: `is-segment`, `is-manifest`, `joined-etag` and `manifest-write` tell of them
//! what they say. `cover SIZES | FROM TO` tells where the bytes of a range lie.
//!
//! `tag` tells the tag of a text, and the text of that tag. `tag-write TYPE | ETAG | MOMENT | ID` does the latter for one that
//! perhaps has none. `pack` tells the pieces of metadata, given as `NAME:VALUE;`; `unpack` the metadata of pieces, one a line,
//! and their pieces again.
//!
//! `record` tells the record of an upload that a text is, and `sealed` the completion that is sealed; and whether the text that is
//! written of it is the same.
pub(crate) mod calls;
pub(crate) mod manifests;
pub(crate) mod marks;
pub(crate) mod records;
pub(crate) mod served;
pub(crate) mod start;
pub(crate) mod wire;
