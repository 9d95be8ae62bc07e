//! The parameters of a query by their names, which are looked up byte by byte, as those of headers are.
ghost use Rattle.std.specs.Prelude.{◌≡◌, codes, IfOk};
ghost use Rattle.s3_names.specs.Query.{without};
ghost use Rattle.presign.specs.Parameters.{has_presigned_parameter, has_one_presigned_parameter, has_each_once, parameter, is_presigned, without_names, without_signature};

use gate_base::{Memory, Pair};
use http_wire::{first_value, has_header, has_single_header};
use s3_names::{Query, Target};
use std::alloc::Global;

pub(crate) const ALGORITHM: &[u8] = b"X-Amz-Algorithm";

pub(crate) const CREDENTIAL: &[u8] = b"X-Amz-Credential";

pub(crate) const DATE: &[u8] = b"X-Amz-Date";

pub(crate) const EXPIRES: &[u8] = b"X-Amz-Expires";

pub(crate) const SIGNED_HEADERS: &[u8] = b"X-Amz-SignedHeaders";

pub(crate) const SIGNATURE: &[u8] = b"X-Amz-Signature";

/// Whether a request of this target is presigned: its query has the name `X-Amz-Algorithm` or `X-Amz-Signature`. It takes
/// no memory.
pub fn is_presigned(target: &Target) -> bool
    ensures { result ≡ is_presigned target.now.query }
{
    let query = target.query.pairs();
    has_presigned_parameter(query, ALGORITHM) || has_presigned_parameter(query, SIGNATURE)
}

/// The query without the six names of a signature, which say nothing of what is asked for (Amazon S3 API Reference,
/// "Authenticating requests: using query parameters").
pub fn without_signature(alloc: Global, query: &Query) -> Result<Query, Memory>
    ensures { IfOk result (λ rest. rest ≡ without_signature query.now) }
{
    let rest = without_names(alloc, query, ALGORITHM, CREDENTIAL, DATE)?;
    without_names(alloc, &rest, EXPIRES, SIGNED_HEADERS, SIGNATURE)
}

fn without_names(
    alloc: Global,
    query: &Query,
    first: &[u8],
    second: &[u8],
    third: &[u8],
) -> Result<Query, Memory>
    ensures { IfOk result (λ rest. rest ≡ without_names first.now second.now third.now query.now) }
{
    let rest = query.without(alloc, first)?;
    let rest = rest.without(alloc, second)?;
    rest.without(alloc, third)
}

pub(crate) fn has_presigned_parameter(query: &[Pair], name: &[u8]) -> bool
    ensures { result ≡ has_presigned_parameter name.now query.now }
{
    has_header(query, name)
}

fn has_one_presigned_parameter(query: &[Pair], name: &[u8]) -> bool
    ensures { result ≡ has_one_presigned_parameter name.now query.now }
{
    has_single_header(query, name)
}

/// Whether each of the six names stands exactly once.
pub(crate) fn has_each_once(query: &[Pair]) -> bool
    ensures { result ≡ has_each_once query.now }
{
    has_one_presigned_parameter(query, ALGORITHM)
        && has_one_presigned_parameter(query, CREDENTIAL)
        && has_one_presigned_parameter(query, DATE)
        && has_one_presigned_parameter(query, EXPIRES)
        && has_one_presigned_parameter(query, SIGNED_HEADERS)
        && has_one_presigned_parameter(query, SIGNATURE)
}

/// The value of the first parameter of a name, no byte where there is none.
pub(crate) fn parameter<'a>(query: &'a [Pair], name: &[u8]) -> &'a [u8]
    ensures { result.now ≡ parameter name.now query.now }
{
    first_value(query, name)
}
