//! What each request of a trial asks for.
ghost use Rattle.std.specs.Prelude.{◌≡◌, ◌≤◌, [], ◌∷◌, ◌++◌, IfOk, OnOk, codes, decimal};
ghost use Rattle.trial_requests.specs.Trial.{begun_after, bucket_path, id_value, key_path, meant_upload, request_of, request_of_upload, request_that_puts, request_without_body};

use gate_base::{Bytes, List, Memory, Pair};
use s3_names::id_digits;
use std::alloc::Global;
use text_forms::append_decimal;

/// An upload that a request began: the numbers of its bucket and its key, and its id.
#[derive(Clone, Copy, Debug, PartialEq, Eq)]
pub(crate) struct BegunUpload {
    pub(crate) bucket: u32,
    pub(crate) key: u32,
    pub(crate) id: u64,
}

/// A request but for its headers: the method, the path and the query of its target, and the body.
#[derive(Debug, Drop)]
pub(crate) struct TrialRequest {
    pub(crate) method: Bytes,
    pub(crate) path: Bytes,
    pub(crate) query: List<Pair>,
    pub(crate) body: Bytes,
}

const COMPLETION: &[u8] =
    b"<CompleteMultipartUpload><Part><PartNumber>1</PartNumber><ETag>\"5d41402abc4b2a76b9719d911017c592\"</ETag></Part></CompleteMultipartUpload>";

/// The request of a kind, with an index, for the bucket and the key of these numbers, after this upload was the latest to begin.
pub(crate) fn trial_request(
    alloc: Global,
    kind: u32,
    index: u64,
    bucket: u32,
    key: u32,
    latest: Option<BegunUpload>,
) -> Result<TrialRequest, Memory>
    ensures { IfOk result (λ request. request ≡ request_of kind index bucket key latest) }
{
    if kind <= 3 {
        trial_request_that_puts(alloc, kind, index, bucket, key)
    } else if kind <= 8 {
        trial_request_without_body(alloc, kind, bucket, key)
    } else {
        trial_request_of_upload(alloc, kind, meant_upload(latest, bucket, key))
    }
}

#[tactic(auto, unfolding(crate::specs::Trial::request_that_puts))]
fn trial_request_that_puts(
    alloc: Global,
    kind: u32,
    index: u64,
    bucket: u32,
    key: u32,
) -> Result<TrialRequest, Memory>
    ensures { IfOk result (λ request. request ≡ request_that_puts kind index bucket key) }
{
    if kind <= 1 {
        asked(
            alloc,
            b"PUT",
            bucket_path(alloc, bucket)?,
            List::new(alloc),
            Bytes::new(alloc),
        )
    } else {
        let body = decimal_body(alloc, index)?;
        asked(
            alloc,
            b"PUT",
            key_path(alloc, bucket, key)?,
            List::new(alloc),
            body,
        )
    }
}

#[tactic(auto, unfolding(crate::specs::Trial::request_without_body))]
fn trial_request_without_body(
    alloc: Global,
    kind: u32,
    bucket: u32,
    key: u32,
) -> Result<TrialRequest, Memory>
    ensures { IfOk result (λ request. request ≡ request_without_body kind bucket key) }
{
    let mut query = List::new(alloc);
    if kind <= 5 {
        trial_request_of_object(alloc, kind, bucket, key)
    } else if kind <= 6 {
        push_parameter(alloc, &mut query, b"list-type", b"2")?;
        push_parameter(alloc, &mut query, b"max-keys", b"2")?;
        asked_without_body(alloc, b"GET", bucket_path(alloc, bucket)?, query)
    } else if kind <= 7 {
        asked_without_body(alloc, b"DELETE", bucket_path(alloc, bucket)?, query)
    } else {
        push_parameter(alloc, &mut query, b"uploads", b"")?;
        asked_without_body(alloc, b"POST", key_path(alloc, bucket, key)?, query)
    }
}

/// A GET of an object, or a DELETE of it.
#[tactic(auto, unfolding(crate::specs::Trial::request_without_body))]
fn trial_request_of_object(
    alloc: Global,
    kind: u32,
    bucket: u32,
    key: u32,
) -> Result<TrialRequest, Memory>
    requires { kind ≤ 5 }
    ensures { IfOk result (λ request. request ≡ request_without_body kind bucket key) }
{
    let path = key_path(alloc, bucket, key)?;
    if kind <= 4 {
        asked_without_body(alloc, b"GET", path, List::new(alloc))
    } else {
        asked_without_body(alloc, b"DELETE", path, List::new(alloc))
    }
}

fn asked_without_body(
    alloc: Global,
    method: &[u8],
    path: Bytes,
    query: List<Pair>,
) -> Result<TrialRequest, Memory>
    ensures { IfOk result (λ request. request ≡ record
        { method = method.now; path = path; query = query; body = [] }) }
{
    asked(alloc, method, path, query, Bytes::new(alloc))
}

#[tactic(auto, unfolding(crate::specs::Trial::request_of_upload))]
fn trial_request_of_upload(
    alloc: Global,
    kind: u32,
    upload: BegunUpload,
) -> Result<TrialRequest, Memory>
    ensures { IfOk result (λ request. request ≡ request_of_upload kind upload) }
{
    let path = key_path(alloc, upload.bucket, upload.key)?;
    let mut query = List::new(alloc);
    if kind <= 9 {
        push_parameter(alloc, &mut query, b"partNumber", b"1")?;
        push_upload_id(alloc, &mut query, upload.id)?;
        asked(
            alloc,
            b"PUT",
            path,
            query,
            Bytes::from_slice(alloc, b"hello")?,
        )
    } else if kind <= 10 {
        push_upload_id(alloc, &mut query, upload.id)?;
        asked(
            alloc,
            b"POST",
            path,
            query,
            Bytes::from_slice(alloc, COMPLETION)?,
        )
    } else {
        push_upload_id(alloc, &mut query, upload.id)?;
        asked(alloc, b"DELETE", path, query, Bytes::new(alloc))
    }
}

fn asked(
    alloc: Global,
    method: &[u8],
    path: Bytes,
    query: List<Pair>,
    body: Bytes,
) -> Result<TrialRequest, Memory>
    ensures { IfOk result (λ request. request ≡ record
        { method = method.now; path = path; query = query; body = body }) }
{
    Ok(TrialRequest {
        method: Bytes::from_slice(alloc, method)?,
        path,
        query,
        body,
    })
}

fn push_parameter(
    alloc: Global,
    query: &mut List<Pair>,
    name: &[u8],
    value: &[u8],
) -> Result<(), Memory>
    ensures { OnOk result (query.new
        ≡ query.old ++ record { name = name.now; value = value.now } ∷ []) }
{
    query.push(Pair {
        name: Bytes::from_slice(alloc, name)?,
        value: Bytes::from_slice(alloc, value)?,
    })
}

fn push_upload_id(alloc: Global, query: &mut List<Pair>, id: u64) -> Result<(), Memory>
    ensures { OnOk result (query.new
        ≡ query.old ++ record { name = codes "uploadId"; value = id_value id } ∷ []) }
{
    push_parameter(alloc, query, b"uploadId", &id_digits(u128::from(id)))
}

fn bucket_path(alloc: Global, bucket: u32) -> Result<Bytes, Memory>
    ensures { IfOk result (λ path. path ≡ bucket_path bucket) }
{
    let mut path = Bytes::from_slice(alloc, b"/trial-")?;
    append_decimal(&mut path, u64::from(bucket))?;
    Ok(path)
}

fn key_path(alloc: Global, bucket: u32, key: u32) -> Result<Bytes, Memory>
    ensures { IfOk result (λ path. path ≡ key_path bucket key) }
{
    let mut path = bucket_path(alloc, bucket)?;
    path.append(b"/k")?;
    append_decimal(&mut path, u64::from(key))?;
    Ok(path)
}

fn decimal_body(alloc: Global, index: u64) -> Result<Bytes, Memory>
    ensures { IfOk result (λ body. body ≡ decimal index) }
{
    let mut body = Bytes::new(alloc);
    append_decimal(&mut body, index)?;
    Ok(body)
}

/// The upload that a request means which needs one: the latest to begin, or none of this bucket and key.
fn meant_upload(latest: Option<BegunUpload>, bucket: u32, key: u32) -> BegunUpload
    ensures { result ≡ meant_upload latest bucket key }
{
    match latest {
        Some(upload) => upload,
        None => BegunUpload { bucket, key, id: 0 },
    }
}

/// The upload that is the latest to begin after a request.
pub(crate) fn begun_after(
    kind: u32,
    index: u64,
    bucket: u32,
    key: u32,
    latest: Option<BegunUpload>,
) -> Option<BegunUpload>
    requires { index ≤ 99999 }
    ensures { result ≡ begun_after kind index bucket key latest }
{
    if kind == 8 {
        Some(BegunUpload {
            bucket,
            key,
            id: 2 * index + 2,
        })
    } else {
        latest
    }
}
