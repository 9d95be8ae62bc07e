//! The table of requests: which method, at which level, with which names in the query asks for which operation.
ghost use Rattle.std.specs.Prelude.{◌≡◌, true, false, ◌&&◌, find, bytes_eq};
ghost use Rattle.std.specs.List.{list_any};
ghost use Rattle.std.specs.Option.{option_copied};
ghost use Rattle.request_fields.specs.Query.{is_asked};
ghost use Rattle.s3_requests.specs.Rows.{rows, plain, for_all, for_readers, with_content, with_location, with_acl, shape_of, level_of, is_same_level, is_among, is_query_name_of_row, texts, agrees, is_same_set, fits, is_method};

use gate_base::Pair;
use request_fields::is_asked;
use std::marker::Model;

/// How far a target goes.
#[derive(Clone, Copy, Debug, PartialEq, Eq)]
pub enum Level {
    Service,
    Bucket,
    Key,
}

/// The rows of the table, by the operation that each asks for (Amazon S3 API Reference, "Actions").
#[derive(Clone, Copy, Debug, PartialEq, Eq)]
pub enum Row {
    ListBuckets,
    CreateBucket,
    PutBucketAcl,
    DeleteBucket,
    HeadBucket,
    GetBucketLocation,
    GetBucketAcl,
    ListObjects,
    ListObjectsV2,
    ListMultipartUploads,
    DeleteObjects,
    PutObject,
    GetObject,
    HeadObject,
    DeleteObject,
    GetObjectAcl,
    CreateMultipartUpload,
    UploadPart,
    ListParts,
    CompleteMultipartUpload,
    AbortMultipartUpload,
    CopyObject,
    UploadPartCopy,
}

/// The rows that method, level and names tell apart. A header makes two more of them.
const ROWS: [Row; 21] = [
    Row::ListBuckets,
    Row::CreateBucket,
    Row::PutBucketAcl,
    Row::DeleteBucket,
    Row::HeadBucket,
    Row::GetBucketLocation,
    Row::GetBucketAcl,
    Row::ListObjects,
    Row::ListObjectsV2,
    Row::ListMultipartUploads,
    Row::DeleteObjects,
    Row::PutObject,
    Row::GetObject,
    Row::HeadObject,
    Row::DeleteObject,
    Row::GetObjectAcl,
    Row::CreateMultipartUpload,
    Row::UploadPart,
    Row::ListParts,
    Row::CompleteMultipartUpload,
    Row::AbortMultipartUpload,
];

const ACL: [&[u8]; 1] = [b"acl"];

const LOCATION: [&[u8]; 1] = [b"location"];

const LIST_TYPE: [&[u8]; 1] = [b"list-type"];

const DELETE: [&[u8]; 1] = [b"delete"];

const UPLOADS: [&[u8]; 1] = [b"uploads"];

const UPLOAD_ID: [&[u8]; 1] = [b"uploadId"];

const PART: [&[u8]; 2] = [b"partNumber", b"uploadId"];

/// The names that ListObjects has beside its selectors.
const OBJECTS_NAMES: [&[u8]; 5] = [
    b"prefix",
    b"delimiter",
    b"marker",
    b"max-keys",
    b"encoding-type",
];

/// The names that ListObjectsV2 has beside its selectors.
const OBJECTS_V2_NAMES: [&[u8]; 7] = [
    b"prefix",
    b"delimiter",
    b"start-after",
    b"continuation-token",
    b"max-keys",
    b"encoding-type",
    b"fetch-owner",
];

/// The names that ListMultipartUploads has beside its selectors.
const UPLOADS_NAMES: [&[u8]; 4] = [
    b"prefix",
    b"key-marker",
    b"upload-id-marker",
    b"max-uploads",
];

/// The names that ListParts has beside its selectors.
const PARTS_NAMES: [&[u8]; 2] = [b"max-parts", b"part-number-marker"];

/// What is asked of a row.
#[derive(Drop)]
pub struct Shape {
    method: &'static [u8],
    level: Level,
    /// The selectors that the query has.
    selectors: &'static [&'static [u8]],
    /// The names that it may have beside them.
    further: &'static [&'static [u8]],
    /// Whether anybody may ask for the operation.
    is_open: bool,
    /// Whether one who may only read may.
    is_read: bool,
    /// Whether it takes a content type and metadata, whatever else the headers say.
    has_content: bool,
    /// Whether its body names a location.
    has_location: bool,
    /// Whether the headers must name an access control list.
    needs_acl: bool,
}

impl Model for Shape {
    ghost use Rattle.s3_requests.specs.Rows.{Shape as Seen, texts};

    ghost Value = { Seen };

    ghost view = { λ s. record { method = s.method.now; level = s.level; selectors = texts s.selectors.now; further = texts s.further.now; is_open = s.is_open; is_read = s.is_read; has_content = s.has_content; has_location = s.has_location; needs_acl = s.needs_acl } };
}

/// What is asked of the row: the table.
pub fn shape_of(row: Row) -> Shape
    ensures { result ≡ shape_of row }
{
    match row {
        Row::ListBuckets => plain(b"GET", Level::Service, &[], &[]).for_readers(),
        Row::CreateBucket => plain(b"PUT", Level::Bucket, &[], &[]).with_location(),
        Row::PutBucketAcl => plain(b"PUT", Level::Bucket, &ACL, &[]).with_acl(),
        Row::DeleteBucket => plain(b"DELETE", Level::Bucket, &[], &[]),
        Row::HeadBucket => plain(b"HEAD", Level::Bucket, &[], &[])
            .for_all()
            .for_readers(),
        Row::GetBucketLocation => plain(b"GET", Level::Bucket, &LOCATION, &[]).for_readers(),
        Row::GetBucketAcl => plain(b"GET", Level::Bucket, &ACL, &[]).for_readers(),
        Row::ListObjects => plain(b"GET", Level::Bucket, &[], &OBJECTS_NAMES)
            .for_all()
            .for_readers(),
        Row::ListObjectsV2 => plain(b"GET", Level::Bucket, &LIST_TYPE, &OBJECTS_V2_NAMES)
            .for_all()
            .for_readers(),
        Row::ListMultipartUploads => { plain(b"GET", Level::Bucket, &UPLOADS, &UPLOADS_NAMES) }
        Row::DeleteObjects => plain(b"POST", Level::Bucket, &DELETE, &[]),
        _ => key_shape(row),
    }
}

/// The same of a row of a key.
fn key_shape(row: Row) -> Shape
    requires { is_same_level (shape_of row).level Level.Key ≡ true }
    ensures { result ≡ shape_of row }
{
    match row {
        Row::PutObject => plain(b"PUT", Level::Key, &[], &[]).with_content(),
        Row::GetObject => plain(b"GET", Level::Key, &[], &[]).for_all().for_readers(),
        Row::HeadObject => plain(b"HEAD", Level::Key, &[], &[]).for_all().for_readers(),
        Row::DeleteObject => plain(b"DELETE", Level::Key, &[], &[]),
        Row::GetObjectAcl => plain(b"GET", Level::Key, &ACL, &[]).for_readers(),
        Row::CreateMultipartUpload => plain(b"POST", Level::Key, &UPLOADS, &[]).with_content(),
        Row::UploadPart => plain(b"PUT", Level::Key, &PART, &[]),
        Row::ListParts => plain(b"GET", Level::Key, &UPLOAD_ID, &PARTS_NAMES),
        Row::CompleteMultipartUpload => plain(b"POST", Level::Key, &UPLOAD_ID, &[]),
        Row::AbortMultipartUpload => plain(b"DELETE", Level::Key, &UPLOAD_ID, &[]),
        Row::CopyObject => plain(b"PUT", Level::Key, &[], &[]),
        Row::UploadPartCopy => plain(b"PUT", Level::Key, &PART, &[]),
        _ => unreachable!(),
    }
}

/// A row for the owner alone.
fn plain(
    method: &'static [u8],
    level: Level,
    selectors: &'static [&'static [u8]],
    further: &'static [&'static [u8]],
) -> Shape
    ensures { result ≡ plain method.now level (texts selectors.now) (texts further.now) }
{
    Shape {
        method,
        level,
        selectors,
        further,
        is_open: false,
        is_read: false,
        has_content: false,
        has_location: false,
        needs_acl: false,
    }
}

impl Shape {
    fn for_all(self) -> Shape
        ensures { result ≡ for_all self }
    {
        Shape {
            is_open: true,
            ..self
        }
    }

    fn for_readers(self) -> Shape
        ensures { result ≡ for_readers self }
    {
        Shape {
            is_read: true,
            ..self
        }
    }

    fn with_content(self) -> Shape
        ensures { result ≡ with_content self }
    {
        Shape {
            has_content: true,
            ..self
        }
    }

    fn with_location(self) -> Shape
        ensures { result ≡ with_location self }
    {
        Shape {
            has_location: true,
            ..self
        }
    }

    fn with_acl(self) -> Shape
        ensures { result ≡ with_acl self }
    {
        Shape {
            needs_acl: true,
            ..self
        }
    }

    pub fn is_open(&self) -> bool
        ensures { result ≡ self.now.is_open }
    {
        self.is_open
    }

    pub fn is_read(&self) -> bool
        ensures { result ≡ self.now.is_read }
    {
        self.is_read
    }

    pub fn has_content(&self) -> bool
        ensures { result ≡ self.now.has_content }
    {
        self.has_content
    }

    pub fn has_location(&self) -> bool
        ensures { result ≡ self.now.has_location }
    {
        self.has_location
    }

    pub fn needs_acl(&self) -> bool
        ensures { result ≡ self.now.needs_acl }
    {
        self.needs_acl
    }

    /// Whether a request with the method, at the level, may be one of the row.
    fn is_at(&self, method: &[u8], level: Level) -> bool
        ensures { result ≡ bytes_eq method.now self.now.method
            && is_same_level level self.now.level }
    {
        method == self.method && is_same_level(level, self.level)
    }

    /// Whether the name is one of the selectors.
    fn selects(&self, name: &[u8]) -> bool
        ensures { result ≡ is_among name.now self.now.selectors }
    {
        is_among_row_names(name, self.selectors)
    }

    /// Whether the name is one that the query may have beside the selectors.
    fn has_further_name(&self, name: &[u8]) -> bool
        ensures { result ≡ is_among name.now self.now.further }
    {
        is_among_row_names(name, self.further)
    }

    /// Whether the query has the selector exactly where the row has it.
    fn agrees(&self, query: &[Pair], name: &[u8]) -> bool
        ensures { result ≡ agrees query.now self.now.selectors name.now }
    {
        is_asked(query, name) == self.selects(name)
    }

    /// Whether the query has the selectors of the row, and no other.
    fn is_selected_by(&self, query: &[Pair]) -> bool
        ensures { result ≡ is_same_set query.now self.now.selectors }
    {
        self.agrees(query, b"acl")
            && self.agrees(query, b"location")
            && self.agrees(query, b"uploads")
            && self.agrees(query, b"uploadId")
            && self.agrees(query, b"partNumber")
            && self.agrees(query, b"list-type")
            && self.agrees(query, b"delete")
    }
}

#[tactic(auto, unfolding(crate::specs::Rows::rows))]
fn table_of_rows() -> &'static [Row]
    ensures { result.now ≡ rows }
{
    &ROWS
}

/// The row that a request fits, by its method, its level and the selectors in its query.
pub fn row_for(method: &[u8], level: Level, query: &[Pair]) -> Option<Row>
    ensures { result ≡ find (fits method.now level query.now) rows }
{
    match first_fit(method, level, query) {
        Some(row) => Some(*row),
        None => None,
    }
}

fn first_fit(method: &[u8], level: Level, query: &[Pair]) -> Option<&'static Row>
    ensures { option_copied result ≡ find (fits method.now level query.now) rows }
{
    table_of_rows()
        .iter()
        .find(|row| fits(method, level, query, **row))
}

/// Whether a row has the name.
pub fn is_known_query_name(name: &[u8]) -> bool
    ensures { result ≡ list_any (is_query_name_of_row name.now) rows }
{
    table_of_rows()
        .iter()
        .any(|row| is_query_name_of_row(name, *row))
}

/// Whether the method is one of the table.
pub fn is_method(method: &[u8]) -> bool
    ensures { result ≡ is_method method.now }
{
    method == b"GET".as_slice()
        || method == b"HEAD".as_slice()
        || method == b"PUT".as_slice()
        || method == b"POST".as_slice()
        || method == b"DELETE".as_slice()
}

pub fn level_of(bucket: &[u8], key: &[u8]) -> Level
    ensures { result ≡ level_of bucket.now key.now }
{
    if key.len() == 0 {
        if bucket.len() == 0 {
            Level::Service
        } else {
            Level::Bucket
        }
    } else {
        Level::Key
    }
}

pub fn is_same_level(level: Level, other: Level) -> bool
    ensures { result ≡ is_same_level level other }
{
    level == other
}

fn is_among_row_names(name: &[u8], names: &[&[u8]]) -> bool
    ensures { result ≡ is_among name.now (texts names.now) }
{
    is_text_of_row_names(names, name)
}

fn is_text_of_row_names(names: &[&[u8]], name: &[u8]) -> bool
    ensures { result ≡ list_any (λ other. bytes_eq name.now other.now) names.now }
{
    names.iter().any(|other| name == *other)
}

/// Whether the row has the name.
pub fn is_query_name_of_row(name: &[u8], row: Row) -> bool
    ensures { result ≡ is_query_name_of_row name.now row }
{
    let shape = shape_of(row);
    shape.selects(name) || shape.has_further_name(name)
}

fn fits(method: &[u8], level: Level, query: &[Pair], row: Row) -> bool
    ensures { result ≡ fits method.now level query.now row }
{
    let shape = shape_of(row);
    shape.is_at(method, level) && shape.is_selected_by(query)
}
