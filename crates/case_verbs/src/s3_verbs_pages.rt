//! The pages of replies that cases give. What a reply bears stands in fields `name: value`. Each field `item` of one that lists
//! has four words, of which the last may have spaces: `MOMENT NUMBER WORD TEXT`. Of a bucket they are `CREATED 0 - NAME`; of an
//! object `MODIFIED SIZE ETAG KEY`, and of a common prefix `0 0 - PREFIX`; of an upload `STARTED ID - KEY`; of a part
//! `MODIFIED SIZE NUMBER ETAG`. Each field `key` of a deletion is one of its keys. Each field `shown` of an object is a header that is
//! shown, `NAME VALUE`, and `checksum` of what was stored likewise. The field `page-region` makes the page one of the extended profile, of that region, and
//! `heads-bucket` says that the request was a HEAD of a bucket.
ghost use Rattle.std.specs.Prelude.{◌≢◌};
ghost use Rattle.s3_machine.specs.Shown.{IsShowable};

use crate::s3_verbs::acl_of_word;
use crate::s3_verbs_message::message_of_case;
use crate::shown::{is_shown_reply, moment_with_date};
use case_text::{Fault, Told, copy_of_bytes, cut_text, number_of_text, tell_value, text_of_bytes};
use gate_base::{Bytes, Caller, List, Pair, cut, drop};
use http_wire::{Message, first_value, has_header};
use s3_machine::{
    Asked, BucketItem, BucketListing, BucketPage, Code, CompletedObject, CopiedBytes, DeletedKeys,
    Item, ItemHead, Label, ObjectBytes, ObjectHead, ObjectPage, ObjectsReply, PartItem, PartPage,
    PartsAsked, Reply, StartedUpload, StoredBytes, UnsetCode, UnsetPage, UploadItem, UploadPage,
    UploadsAsked, UploadsReply,
};
use s3_names::{Key, Meta};
use s3_pages::{ExtendedPage, PageContext, page};
use std::alloc::Global;
use std::fmt::Debug;

/// The codes but for InvalidRange and those that say that a setting isn't set.
const CODES: [Code; 41] = [
    Code::AccessControlListNotSupported,
    Code::AccessDenied,
    Code::AuthorizationHeaderMalformed,
    Code::AuthorizationQueryParametersError,
    Code::BadDigest,
    Code::BucketAlreadyOwnedByYou,
    Code::BucketNotEmpty,
    Code::ChecksumDiffers,
    Code::EntityTooLarge,
    Code::EntityTooSmall,
    Code::IncompleteBody,
    Code::InconsistentStore,
    Code::InvalidAccessKeyId,
    Code::InvalidArgument,
    Code::InvalidBucketName,
    Code::InvalidChunkSizeError,
    Code::InvalidDigest,
    Code::InvalidPart,
    Code::InvalidPartNumber,
    Code::InvalidPartOrder,
    Code::InvalidRequest,
    Code::InvalidStorageClass,
    Code::InvalidToken,
    Code::InvalidURI,
    Code::KeyTooLongError,
    Code::MalformedXML,
    Code::MetadataTooLarge,
    Code::MethodNotAllowed,
    Code::MissingContentLength,
    Code::NoSuchBucket,
    Code::NoSuchKey,
    Code::NoSuchUpload,
    Code::NotImplemented,
    Code::OnlyVersionFour,
    Code::PreconditionFailed,
    Code::RequestExpired,
    Code::RequestTimeTooSkewed,
    Code::RequestTimeout,
    Code::ServiceUnavailable,
    Code::SignatureDoesNotMatch,
    Code::XAmzContentSHA256Mismatch,
];

const UNSET_CODES: [UnsetCode; 11] = [
    UnsetCode::NoSuchBucketPolicy,
    UnsetCode::NoSuchCORSConfiguration,
    UnsetCode::NoSuchLifecycleConfiguration,
    UnsetCode::ServerSideEncryptionConfigurationNotFoundError,
    UnsetCode::NoSuchTagSet,
    UnsetCode::NoSuchWebsiteConfiguration,
    UnsetCode::ReplicationConfigurationNotFoundError,
    UnsetCode::NoSuchPublicAccessBlockConfiguration,
    UnsetCode::ObjectLockConfigurationNotFoundError,
    UnsetCode::OwnershipControlsNotFoundError,
    UnsetCode::NoSuchObjectLockConfiguration,
];

/// `REPLY MOMENT ID` tells the page of a reply, at that moment and to the request of that number. What the reply bears stands
/// on the lines `>` as headers, `name: value`, and behind an empty line the bytes of an object.
pub(crate) fn tell_page_of_reply(alloc: Global, text: &str, given: &[u8], told: &mut Told) {
    let (name, words) = cut_text(text, ' ');
    let (moment, id) = cut_text(words, ' ');
    let label = Label {
        caller: Caller::Owner,
        moment: moment_with_date(number_of_text(moment, told), told),
        request_id: id_of_digits(id.as_bytes(), told),
        draw: 7,
    };
    if let Some(message) = message_of_case(alloc, "GET /", given, told) {
        tell_page_of_fields(alloc, name, &label, &message, told);
    }
}

fn tell_page_of_fields(
    alloc: Global,
    name: &str,
    label: &Label,
    message: &Message,
    told: &mut Told,
) {
    let fields = message.headers.as_slice();
    let reply = reply_of_fields(alloc, name, fields, &message.body, told);
    let context = page_context_of_fields(alloc, fields, told);
    if is_shown_reply(&reply) {
        tell_page_of_shown_reply(alloc, reply, label, &context, told);
    } else {
        drop(reply);
        told.note_fault(Fault::Unread("a reply without a page"));
    }
}

/// Tells the page of a reply that has one.
fn tell_page_of_shown_reply(
    alloc: Global,
    reply: Reply,
    label: &Label,
    context: &PageContext,
    told: &mut Told,
)
    requires reply { reply ≢ Reply.Memory }
    requires showable { IsShowable reply }
{
    if let Some(page) = told.keep_made(page(alloc, reply, label, context)) {
        tell_value(&page, told);
    }
}

/// What the fields say beside the reply.
fn page_context_of_fields(alloc: Global, fields: &[Pair], told: &mut Told) -> PageContext {
    PageContext {
        resource: bytes_in_verb_field(alloc, fields, b"resource", told),
        extended: extended_page_of_fields(alloc, fields, told),
    }
}

fn extended_page_of_fields(
    alloc: Global,
    fields: &[Pair],
    told: &mut Told,
) -> Option<ExtendedPage> {
    if !has_header(fields, b"page-region") {
        return None;
    }
    Some(ExtendedPage {
        region: bytes_in_verb_field(alloc, fields, b"page-region", told),
        heads_bucket: is_verb_field_yes(fields, b"heads-bucket"),
    })
}

/// The reply of that name, with what the fields say.
fn reply_of_fields(
    alloc: Global,
    name: &str,
    fields: &[Pair],
    body: &Bytes,
    told: &mut Told,
) -> Reply {
    match name {
        "done" => Reply::Done,
        "gone" => Reply::Gone,
        "acl" => acl_reply_of_fields(fields, told),
        "refused" => Reply::Refused(code_of_fields(alloc, fields, told)),
        "not-modified" => Reply::NotModified(object_head_of_fields(alloc, fields, told)),
        "object" => object_reply_of_fields(alloc, fields, body, told),
        "buckets" => buckets_reply_of_fields(alloc, fields, told),
        "objects" => objects_reply_of_fields(alloc, fields, told),
        "uploads" => uploads_reply_of_fields(alloc, fields, told),
        "parts" => parts_reply_of_fields(alloc, fields, told),
        "deleted" => deleted_reply_of_fields(alloc, fields, told),
        _ => short_reply_of_fields(alloc, name, fields, told),
    }
}

fn acl_reply_of_fields(fields: &[Pair], told: &mut Told) -> Reply {
    let acl = acl_of_word(text_in_verb_field(fields, b"acl", told), told);
    Reply::OfObjects(ObjectsReply::AclOf(acl))
}

fn short_reply_of_fields(alloc: Global, name: &str, fields: &[Pair], told: &mut Told) -> Reply {
    match name {
        "made" => {
            let bucket = bytes_in_verb_field(alloc, fields, b"bucket", told);
            Reply::OfObjects(ObjectsReply::Made(bucket))
        }
        "stored" => Reply::Stored(StoredBytes {
            etag: bytes_in_verb_field(alloc, fields, b"etag", told),
            checksum: pair_in_verb_field(alloc, fields, b"checksum", told),
        }),
        "setting" => Reply::OfObjects(ObjectsReply::Setting(UnsetPage {
            root: bytes_in_verb_field(alloc, fields, b"root", told),
            inside: bytes_in_verb_field(alloc, fields, b"inside", told),
        })),
        "location" => {
            let region = bytes_in_verb_field(alloc, fields, b"region", told);
            Reply::OfObjects(ObjectsReply::Location(region))
        }
        "started" => Reply::OfUploads(UploadsReply::Started(StartedUpload {
            bucket: bytes_in_verb_field(alloc, fields, b"bucket", told),
            key: bytes_in_verb_field(alloc, fields, b"key", told),
            id: id_of_digits(first_value(fields, b"id"), told),
        })),
        "completed" => Reply::OfUploads(UploadsReply::Completed(CompletedObject {
            bucket: bytes_in_verb_field(alloc, fields, b"bucket", told),
            key: bytes_in_verb_field(alloc, fields, b"key", told),
            etag: bytes_in_verb_field(alloc, fields, b"etag", told),
        })),
        "copied" => Reply::Copied(CopiedBytes {
            part: is_verb_field_yes(fields, b"part"),
            etag: bytes_in_verb_field(alloc, fields, b"etag", told),
            modified: number_in_verb_field(fields, b"modified", told),
        }),
        _ => Reply::Memory,
    }
}

fn object_reply_of_fields(alloc: Global, fields: &[Pair], body: &Bytes, told: &mut Told) -> Reply {
    Reply::Object(ObjectBytes {
        head: object_head_of_fields(alloc, fields, told),
        from: number_in_verb_field(fields, b"from", told),
        length: number_in_verb_field(fields, b"length", told),
        partial: is_verb_field_yes(fields, b"partial"),
        body: copy_of_bytes(alloc, body.as_slice(), told),
        shown: pairs_in_verb_fields(alloc, fields, b"shown", told),
        parts: if has_header(fields, b"parts") {
            Some(small_number_in_verb_field(fields, b"parts", told))
        } else {
            None
        },
    })
}

/// The pair `NAME VALUE` of a field.
fn pair_of_words(alloc: Global, text: &[u8], told: &mut Told) -> Pair {
    let (name, value) = cut(text, b' ');
    Pair {
        name: copy_of_bytes(alloc, name, told),
        value: copy_of_bytes(alloc, value, told),
    }
}

/// The pair of the field of that name, if there is one.
fn pair_in_verb_field(
    alloc: Global,
    fields: &[Pair],
    name: &[u8],
    told: &mut Told,
) -> Option<Pair> {
    if has_header(fields, name) {
        Some(pair_of_words(alloc, first_value(fields, name), told))
    } else {
        None
    }
}

/// The pairs of the fields of that name, in their order.
fn pairs_in_verb_fields(
    alloc: Global,
    fields: &[Pair],
    name: &[u8],
    told: &mut Told,
) -> List<Pair> {
    let mut pairs = List::new(alloc);
    for field in fields {
        if field.name.as_slice() == name {
            let pair = pair_of_words(alloc, field.value.as_slice(), told);
            told.push(&mut pairs, pair);
        }
    }
    pairs
}

fn buckets_reply_of_fields(alloc: Global, fields: &[Pair], told: &mut Told) -> Reply {
    Reply::OfObjects(ObjectsReply::Buckets(BucketPage {
        asked: BucketListing {
            prefix: bytes_in_verb_field(alloc, fields, b"prefix", told),
            token: token_of_fields(alloc, fields, told),
            max: None,
        },
        items: items_of_fields(alloc, fields, told),
        truncated: is_verb_field_yes(fields, b"truncated"),
    }))
}

fn object_head_of_fields(alloc: Global, fields: &[Pair], told: &mut Told) -> ObjectHead {
    ObjectHead {
        etag: bytes_in_verb_field(alloc, fields, b"etag", told),
        modified: number_in_verb_field(fields, b"modified", told),
        size: number_in_verb_field(fields, b"size", told),
        content_type: bytes_in_verb_field(alloc, fields, b"type", told),
        meta: metadata_of_fields(alloc, fields, told),
    }
}

/// The metadata of the fields `meta`, each `NAME VALUE`.
fn metadata_of_fields(alloc: Global, fields: &[Pair], told: &mut Told) -> Meta {
    let mut meta = Meta::new(alloc);
    for field in fields {
        if field.name.as_slice() == b"meta".as_slice() {
            let (name, value) = cut(field.value.as_slice(), b' ');
            let added = meta.add(name, value);
            let _is_new = told.keep_made(added);
        }
    }
    meta
}

/// The code of that name; of InvalidRange with the size of the object, where a field gives it.
fn code_of_fields(alloc: Global, fields: &[Pair], told: &mut Told) -> Code {
    let name = text_in_verb_field(fields, b"code", told);
    if name == "InvalidRange" {
        return Code::InvalidRange(size_of_range_field(fields, told));
    }
    for code in &CODES {
        if is_named(alloc, code, name) {
            return *code;
        }
    }
    for code in &UNSET_CODES {
        if is_named(alloc, code, name) {
            return Code::NotSet(*code);
        }
    }
    told.note_fault(Fault::Unread("no such code"));
    Code::AccessDenied
}

fn size_of_range_field(fields: &[Pair], told: &mut Told) -> Option<u64> {
    if has_header(fields, b"size") {
        Some(number_in_verb_field(fields, b"size", told))
    } else {
        None
    }
}

fn is_named<T: Debug>(alloc: Global, value: &T, name: &str) -> bool {
    let mut told = Told::new(alloc);
    told.say_value(value);
    told.text() == name
}

/// The words of an item.
#[derive(Clone, Copy)]
struct Words<'a> {
    moment: u64,
    number: u128,
    word: &'a [u8],
    text: &'a [u8],
}

/// The words of a field that is an item.
fn words_of_item<'a>(field: &'a Pair, told: &mut Told) -> Option<Words<'a>> {
    if field.name.as_slice() != b"item".as_slice() {
        return None;
    }
    let (moment, rest) = cut(field.value.as_slice(), b' ');
    let (number, rest) = cut(rest, b' ');
    let (word, text) = cut(rest, b' ');
    Some(Words {
        moment: number_of_text(text_of_bytes(moment, told), told),
        number: id_of_digits(number, told),
        word,
        text,
    })
}

/// What the words of an item give.
trait FromWords: Drop + Sized {
    fn from_words(alloc: Global, words: &Words<'_>, told: &mut Told) -> Self;
}

/// The items of the fields `item`, in their order.
fn items_of_fields<T: FromWords>(alloc: Global, fields: &[Pair], told: &mut Told) -> List<T> {
    let mut items = List::new(alloc);
    for field in fields {
        if let Some(words) = words_of_item(field, told) {
            let item = T::from_words(alloc, &words, told);
            told.push(&mut items, item);
        }
    }
    items
}

impl FromWords for BucketItem {
    fn from_words(alloc: Global, words: &Words<'_>, told: &mut Told) -> BucketItem {
        BucketItem {
            name: copy_of_bytes(alloc, words.text, told),
            created: words.moment,
        }
    }
}

impl FromWords for Item {
    fn from_words(alloc: Global, words: &Words<'_>, told: &mut Told) -> Item {
        Item {
            text: copy_of_bytes(alloc, words.text, told),
            object: item_head_of_words(alloc, words, told),
        }
    }
}

impl FromWords for UploadItem {
    fn from_words(alloc: Global, words: &Words<'_>, told: &mut Told) -> UploadItem {
        UploadItem {
            key: copy_of_bytes(alloc, words.text, told),
            id: words.number,
            started: words.moment,
        }
    }
}

impl FromWords for PartItem {
    fn from_words(alloc: Global, words: &Words<'_>, told: &mut Told) -> PartItem {
        PartItem {
            number: small_number_of_bytes(words.word, told),
            etag: copy_of_bytes(alloc, words.text, told),
            modified: words.moment,
            size: size_of_item_number(words.number, told),
        }
    }
}

fn objects_reply_of_fields(alloc: Global, fields: &[Pair], told: &mut Told) -> Reply {
    Reply::OfObjects(ObjectsReply::Objects(ObjectPage {
        bucket: bytes_in_verb_field(alloc, fields, b"bucket", told),
        asked: asked_of_fields(alloc, fields, told),
        items: items_of_fields(alloc, fields, told),
        truncated: is_verb_field_yes(fields, b"truncated"),
    }))
}

fn item_head_of_words(alloc: Global, words: &Words<'_>, told: &mut Told) -> Option<ItemHead> {
    if words.word == b"-".as_slice() {
        return None;
    }
    Some(ItemHead {
        etag: copy_of_bytes(alloc, words.word, told),
        modified: words.moment,
        size: size_of_item_number(words.number, told),
    })
}

fn asked_of_fields(alloc: Global, fields: &[Pair], told: &mut Told) -> Asked {
    let is_first = first_value(fields, b"version") == b"1".as_slice();
    Asked {
        version: if is_first { 1 } else { 2 },
        prefix: bytes_in_verb_field(alloc, fields, b"prefix", told),
        delimiter: bytes_in_verb_field(alloc, fields, b"delimiter", told),
        marker: bytes_in_verb_field(alloc, fields, b"marker", told),
        start_after: bytes_in_verb_field(alloc, fields, b"start-after", told),
        token: token_of_fields(alloc, fields, told),
        max: small_number_in_verb_field(fields, b"max", told),
        url: is_verb_field_yes(fields, b"url"),
        owner: is_verb_field_yes(fields, b"owner"),
        versions: is_verb_field_yes(fields, b"versions"),
    }
}

fn token_of_fields(alloc: Global, fields: &[Pair], told: &mut Told) -> Option<Bytes> {
    if has_header(fields, b"token") {
        Some(bytes_in_verb_field(alloc, fields, b"token", told))
    } else {
        None
    }
}

fn uploads_reply_of_fields(alloc: Global, fields: &[Pair], told: &mut Told) -> Reply {
    Reply::OfUploads(UploadsReply::Uploads(UploadPage {
        bucket: bytes_in_verb_field(alloc, fields, b"bucket", told),
        asked: UploadsAsked {
            prefix: bytes_in_verb_field(alloc, fields, b"prefix", told),
            key_marker: bytes_in_verb_field(alloc, fields, b"key-marker", told),
            id_marker: bytes_in_verb_field(alloc, fields, b"id-marker", told),
            max: small_number_in_verb_field(fields, b"max", told),
            url: is_verb_field_yes(fields, b"url"),
        },
        items: items_of_fields(alloc, fields, told),
        truncated: is_verb_field_yes(fields, b"truncated"),
    }))
}

fn parts_reply_of_fields(alloc: Global, fields: &[Pair], told: &mut Told) -> Reply {
    Reply::OfUploads(UploadsReply::Parts(PartPage {
        bucket: bytes_in_verb_field(alloc, fields, b"bucket", told),
        key: bytes_in_verb_field(alloc, fields, b"key", told),
        id: id_of_digits(first_value(fields, b"id"), told),
        asked: PartsAsked {
            marker: small_number_in_verb_field(fields, b"number-marker", told),
            max: small_number_in_verb_field(fields, b"max", told),
        },
        items: items_of_fields(alloc, fields, told),
        truncated: is_verb_field_yes(fields, b"truncated"),
    }))
}

fn deleted_reply_of_fields(alloc: Global, fields: &[Pair], told: &mut Told) -> Reply {
    Reply::OfObjects(ObjectsReply::Deleted(DeletedKeys {
        keys: keys_of_fields(alloc, fields, told),
        quiet: is_verb_field_yes(fields, b"quiet"),
    }))
}

/// The keys of the fields `key`, in their order.
fn keys_of_fields(alloc: Global, fields: &[Pair], told: &mut Told) -> List<Key> {
    let mut keys = List::new(alloc);
    for field in fields {
        if field.name.as_slice() == b"key".as_slice() {
            if let Some(key) = told.keep_made(Key::read(alloc, field.value.as_slice())) {
                told.push(&mut keys, key);
            }
        }
    }
    keys
}

/// The bytes of a field; none where it is missing.
fn bytes_in_verb_field(alloc: Global, fields: &[Pair], name: &[u8], told: &mut Told) -> Bytes {
    copy_of_bytes(alloc, first_value(fields, name), told)
}

fn text_in_verb_field<'a>(fields: &'a [Pair], name: &[u8], told: &mut Told) -> &'a str {
    text_of_bytes(first_value(fields, name), told)
}

/// Whether a field says `yes`.
fn is_verb_field_yes(fields: &[Pair], name: &[u8]) -> bool {
    first_value(fields, name) == b"yes".as_slice()
}

fn number_in_verb_field(fields: &[Pair], name: &[u8], told: &mut Told) -> u64 {
    number_of_text(text_in_verb_field(fields, name, told), told)
}

fn small_number_in_verb_field(fields: &[Pair], name: &[u8], told: &mut Told) -> u32 {
    small_number_of_bytes(first_value(fields, name), told)
}

fn small_number_of_bytes(text: &[u8], told: &mut Told) -> u32 {
    match text_of_bytes(text, told).parse::<u32>() {
        Ok(number) => number,
        Err(_) => {
            told.note_fault(Fault::Unread("no number of 32 bits"));
            0
        }
    }
}

/// The number of a request or of an upload, in decimal.
fn id_of_digits(text: &[u8], told: &mut Told) -> u128 {
    match text_of_bytes(text, told).parse::<u128>() {
        Ok(number) => number,
        Err(_) => {
            told.note_fault(Fault::Unread("no number of 128 bits"));
            0
        }
    }
}

fn size_of_item_number(number: u128, told: &mut Told) -> u64 {
    match u64::try_from(number) {
        Ok(number) => number,
        Err(_) => {
            told.note_fault(Fault::Unread("a number of more than 64 bits"));
            0
        }
    }
}
