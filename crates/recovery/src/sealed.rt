//! The record of a completion that is sealed.
ghost use Rattle.std.specs.Prelude.{◌≡◌, map, Some, true, IfOk};
ghost use Rattle.s3_names.specs.Id.{id_digits};
ghost use Rattle.swift_calls.specs.Step.{Fit};
ghost use Rattle.upload_texts.specs.Records.{read_record, record_text};
ghost use Rattle.upload_texts.specs.Sealed.{has_sealed_text};
ghost use Rattle.upload_records.specs.Native.{listed_of, sealed_record};
ghost use Rattle.account_calls.specs.Sealed.{put_record_of};

use gate_base::{Bytes, Copying, List, Memory};
use s3_machine::Listed;
use s3_names::id_digits;
use std::alloc::Global;
use swift_calls::{FilePut, SwiftRequest};
use upload_records::uploads_container;
use upload_texts::{Record, Sealed, SealedPart};

/// The text of the record of a completed upload, with the moment of its completion.
pub(crate) fn rolled_forward_record_text(alloc: Global, sealed: &Sealed) -> Result<Bytes, Memory>
    requires { has_sealed_text sealed.now ≡ true }
    ensures text { IfOk result (λ text. text ≡ record_text (sealed_record sealed.now)) }
    ensures reads { IfOk result (λ text. read_record text ≡ Some (sealed_record sealed.now)) }
{
    let key = sealed.key.copy()?;
    let etag = sealed.etag.copy()?;
    let list = rolled_forward_record_parts(alloc, sealed.list.as_slice())?;
    let record = Record::Done {
        key,
        list,
        etag,
        started: sealed.started,
        moment: Some(sealed.moment),
    };
    record.write(alloc)
}

/// The parts as a record lists them.
#[tactic(auto, using(account_calls::proofs::lemmas::Segments::listed_more))]
fn rolled_forward_record_parts(alloc: Global, parts: &[SealedPart]) -> Result<List<Listed>, Memory>
    ensures { IfOk result (λ list. list ≡ map listed_of parts.now) }
{
    let mut list = List::new(alloc);
    for part in parts {
        let etag = part.etag.copy()?;
        list.push(Listed {
            number: part.number,
            etag,
        })?;
    }
    Ok(list)
}

/// The PUT of the record of this text.
pub(crate) fn rolled_forward_record_request(
    alloc: Global,
    sealed: &Sealed,
    text: Bytes,
) -> Result<SwiftRequest, Memory>
    requires has { has_sealed_text sealed.now ≡ true }
    requires text { text ≡ record_text (sealed_record sealed.now) }
    ensures request { IfOk result (λ request. request ≡ put_record_of sealed.now) }
    ensures fits { IfOk result Fit }
{
    let container = uploads_container(alloc, sealed.bucket.as_slice())?;
    let name = Bytes::from_slice(alloc, &id_digits(sealed.id))?;
    let content_type = Bytes::from_slice(alloc, b"application/json")?;
    Ok(SwiftRequest::PutObject(FilePut {
        container,
        name,
        content_type,
        meta: List::new(alloc),
        body: text,
        fresh: false,
    }))
}
