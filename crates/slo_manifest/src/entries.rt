ghost use Rattle.std.specs.Prelude.{◌≡◌, option_map, IfOk, true};
ghost use Rattle.std.specs.Str.{IsUtf8};
ghost use Rattle.serde_json.specs.Find.{get, as_str, as_u64};
ghost use Rattle.serde_json.specs.View.{view};
ghost use Rattle.slo_manifest.specs.Segments.{is_segment};
ghost use Rattle.slo_manifest.specs.Entry.{etag_field, manifest_path_field, manifest_size_field, text_at, number_at, entry_of, segment_of, EntryGives};
ghost use Rattle.slo_manifest.specs.Text.{entry_value, manifest_put_entry, manifest_got_entry};

use crate::Segment;
use crate::manifest::Form;
use crate::members::{Field, Member, json_object};
use crate::paths::{path_of, split_segment_path};
use crate::segments::are_manifest_entry_fields;
use gate_base::{Bytes, Memory};
use serde_json::Value;
use std::alloc::Global;
use text_forms::text_of;

/// Why an entry gives no segment.
#[derive(Clone, Copy)]
pub enum EntryFault {
    /// It is no segment.
    Bad,
    /// It is a segment of size 0.
    Empty,
    /// Memory ran out.
    Memory,
}

impl From<Memory> for EntryFault {
    ghost use Rattle.slo_manifest.specs.declared.entries.EntryFault.{EntryFault};

    ghost from_gives = { λ _ fault. fault ≡ EntryFault.Memory };

    fn from(_: Memory) -> EntryFault {
        EntryFault::Memory
    }
}

fn etag_field(form: Form) -> &'static str
    ensures { result.now ≡ etag_field form }
{
    match form {
        Form::Put => "etag",
        Form::Got => "hash",
    }
}

fn manifest_path_field(form: Form) -> &'static str
    ensures { result.now ≡ manifest_path_field form }
{
    match form {
        Form::Put => "path",
        Form::Got => "name",
    }
}

fn manifest_size_field(form: Form) -> &'static str
    ensures { result.now ≡ manifest_size_field form }
{
    match form {
        Form::Put => "size_bytes",
        Form::Got => "bytes",
    }
}

fn text_at<'v>(value: &'v Value, field: &str) -> Option<&'v str>
    ensures { option_map (λ text. text.now) result ≡ text_at field.now (view value.now) }
{
    value.get(field)?.as_str()
}

fn number_at(value: &Value, field: &str) -> Option<u64>
    ensures { result ≡ number_at field.now (view value.now) }
{
    value.get(field)?.as_u64()
}

/// The segment that an entry of a manifest's list is.
#[tactic(auto, unfolding(crate::specs::Entry::entry_of))]
pub fn read_manifest_entry(alloc: Global, value: &Value, form: Form) -> Result<Segment, EntryFault>
    ensures answer { EntryGives result (entry_of form (view value.now)) }
    ensures listed { IfOk result (λ segment. is_segment segment ≡ true) }
{
    let Some(etag) = text_at(value, etag_field(form)) else {
        return Err(EntryFault::Bad);
    };
    let Some(path) = text_at(value, manifest_path_field(form)) else {
        return Err(EntryFault::Bad);
    };
    let Some(size) = number_at(value, manifest_size_field(form)) else {
        return Err(EntryFault::Bad);
    };
    read_segment_fields(alloc, etag.as_bytes(), path.as_bytes(), size)
}

/// The segment that the three fields of an entry are.
#[tactic(auto, using(crate::proofs::CutLemmas::segment_listed), unfolding(crate::specs::Entry::segment_of))]
fn read_segment_fields(
    alloc: Global,
    etag: &[u8],
    path: &[u8],
    size: u64,
) -> Result<Segment, EntryFault>
    requires { IsUtf8 path.now }
    ensures answer { EntryGives result (segment_of etag.now path.now size) }
    ensures listed { IfOk result (λ segment. is_segment segment ≡ true) }
{
    let (container, name) = split_segment_path(path);
    if !are_manifest_entry_fields(container, name, etag, size) {
        return Err(EntryFault::Bad);
    }
    if size == 0 {
        return Err(EntryFault::Empty);
    }
    Ok(Segment {
        container: Bytes::from_slice(alloc, container)?,
        name: Bytes::from_slice(alloc, name)?,
        etag: Bytes::from_slice(alloc, etag)?,
        size,
    })
}

/// The entry of a segment, as JSON.
#[tactic(auto, using(crate::proofs::SegmentLemmas::container_is_utf8, crate::proofs::SegmentLemmas::name_is_utf8, crate::proofs::SegmentLemmas::etag_is_utf8))]
pub fn entry_value(alloc: Global, segment: &Segment, form: Form) -> Result<Value, Memory>
    requires { is_segment segment.now ≡ true }
    ensures { IfOk result (λ value. view value ≡ entry_value form segment.now) }
{
    let container = text_of(segment.container.as_slice());
    let name = text_of(segment.name.as_slice());
    let path = path_of(alloc, container, name)?;
    let etag = text_of(segment.etag.as_slice());
    match form {
        Form::Put => manifest_put_entry(alloc, etag, path.as_str(), segment.size),
        Form::Got => manifest_got_entry(alloc, etag, path.as_str(), segment.size),
    }
}

fn manifest_put_entry<'a>(
    alloc: Global,
    etag: &'a str,
    path: &'a str,
    size: u64,
) -> Result<Value, Memory>
    ensures { IfOk result (λ value. view value ≡ manifest_put_entry etag.now path.now size) }
{
    json_object(
        alloc,
        &[
            Member {
                name: "etag",
                field: Field::Text(etag),
            },
            Member {
                name: "path",
                field: Field::Text(path),
            },
            Member {
                name: "size_bytes",
                field: Field::Number(size),
            },
        ],
    )
}

fn manifest_got_entry<'a>(
    alloc: Global,
    etag: &'a str,
    path: &'a str,
    size: u64,
) -> Result<Value, Memory>
    ensures { IfOk result (λ value. view value ≡ manifest_got_entry etag.now path.now size) }
{
    json_object(
        alloc,
        &[
            Member {
                name: "bytes",
                field: Field::Number(size),
            },
            Member {
                name: "content_type",
                field: Field::Text("application/octet-stream"),
            },
            Member {
                name: "hash",
                field: Field::Text(etag),
            },
            Member {
                name: "last_modified",
                field: Field::Text("1970-01-01T00:00:00.000000"),
            },
            Member {
                name: "name",
                field: Field::Text(path),
            },
        ],
    )
}
