//! The forms of what a text may say.
ghost use Rattle.std.specs.Prelude.{◌≡◌, ◌&&◌, length, nat_lt};
ghost use Rattle.std.specs.List.{list_all};
ghost use Rattle.gate_base.specs.Told.{moment_limit};
ghost use Rattle.slo_manifest.specs.Segments.{is_etag};
ghost use Rattle.upload_texts.specs.Places.{is_part_count, part_number_fits_record_text};
ghost use Rattle.upload_texts.specs.Records.{is_dated, content_fits_record_text, list_fits_record_text, part_fits_record_text};
ghost use Rattle.upload_texts.specs.Sealed.{is_sealed_list, part_fits_sealed_text};

use crate::sealed::SealedPart;
use gate_base::MOMENT_LIMIT;
use s3_machine::{
    GREATEST_PART_NUMBER, Listed, MOST_BODY_BYTES, MOST_PARTS, is_content_type, is_proper_meta,
};
use s3_names::Meta;
use text_forms::all_lower_hex;

pub(crate) fn is_moment(moment: u64) -> bool
    ensures { result ≡ nat_lt moment moment_limit }
{
    moment < MOMENT_LIMIT
}

/// Whether a moment that is known has a date.
pub(crate) fn is_dated(moment: Option<u64>) -> bool
    ensures { result ≡ is_dated moment }
{
    match moment {
        Some(moment) => is_moment(moment),
        None => true,
    }
}

/// Whether an object may be put with this.
pub(crate) fn content_fits_record_text(content_type: &[u8], meta: &Meta) -> bool
    ensures { result ≡ content_fits_record_text content_type.now meta.now }
{
    let _ordered = meta.pairs();
    is_content_type(content_type) && is_proper_meta(meta)
}

#[tactic(auto, unfolding(s3_machine::specs::Uploads::greatest_part))]
fn part_number_fits_record_text(number: u32) -> bool
    ensures { result ≡ part_number_fits_record_text number }
{
    1 <= number && number <= GREATEST_PART_NUMBER
}

#[tactic(auto, unfolding(s3_machine::specs::Uploads::most_parts))]
fn is_part_count(count: usize) -> bool
    ensures { result ≡ is_part_count count }
{
    1 <= count && count <= MOST_PARTS
}

/// The ETag of a part: 32 hexadecimal digits in lower case.
#[tactic(auto, unfolding(slo_manifest::specs::Segments::is_etag))]
fn part_etag_fits_record_text(etag: &[u8]) -> bool
    ensures { result ≡ is_etag etag.now }
{
    etag.len() == 32 && all_lower_hex(etag)
}

fn part_fits_record_text(listed: &Listed) -> bool
    ensures { result ≡ part_fits_record_text listed.now }
{
    part_number_fits_record_text(listed.number)
        && part_etag_fits_record_text(listed.etag.as_slice())
}

fn parts_fit_record_text(list: &[Listed]) -> bool
    ensures { result ≡ list_all part_fits_record_text list.now }
{
    list.iter().all(|listed| part_fits_record_text(listed))
}

pub(crate) fn list_fits_record_text(list: &[Listed]) -> bool
    ensures { result ≡ list_fits_record_text list.now }
{
    is_part_count(list.len()) && parts_fit_record_text(list)
}

fn part_fits_sealed_text(part: &SealedPart) -> bool
    ensures { result ≡ part_fits_sealed_text part.now }
{
    part_number_fits_record_text(part.number)
        && part_etag_fits_record_text(part.etag.as_slice())
        && part.size <= MOST_BODY_BYTES
}

fn parts_fit_sealed_text(list: &[SealedPart]) -> bool
    ensures { result ≡ list_all part_fits_sealed_text list.now }
{
    list.iter().all(|part| part_fits_sealed_text(part))
}

pub(crate) fn is_sealed_list(list: &[SealedPart]) -> bool
    ensures { result ≡ is_sealed_list list.now }
{
    is_part_count(list.len()) && parts_fit_sealed_text(list)
}
