//! Lists of segments, as they are read.
ghost use Rattle.std.specs.Prelude.{◌≡◌, option_map, IfOk};
ghost use Rattle.swift_replies.specs.Answers.{segments_in, manifest_by, get_manifest_reply};
ghost use Rattle.slo_manifest.specs.declared.manifest.Form.TheVariants.{Got};
ghost use Rattle.swift_calls.specs.declared.calls.SwiftReply.TheVariants.{Manifest};

use crate::values::reply_segments_flag_in;
use gate_base::{List, Memory, Pair};
use slo_manifest::{Form, ManifestFault, Segment, read};
use std::alloc::Global;
use swift_calls::SwiftReply;
use swift_statuses::missing;

/// The segments that a text lists, in the form; none where it is no such list of segments, or has more than one
/// manifest lists.
#[tactic(auto, using(crate::proofs::ManifestLemmas::segments_read, crate::proofs::ManifestLemmas::segments_refused))]
pub fn spelled_segments_in(
    alloc: Global,
    text: &[u8],
    form: Form,
) -> Result<Option<List<Segment>>, Memory>
    ensures { IfOk result (λ segments. segments ≡ segments_in form text.now) }
{
    match read(alloc, text, form) {
        Ok(segments) => Ok(Some(segments)),
        Err(ManifestFault::Memory) => Err(Memory),
        Err(_) => Ok(None),
    }
}

pub(crate) fn get_manifest_reply(
    alloc: Global,
    status: u16,
    headers: &[Pair],
    body: &[u8],
) -> Result<Option<SwiftReply>, Memory>
    ensures { IfOk result (λ reply. reply ≡ get_manifest_reply status headers.now body.now) }
{
    if status == 200 {
        manifest_by(alloc, reply_segments_flag_in(headers), body)
    } else {
        Ok(missing(status))
    }
}

/// The segments of an answer that has some. Without them it is the object's own bytes.
fn manifest_by(
    alloc: Global,
    lists: Option<bool>,
    body: &[u8],
) -> Result<Option<SwiftReply>, Memory>
    ensures { IfOk result (λ reply. reply ≡ manifest_by lists body.now) }
{
    match lists {
        Some(true) => segments_reply(alloc, body),
        Some(false) => Ok(Some(SwiftReply::NotFound)),
        None => Ok(None),
    }
}

fn segments_reply(alloc: Global, body: &[u8]) -> Result<Option<SwiftReply>, Memory>
    ensures { IfOk result
        (λ reply. reply ≡ option_map (λ segments. Manifest segments) (segments_in Got body.now)) }
{
    match spelled_segments_in(alloc, body, Form::Got)? {
        Some(segments) => Ok(Some(SwiftReply::Manifest(segments))),
        None => Ok(None),
    }
}
