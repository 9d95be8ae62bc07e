ghost use Rattle.std.specs.Prelude.{◌≡◌, IfOk, Ok, true};
ghost use Rattle.slo_manifest.specs.Segments.{is_manifest};
ghost use Rattle.slo_manifest.specs.Text.{manifest_text};
ghost use Rattle.slo_manifest.specs.Manifest.{Reads};

use crate::Segment;
use crate::entries::entry_value;
use crate::manifest::Form;
use gate_base::{Bytes, Memory};
use serde_json::Value;
use std::alloc::Global;

/// The text of a manifest with these segments, in the form (Object Storage API v1, "Static large objects"): JSON
/// without a space, the fields of an entry in the order of their names. A Got form has the type
/// `application/octet-stream` and a fixed time, for a store that has neither. It asks that the segments have a text,
/// which `is_manifest` tests, and fails only where memory runs out.
#[tactic(auto, using(crate::proofs::ListLemmas::segment_at, crate::proofs::ListLemmas::map_more))]
pub fn write(alloc: Global, segments: &[Segment], form: Form) -> Result<Bytes, Memory>
    requires { is_manifest segments.now ≡ true }
    ensures text { IfOk result (λ text. text ≡ manifest_text form segments.now) }
    ensures reads_back { IfOk result (λ text. Reads form text (Ok segments.now)) }
{
    let mut entries = Vec::new(alloc);
    for segment in segments {
        entries.push(entry_value(alloc, segment, form)?)?;
    }
    Ok(Bytes::from_vec(Value::Array(entries).to_vec(alloc)?))
}
