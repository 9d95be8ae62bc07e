//! The sub-manifests of a copy, which are put after its parts and before its file.
ghost use Rattle.std.specs.Prelude.{◌≡◌, ◌<◌, ◌+◌, true, IsTrue};
ghost use Rattle.upload_texts.specs.Sealed.{has_sealed_text};
ghost use Rattle.upload_records.specs.Native.{sealed_segments, sealed_sub_manifests};
ghost use Rattle.account_calls.specs.Calls.{always, Asks, GivenOf};
ghost use Rattle.account_calls.specs.Lent.{Stays};
ghost use Rattle.account_calls.specs.Puts.{Stands};
ghost use Rattle.account_calls.specs.Sealed.{put_sub_of};
ghost use Rattle.many_keys.specs.CopiedLists.{HasCopied, IsCopy, LeavesCopied};
ghost use Rattle.many_keys.specs.OwnSegments.{KeepsAllBut, PutsSubs};
ghost use Rattle.s3_names.specs.Id.{id_digits};
ghost use Rattle.swift_calls.specs.History.{present};
ghost use Rattle.upload_records.specs.Layout.{segments_name, sub_manifest_name};

use account_calls::{
    PlanFault, Settled, etag_of_put, interpret_put_with_etag, sealed_segments, sub_manifest_count,
    sub_manifest_request,
};
use slo_manifest::Segment;
use swift_calls::Swift;
use upload_records::law_orphan_listed;
use upload_texts::Sealed;

/// Puts the sub-manifests of a copy whose parts stand beside the bucket; none, where its own manifest may list them. One call for
/// each, and the S3 state stays. The faults are those of the calls; Inconsistent never comes over an observable consistent account
/// on which nothing names the id.
pub(crate) fn put_copied_sub_manifests<W: Swift>(
    state: &mut Settled<'_, W>,
    sealed: &Sealed,
) -> Result<(), PlanFault>
    requires copy { IsCopy sealed.now }
    requires has { has_sealed_text sealed.now ≡ true }
    ensures stays { Stays state.old state.new }
    ensures asks { Asks (always (sealed_sub_manifests sealed.now)) (W.history state.old.store.now)
        (W.history state.new.store.now) (GivenOf (HasCopied sealed.now 0))
        (LeavesCopied sealed.now (sealed_sub_manifests sealed.now)) result }
    ensures own { PutsSubs sealed.now (sealed_sub_manifests sealed.now) (W.history state.old.store.now)
        (W.history state.new.store.now) result }
{
    let alloc = state.alloc;
    let segments = sealed_segments(alloc, sealed)?;
    put_copied_sub_manifests_of(state, sealed, segments.as_slice())
}

/// The same, by the segments that its parts are.
fn put_copied_sub_manifests_of<W: Swift>(
    state: &mut Settled<'_, W>,
    sealed: &Sealed,
    segments: &[Segment],
) -> Result<(), PlanFault>
    requires copy { IsCopy sealed.now }
    requires has { has_sealed_text sealed.now ≡ true }
    requires are { segments.now ≡ sealed_segments sealed.now }
    ensures stays { Stays state.old state.new }
    ensures asks { Asks (always (sealed_sub_manifests sealed.now)) (W.history state.old.store.now)
        (W.history state.new.store.now) (GivenOf (HasCopied sealed.now 0))
        (LeavesCopied sealed.now (sealed_sub_manifests sealed.now)) result }
    ensures own { PutsSubs sealed.now (sealed_sub_manifests sealed.now) (W.history state.old.store.now)
        (W.history state.new.store.now) result }
{
    let count = sub_manifest_count(segments.len());
    for n in 0..count {
        put_copied_sub_manifest(state, sealed, segments, n)?;
    }
    Ok(())
}

/// Puts the sub-manifest of that number, counted from 0, where those before it are there (Object Storage API v1, "Static large
/// objects").
fn put_copied_sub_manifest<W: Swift>(
    state: &mut Settled<'_, W>,
    sealed: &Sealed,
    segments: &[Segment],
    n: usize,
) -> Result<(), PlanFault>
    requires copy { IsCopy sealed.now }
    requires has { has_sealed_text sealed.now ≡ true }
    requires are { segments.now ≡ sealed_segments sealed.now }
    requires below { n < sealed_sub_manifests sealed.now }
    ensures stays { Stays state.old state.new }
    ensures asks { Asks (always 1) (W.history state.old.store.now) (W.history state.new.store.now)
        (GivenOf (HasCopied sealed.now n)) (LeavesCopied sealed.now (n + 1)) result }
    ensures stands { Stands (W.history state.new.store.now) (put_sub_of sealed.now n) result }
    ensures keeps { IsTrue (W.history state.old.store.now).observable
        → KeepsAllBut (segments_name sealed.now.bucket) (sub_manifest_name (id_digits sealed.now.id) (n + 1))
        (present (W.history state.old.store.now)) (present (W.history state.new.store.now)) }
{
    let alloc = state.alloc;
    law_orphan_listed();
    let request = sub_manifest_request(alloc, sealed, segments, n)?;
    let etag = etag_of_put(&request);
    let reply = state.call(request)?;
    interpret_put_with_etag(&reply, &etag)
}
