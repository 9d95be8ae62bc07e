//! GetObject, whose bytes are got piece by piece: what it comes to before the first of them, and a piece.
ghost use Rattle.std.specs.Prelude.{◌≡◌, ◌≢◌, ◌<◌, ◌≤◌, ◌+◌, length, Err, Ok, Some, IfOk};
ghost use Rattle.s3_machine.specs.Parts.{AsksNoPart};
ghost use Rattle.s3_machine.specs.Reading.{judged};
ghost use Rattle.s3_machine.specs.declared.operation.Op.TheVariants.{GetObject};
ghost use Rattle.swift_calls.specs.History.{present};
ghost use Rattle.account_calls.specs.Answers.{most_calls};
ghost use Rattle.account_calls.specs.Calls.{always, Any, Asks, Given, Tells, TellsBucket};
ghost use Rattle.account_calls.specs.Lent.{Stays};
ghost use Rattle.account_calls.specs.Told.{CountsOne, LeavesAccount};
ghost use Rattle.account_calls.specs.declared.fault.PlanFault.TheVariants.{Failed};
ghost use Rattle.planner.specs.Reading.{StopsOrFinds, AnsweredOrFound, EndsOrFinds, GivesPieceOf, HasFound, HasNoByte, IsFound, TellsPiece, piece_end, reading_end, reading_of, LeavesBytes};

use account_calls::{PlanFault, Settled, head_bucket, reply_of};
use gate_base::{Bytes, Copying, List, Pair};
use s3_machine::{Code, Judged, Label, ObjectHead, ObjectRead, Reply, judge, may_read};
use s3_names::{Acl, BucketName, Key};
use swift_calls::Swift;

/// The bytes of an object that a read is answered: the object's name and head, and `length` of its bytes from the byte `from`
/// on; `partial` where a range was asked for. `shown` and `parts` are as in the reply.
#[derive(Debug, Drop)]
pub struct Found {
    pub bucket: BucketName,
    pub key: Key,
    pub head: ObjectHead,
    pub from: u64,
    pub length: u64,
    pub partial: bool,
    pub shown: List<Pair>,
    pub parts: Option<u32>,
}

/// What a request comes to before the first byte of an object is got.
#[derive(Debug, Drop)]
pub enum Reading {
    /// The whole reply.
    Whole(Reply),
    /// These bytes, which are still to be got ([`read_piece`]).
    Pieces(Found),
}

/// Finds the object of GetObject, whose bytes are still to be got ([`read_piece`]): HEAD of the bucket's container, then HEAD of the
/// object's file. At most two calls, which leave the account. Or what it comes to is the whole reply, as of an operation that is
/// answered ([`crate::answer`]). No part is asked for.
pub fn find_object<W: Swift>(state: &mut Settled<'_, W>, read: ObjectRead, label: &Label) -> Reading
    requires planned { AsksNoPart (GetObject read) }
    ensures stays { Stays state.old state.new }

    // The calls amount to the operation, or they left the state and found what is asked for.
    ensures answered { AnsweredOrFound (most_calls (GetObject read)
        (present (W.history state.old.store.now)))
        (W.history state.old.store.now) (W.history state.new.store.now) state.old.settings.now
        (GetObject read)
        label.now result }

    // They leave the account, whether it is consistent or not.
    ensures account { LeavesAccount (W.history state.old.store.now) (W.history state.new.store.now) }

    // A whole reply gives no bytes of an object.
    ensures leaves { LeavesBytes result }
    ensures bodiless { HasNoByte result }
{
    reading_end(found_object(state, read, label))
}

fn reading_end(end: Result<Reading, PlanFault>) -> Reading
    ensures { result ≡ reading_end end }
{
    match end {
        Ok(reading) => reading,
        Err(fault) => Reading::Whole(reply_of(Err(fault))),
    }
}

/// GetObject: HEAD of the bucket's container, then HEAD of the object's file. At most two calls. Conditions and range are decided
/// by the head: where a condition doesn't hold, or the object has no byte of the range, that is the reply. The faults are those
/// of the calls, which leave the account, consistent or not.
fn found_object<W: Swift>(
    state: &mut Settled<'_, W>,
    read: ObjectRead,
    label: &Label,
) -> Result<Reading, PlanFault>
    requires planned { AsksNoPart (GetObject read) }
    ensures stays { Stays state.old state.new }
    ensures finds { EndsOrFinds (most_calls (GetObject read)
        (present (W.history state.old.store.now))) 2 (W.history state.old.store.now)
        (W.history state.new.store.now) state.old.settings.now Any
        (GetObject read) label.now result }
    ensures account { LeavesAccount (W.history state.old.store.now) (W.history state.new.store.now) }
    ensures leaves { IfOk result LeavesBytes }
    ensures stops { StopsOrFinds 0 (W.history state.old.store.now) (W.history state.new.store.now) result }
{
    let Some(list) = head_bucket(state, &read.bucket)? else {
        return Ok(Reading::Whole(Reply::Refused(Code::NoSuchBucket)));
    };
    found_object_within(state, read, list, label)
}

/// The same in a bucket that has this access control list.
fn found_object_within<W: Swift>(
    state: &mut Settled<'_, W>,
    read: ObjectRead,
    list: Acl,
    label: &Label,
) -> Result<Reading, PlanFault>
    requires planned { AsksNoPart (GetObject read) }
    ensures stays { Stays state.old state.new }
    ensures finds { EndsOrFinds (always 1) 1 (W.history state.old.store.now)
        (W.history state.new.store.now) state.old.settings.now
        (λ s. TellsBucket read.bucket s (Some list)) (GetObject read)
        label.now result }
    ensures account { LeavesAccount (W.history state.old.store.now) (W.history state.new.store.now) }
    ensures leaves { IfOk result LeavesBytes }
    ensures stops { StopsOrFinds 1 (W.history state.old.store.now) (W.history state.new.store.now) result }
{
    if !may_read(label.caller, list) {
        return Ok(Reading::Whole(Reply::Refused(Code::AccessDenied)));
    }
    let Some(head) = account_calls::head_object(state, &read.bucket, &read.key)? else {
        return Ok(Reading::Whole(Reply::Refused(Code::NoSuchKey)));
    };
    Ok(reading_of(read, head))
}

/// What a read comes to that asks for no part, by the head of an object that may be read.
fn reading_of(read: ObjectRead, head: ObjectHead) -> Reading
    ensures { result ≡ reading_of read.bucket read.key read.shown head
        (judged read.range read.conditions head) }
{
    match judge(read.range, &read.conditions, &head) {
        Judged::PreconditionFailed => { Reading::Whole(Reply::Refused(Code::PreconditionFailed)) }
        Judged::NotModified => Reading::Whole(Reply::NotModified(head)),
        Judged::InvalidRange => {
            Reading::Whole(Reply::Refused(Code::InvalidRange(Some(head.size))))
        }
        Judged::Bytes { span, partial } => Reading::Pieces(Found {
            bucket: read.bucket,
            key: read.key,
            head,
            from: span.from,
            length: span.length,
            partial,
            shown: read.shown,
            parts: None,
        }),
    }
}

/// So many bytes of those that are asked for, from the byte `at` of them on, by one GET of the range. The faults are those of the
/// call, which leaves the account, consistent or not. A store that gives another number of bytes is inconsistent, and so is one
/// whose file isn't any more what HEAD told.
pub fn read_piece<W: Swift>(
    state: &mut Settled<'_, W>,
    found: &Found,
    at: u64,
    size: u64,
) -> Result<Bytes, PlanFault>
    requires found { IsFound found.now }
    requires filled { 0 < size }
    requires within { at + size ≤ found.now.length }
    ensures stays { Stays state.old state.new }
    ensures asks { Asks (always 1) (W.history state.old.store.now) (W.history state.new.store.now)
        (Given (HasFound found.now)) (Tells (TellsPiece found.now at size)) result }
    ensures sized { IfOk result (λ bytes. length bytes ≡ size) }
    ensures unchanged { GivesPieceOf (W.history state.old.store.now) found.now result }
    ensures account { LeavesAccount (W.history state.old.store.now) (W.history state.new.store.now) }
    ensures counts { CountsOne (W.history state.old.store.now).called
        (W.history state.new.store.now).called result }
{
    let bucket = found.bucket.copy()?;
    let key = found.key.copy()?;
    let first = found.from + at;
    let told = account_calls::get_object(
        state,
        bucket,
        key,
        found.head.etag.as_slice(),
        found.head.size,
        Some((first, first + (size - 1))),
    )?;
    piece_of(told, size)
}

fn piece_of(told: Option<Bytes>, size: u64) -> Result<Bytes, PlanFault>
    ensures end { result ≡ piece_end told size }
    ensures no_failure { result ≢ Err Failed }
{
    let Some(bytes) = told else {
        return Err(PlanFault::Inconsistent);
    };
    if bytes.len() as u64 != size {
        return Err(PlanFault::Inconsistent);
    }
    Ok(bytes)
}
