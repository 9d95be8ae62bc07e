//! What a message means in the extended profile.
ghost use Rattle.std.specs.Prelude.{◌≡◌, ◌≢◌};
ghost use Rattle.s3_requests.specs.Meaning.{KeepsFront, meaning_of};
ghost use Rattle.s3_requests.specs.declared.meant.Meant.TheVariants as variant;
ghost use Rattle.extended.specs.Checked.{checked, extended_meaning};

use crate::claims::claims_of;
use crate::objection::check_meaning;
use crate::{Claims, Sender};
use gate_base::Caller;
use http_wire::Message;
use s3_machine::Settings;
use s3_names::Target;
use s3_requests::{Meant, meaning};
use std::alloc::Global;

/// What a message means, in the extended profile, that this sender sent and that was opened where it came in chunks: what
/// `s3_requests::meaning` finds, unless something stands against that. A body that came in chunks is NotImplemented but for an object
/// or a part. These are InvalidRequest where the trailers aren't those which `x-amz-trailer` names, BadDigest where a checksum in a
/// header or a trailer is another than that of the bytes, and InvalidRequest where it is no checksum of its kind. The body moves into
/// an operation that has one; method and target stay.
pub fn extended_meaning(
    alloc: Global,
    message: &mut Message,
    target: &Target,
    sender: &Sender,
    settings: &Settings,
) -> Meant
    ensures value { result ≢ variant.Memory
        → result ≡ extended_meaning settings.now message.entry.now target.now sender.now }
    ensures keeps { KeepsFront message.entry.now message.exit.now }
{
    match claims_of(alloc, message.headers.as_slice(), sender) {
        Ok(claims) => meaning_by_claims(alloc, message, target, &sender.caller, settings, &claims),
        Err(_) => Meant::Memory,
    }
}

fn meaning_by_claims(
    alloc: Global,
    message: &mut Message,
    target: &Target,
    caller: &Caller,
    settings: &Settings,
    claims: &Claims,
) -> Meant
    ensures value { result ≢ variant.Memory → result ≡ checked claims.now
        (meaning_of settings.now message.entry.now target.now caller.now) }
    ensures keeps { KeepsFront message.entry.now message.exit.now }
{
    let mut means = meaning(alloc, message, target, caller, settings);
    check_meaning(alloc, claims, &mut means);
    means
}
