//! The URL of a request: whether it can be presigned, by its host and by a target that has no parameter of a signature, and the URL.
ghost use Rattle.std.specs.Prelude.{◌≡◌, false, MatchOption, IfOk};
ghost use Rattle.s3_names.specs.Target.{target_of};
ghost use Rattle.presign.specs.Url.{IsPresigned, IsSigner, has_signature_name};
ghost use Rattle.presign_cmd.specs.Presigning.{can_presign, has_host, target_to_presign, Presigns};

use gate_base::{Bytes, Memory};
use http_wire::{Message, has_single_header};
use presign::{UrlSigner, has_signature_name, presign};
use s3_names::{NameFault, Target};
use std::alloc::Global;

/// The URL of a request. None exactly where it can't be presigned.
pub(crate) fn presign_message(
    alloc: Global,
    signer: &UrlSigner<'_>,
    message: &Message,
) -> Result<Option<Bytes>, Memory>
    requires signer { IsSigner signer.now.secret.now signer.now.id.now signer.now.region.now
        signer.now.moment signer.now.expires }
    ensures { IfOk result (λ answer. MatchOption answer (can_presign message.now ≡ false)
        (Presigns signer.now.secret.now signer.now.id.now signer.now.region.now signer.now.moment
        signer.now.expires message.now)) }
{
    if !has_host(message) {
        return Ok(None);
    }
    match target_to_presign(alloc, message.target.as_slice())? {
        Some(target) => Ok(Some(presign(alloc, signer, message, &target)?)),
        None => Ok(None),
    }
}

/// Whether exactly one header is `host`.
fn has_host(message: &Message) -> bool
    ensures { result ≡ has_host message.now }
{
    has_single_header(message.headers.as_slice(), b"host")
}

/// The target, where the text is one and its query has none of the names of a signature.
fn target_to_presign(alloc: Global, text: &[u8]) -> Result<Option<Target>, Memory>
    ensures { IfOk result (λ read. read ≡ target_to_presign (target_of text.now)) }
{
    match Target::read(alloc, text) {
        Ok(target) => Ok(target_if_unsigned(target)),
        Err(NameFault::Memory) => Err(Memory),
        Err(_) => Ok(None),
    }
}

fn target_if_unsigned(target: Target) -> Option<Target>
    ensures { result ≡ target_to_presign (Ok target) }
{
    if has_signature_name(&target) {
        None
    } else {
        Some(target)
    }
}
