ghost use Rattle.std.specs.Prelude.{◌≡◌, true, false, MatchOption, IfOk};
ghost use Rattle.s3_names.specs.Target.{target_of};
ghost use Rattle.sign_cmd.specs.Signing.{has_signing_headers, can_sign, target_read, SignsFor, Signs};

use crate::headers::has_signing_headers;
use crate::names::names_to_sign;
use gate_base::Memory;
use http_wire::Message;
use s3_names::{NameFault, Target};
use sigv4::{Signed, canonical, hash_of, sign, time_of};
use std::alloc::Global;

/// What a request signs to. None exactly where it can't be signed.
pub(crate) fn sign_message(
    alloc: Global,
    secret: &[u8],
    region: &[u8],
    message: &Message,
) -> Result<Option<Signed>, Memory>
    ensures { IfOk result (λ answer. MatchOption answer (can_sign message.now ≡ false)
        (Signs secret.now region.now message.now)) }
{
    if !has_signing_headers(message.headers.as_slice()) {
        return Ok(None);
    }
    match read_target_to_sign(alloc, message.target.as_slice())? {
        Some(target) => Ok(Some(sign_for(alloc, secret, region, message, &target)?)),
        None => Ok(None),
    }
}

/// The target, where the text is one.
fn read_target_to_sign(alloc: Global, text: &[u8]) -> Result<Option<Target>, Memory>
    ensures { IfOk result (λ read. read ≡ target_read (target_of text.now)) }
{
    match Target::read(alloc, text) {
        Ok(target) => Ok(Some(target)),
        Err(NameFault::Memory) => Err(Memory),
        Err(_) => Ok(None),
    }
}

/// What a request of this target signs to.
fn sign_for(
    alloc: Global,
    secret: &[u8],
    region: &[u8],
    message: &Message,
    target: &Target,
) -> Result<Signed, Memory>
    requires { has_signing_headers message.now.headers ≡ true }
    ensures { IfOk result (SignsFor secret.now region.now message.now target.now) }
{
    let headers = message.headers.as_slice();
    let names = names_to_sign(alloc, headers)?;
    let text = canonical(alloc, message, target, names.as_slice(), hash_of(headers))?;
    sign(alloc, secret, time_of(headers), region, text.as_slice())
}
