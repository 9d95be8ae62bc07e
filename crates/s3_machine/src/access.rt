//! Who may read what stands in a bucket.
ghost use Rattle.std.specs.Prelude.{◌≡◌};
ghost use Rattle.s3_machine.specs.Step.{may_read, is_other_acl};

use gate_base::Caller;
use s3_names::Acl;

/// Whether an access control list was given that isn't the bucket's.
pub fn is_other_acl(given: Option<Acl>, acl: Acl) -> bool
    ensures { result ≡ is_other_acl given acl }
{
    match (given, acl) {
        (None, _) | (Some(Acl::Private), Acl::Private) => false,
        (Some(Acl::PublicRead), Acl::PublicRead) => false,
        (Some(Acl::Private), Acl::PublicRead) | (Some(Acl::PublicRead), Acl::Private) => true,
    }
}

/// Whether one who asks may read what stands in a bucket.
pub fn may_read(caller: Caller, acl: Acl) -> bool
    ensures { result ≡ may_read caller acl }
{
    match (caller, acl) {
        (Caller::Owner | Caller::Reader, _) | (Caller::Anonymous, Acl::PublicRead) => true,
        (Caller::Anonymous, Acl::Private) => false,
    }
}
