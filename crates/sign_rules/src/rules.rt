//! Which headers have to be signed, and which scope a credential has to have (Amazon S3 API Reference, "Authenticating requests:
//! using the Authorization header").
ghost use Rattle.std.specs.Prelude.{◌≡◌};
ghost use Rattle.sign_rules.specs.Rules.{is_of_scope, must_be_signed};

/// Whether a credential of this region and service is one for a region, and for the service `s3`.
pub fn is_of_scope(region: &[u8], named: &[u8], service: &[u8]) -> bool
    ensures { result ≡ is_of_scope region.now named.now service.now }
{
    named == region && service == b"s3".as_slice()
}

/// Whether a header of this name, in lower case, has to be signed where it is there: `host` and each `x-amz-*`.
pub fn must_be_signed(name: &[u8]) -> bool
    ensures { result ≡ must_be_signed name.now }
{
    name == b"host".as_slice() || name.starts_with(b"x-amz-")
}
