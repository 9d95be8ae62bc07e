ghost use Rattle.std.specs.Prelude.{◌≡◌};
ghost use Rattle.sign_cmd.specs.Signing.{has_signing_headers};

use gate_base::Pair;
use http_wire::has_single_header;
use sigv4::{is_date_time, time_of};

/// Whether exactly one header is the date, of its form, and exactly one the hash of the payload.
pub(crate) fn has_signing_headers(headers: &[Pair]) -> bool
    ensures { result ≡ has_signing_headers headers.now }
{
    has_single_header(headers, b"x-amz-date")
        && is_date_time(time_of(headers))
        && has_single_header(headers, b"x-amz-content-sha256")
}
