//! A law of what requests mean, as the contract of a function that does nothing.
ghost use Rattle.s3_requests.specs.Laws.{StrictAsked};

/// Without the extended profile no request asks for a copy under a condition, or for a listing of uploads with escaped texts.
pub fn law_strict_asked()
    ensures { StrictAsked }
{}
