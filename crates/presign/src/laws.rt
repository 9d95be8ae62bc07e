//! The laws of the definitions: each is the contract of a function that does nothing.
ghost use Rattle.presign.specs.Laws.{TakenExactly, MadeIsTaken, MadeIsRead};

/// A presigned request is the owner's exactly where one of the keys signed it for this region, every header that had to be
/// signed was, its body doesn't come in signed pieces, and the moment lies between 900 seconds before the time of the signature
/// and the end of the seconds that it holds for.
pub fn law_taken_exactly()
    ensures { TakenExactly }
{}

/// A URL that is made with a key of the service, and read, is presigned. Its request is the owner's exactly from 900 seconds
/// before the moment of the URL to the end of the seconds that it is good for, where it has the method and the `host` that were
/// signed, no Authorization header, and no `x-amz-*` header but the hash of a body that doesn't come in signed pieces.
pub fn law_made_is_taken()
    ensures { MadeIsTaken }
{}

/// A URL that is made is read, as a target of the path, the bucket and the key that it was made for, and of the same parameters
/// in some order besides the six of a signature; where that bucket has no slash.
pub fn law_made_is_read()
    ensures { MadeIsRead }
{}
