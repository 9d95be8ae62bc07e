//! The error codes: their names, statuses and messages (Amazon S3 API Reference, "Error responses"; the messages
//! are this profile's).
ghost use Rattle.std.specs.Prelude.{◌≡◌};
ghost use Rattle.s3_pages.specs.Codes.{message_of, name_of, status_of, unset_message, unset_name};

use s3_machine::{Code, UnsetCode};

/// The status of a refusal (RFC 9110, section 15).
pub fn status(code: Code) -> u16
    ensures { result ≡ status_of code }
{
    match code {
        Code::AccessControlListNotSupported => 400,
        Code::AccessDenied => 403,
        Code::AuthorizationHeaderMalformed => 400,
        Code::AuthorizationQueryParametersError => 400,
        Code::BadDigest => 400,
        Code::BucketAlreadyOwnedByYou => 409,
        Code::BucketNotEmpty => 409,
        Code::ChecksumDiffers => 400,
        Code::EntityTooLarge => 400,
        Code::EntityTooSmall => 400,
        Code::IncompleteBody => 400,
        Code::InconsistentStore => 500,
        Code::InvalidAccessKeyId => 403,
        Code::InvalidArgument => 400,
        Code::InvalidBucketName => 400,
        Code::InvalidChunkSizeError => 403,
        Code::InvalidDigest => 400,
        Code::InvalidPart => 400,
        Code::InvalidPartNumber => 416,
        Code::InvalidPartOrder => 400,
        Code::InvalidRange(_) => 416,
        Code::InvalidRequest => 400,
        Code::InvalidStorageClass => 400,
        Code::InvalidToken => 400,
        Code::InvalidURI => 400,
        Code::KeyTooLongError => 400,
        Code::MalformedXML => 400,
        Code::MetadataTooLarge => 400,
        Code::MethodNotAllowed => 405,
        Code::MissingContentLength => 411,
        Code::NoSuchBucket => 404,
        Code::NoSuchKey => 404,
        Code::NoSuchUpload => 404,
        Code::NotImplemented => 501,
        Code::NotSet(_) => 404,
        Code::OnlyVersionFour => 400,
        Code::PreconditionFailed => 412,
        Code::RequestExpired => 403,
        Code::RequestTimeTooSkewed => 403,
        Code::RequestTimeout => 400,
        Code::ServiceUnavailable => 503,
        Code::SignatureDoesNotMatch => 403,
        Code::XAmzContentSHA256Mismatch => 400,
    }
}

/// The text of the `Code` element.
pub fn name(code: Code) -> &'static [u8]
    ensures { result.now ≡ name_of code }
{
    match code {
        Code::AccessControlListNotSupported => b"AccessControlListNotSupported",
        Code::AccessDenied => b"AccessDenied",
        Code::AuthorizationHeaderMalformed => b"AuthorizationHeaderMalformed",
        Code::AuthorizationQueryParametersError => b"AuthorizationQueryParametersError",
        Code::BadDigest => b"BadDigest",
        Code::BucketAlreadyOwnedByYou => b"BucketAlreadyOwnedByYou",
        Code::BucketNotEmpty => b"BucketNotEmpty",
        Code::ChecksumDiffers => b"BadDigest",
        Code::EntityTooLarge => b"EntityTooLarge",
        Code::EntityTooSmall => b"EntityTooSmall",
        Code::IncompleteBody => b"IncompleteBody",
        Code::InconsistentStore => b"InconsistentStore",
        Code::InvalidAccessKeyId => b"InvalidAccessKeyId",
        Code::InvalidArgument => b"InvalidArgument",
        Code::InvalidBucketName => b"InvalidBucketName",
        Code::InvalidChunkSizeError => b"InvalidChunkSizeError",
        Code::InvalidDigest => b"InvalidDigest",
        Code::InvalidPart => b"InvalidPart",
        Code::InvalidPartNumber => b"InvalidPartNumber",
        Code::InvalidPartOrder => b"InvalidPartOrder",
        Code::InvalidRange(_) => b"InvalidRange",
        Code::InvalidRequest => b"InvalidRequest",
        Code::InvalidStorageClass => b"InvalidStorageClass",
        Code::InvalidToken => b"InvalidToken",
        Code::InvalidURI => b"InvalidURI",
        Code::KeyTooLongError => b"KeyTooLongError",
        Code::MalformedXML => b"MalformedXML",
        Code::MetadataTooLarge => b"MetadataTooLarge",
        Code::MethodNotAllowed => b"MethodNotAllowed",
        Code::MissingContentLength => b"MissingContentLength",
        Code::NoSuchBucket => b"NoSuchBucket",
        Code::NoSuchKey => b"NoSuchKey",
        Code::NoSuchUpload => b"NoSuchUpload",
        Code::NotImplemented => b"NotImplemented",
        Code::NotSet(code) => unset_name(code),
        Code::OnlyVersionFour => b"InvalidRequest",
        Code::PreconditionFailed => b"PreconditionFailed",
        Code::RequestExpired => b"AccessDenied",
        Code::RequestTimeTooSkewed => b"RequestTimeTooSkewed",
        Code::RequestTimeout => b"RequestTimeout",
        Code::ServiceUnavailable => b"ServiceUnavailable",
        Code::SignatureDoesNotMatch => b"SignatureDoesNotMatch",
        Code::XAmzContentSHA256Mismatch => b"XAmzContentSHA256Mismatch",
    }
}

/// The text of the `Message` element.
pub fn message(code: Code) -> &'static [u8]
    ensures { result.now ≡ message_of code }
{
    match code {
        Code::AccessControlListNotSupported => b"An object has the list of its bucket.",
        Code::AccessDenied => b"Access denied.",
        Code::AuthorizationHeaderMalformed => b"The authorization header is malformed.",
        Code::AuthorizationQueryParametersError => {
            b"The query's signature parameters are malformed."
        }
        Code::BadDigest => b"The Content-MD5 differs from the body.",
        Code::BucketAlreadyOwnedByYou => b"You own this bucket already.",
        Code::BucketNotEmpty => b"The bucket is not empty.",
        Code::ChecksumDiffers => b"A checksum differs from the body.",
        Code::EntityTooLarge => b"The body is too large.",
        Code::EntityTooSmall => b"A part is too small.",
        Code::IncompleteBody => b"The body is incomplete.",
        Code::InconsistentStore => b"The store is inconsistent.",
        Code::InvalidAccessKeyId => b"The access key is unknown.",
        Code::InvalidArgument => b"An argument is invalid.",
        Code::InvalidBucketName => b"The bucket name is invalid.",
        Code::InvalidChunkSizeError => b"A chunk is too small.",
        Code::InvalidDigest => b"The Content-MD5 is invalid.",
        Code::InvalidPart => b"A part is missing or differs.",
        Code::InvalidPartNumber => b"The object has no part of this number.",
        Code::InvalidPartOrder => b"The parts are not in ascending order.",
        Code::InvalidRange(_) => b"The range is not satisfiable.",
        Code::InvalidRequest => b"The request is invalid.",
        Code::InvalidStorageClass => b"The storage class is invalid.",
        Code::InvalidToken => b"A security token is not valid here.",
        Code::InvalidURI => b"The URI is invalid.",
        Code::KeyTooLongError => b"The key is too long.",
        Code::MalformedXML => b"The body is malformed.",
        Code::MetadataTooLarge => b"The metadata is too large.",
        Code::MethodNotAllowed => b"The method is not allowed here.",
        Code::MissingContentLength => b"Content-Length is missing.",
        Code::NoSuchBucket => b"The bucket does not exist.",
        Code::NoSuchKey => b"The key does not exist.",
        Code::NoSuchUpload => b"The upload does not exist.",
        Code::NotImplemented => b"This is not implemented.",
        Code::NotSet(code) => unset_message(code),
        Code::OnlyVersionFour =>
            b"The authorization mechanism you have provided is not supported. Please use AWS4-HMAC-SHA256.",
        Code::PreconditionFailed => b"A precondition failed.",
        Code::RequestExpired => b"Request has expired",
        Code::RequestTimeTooSkewed => b"The request time is too far off.",
        Code::RequestTimeout => b"The body came too slowly.",
        Code::ServiceUnavailable => b"The store is unavailable.",
        Code::SignatureDoesNotMatch => b"The signature does not match.",
        Code::XAmzContentSHA256Mismatch => b"The payload hash differs from the body.",
    }
}

fn unset_name(code: UnsetCode) -> &'static [u8]
    ensures { result.now ≡ unset_name code }
{
    match code {
        UnsetCode::NoSuchBucketPolicy => b"NoSuchBucketPolicy",
        UnsetCode::NoSuchCORSConfiguration => b"NoSuchCORSConfiguration",
        UnsetCode::NoSuchLifecycleConfiguration => b"NoSuchLifecycleConfiguration",
        UnsetCode::ServerSideEncryptionConfigurationNotFoundError =>
            b"ServerSideEncryptionConfigurationNotFoundError",
        UnsetCode::NoSuchTagSet => b"NoSuchTagSet",
        UnsetCode::NoSuchWebsiteConfiguration => b"NoSuchWebsiteConfiguration",
        UnsetCode::ReplicationConfigurationNotFoundError =>
            b"ReplicationConfigurationNotFoundError",
        UnsetCode::NoSuchPublicAccessBlockConfiguration => b"NoSuchPublicAccessBlockConfiguration",
        UnsetCode::ObjectLockConfigurationNotFoundError => b"ObjectLockConfigurationNotFoundError",
        UnsetCode::OwnershipControlsNotFoundError => b"OwnershipControlsNotFoundError",
        UnsetCode::NoSuchObjectLockConfiguration => b"NoSuchObjectLockConfiguration",
    }
}

fn unset_message(code: UnsetCode) -> &'static [u8]
    ensures { result.now ≡ unset_message code }
{
    match code {
        UnsetCode::NoSuchBucketPolicy => b"The bucket has no policy.",
        UnsetCode::NoSuchCORSConfiguration => b"The bucket has no CORS configuration.",
        UnsetCode::NoSuchLifecycleConfiguration => b"The bucket has no lifecycle.",
        UnsetCode::ServerSideEncryptionConfigurationNotFoundError =>
            b"The bucket has no encryption configuration.",
        UnsetCode::NoSuchTagSet => b"The bucket has no tags.",
        UnsetCode::NoSuchWebsiteConfiguration => b"The bucket has no website configuration.",
        UnsetCode::ReplicationConfigurationNotFoundError => b"The bucket has no replication.",
        UnsetCode::NoSuchPublicAccessBlockConfiguration =>
            b"The bucket has no public access block.",
        UnsetCode::ObjectLockConfigurationNotFoundError => b"The bucket has no object lock.",
        UnsetCode::OwnershipControlsNotFoundError => b"The bucket has no ownership controls.",
        UnsetCode::NoSuchObjectLockConfiguration => b"The object has no lock.",
    }
}
