use crate::Limits;
use gate_base::{Copying, Memory};

/// The codes that say that a setting isn't set (Amazon S3 API Reference, "Error responses").
#[derive(Clone, Copy, Debug, PartialEq, Eq)]
pub enum UnsetCode {
    NoSuchBucketPolicy,
    NoSuchCORSConfiguration,
    NoSuchLifecycleConfiguration,
    ServerSideEncryptionConfigurationNotFoundError,
    NoSuchTagSet,
    NoSuchWebsiteConfiguration,
    ReplicationConfigurationNotFoundError,
    NoSuchPublicAccessBlockConfiguration,
    ObjectLockConfigurationNotFoundError,
    OwnershipControlsNotFoundError,
    NoSuchObjectLockConfiguration,
}

/// The error codes (Amazon S3 API Reference, "Error responses"). `InconsistentStore` is this profile's own. `InvalidRange` has the
/// size in bytes of an object that is read, and none of one that is copied. Three are shown by the name of another, with a sentence
/// of their own: `ChecksumDiffers` as BadDigest, `OnlyVersionFour` as InvalidRequest and `RequestExpired` as AccessDenied.
#[derive(Clone, Copy, Debug, PartialEq, Eq)]
pub enum Code {
    AccessControlListNotSupported,
    AccessDenied,
    AuthorizationHeaderMalformed,
    AuthorizationQueryParametersError,
    BadDigest,
    BucketAlreadyOwnedByYou,
    BucketNotEmpty,
    ChecksumDiffers,
    EntityTooLarge,
    EntityTooSmall,
    IncompleteBody,
    InconsistentStore,
    InvalidAccessKeyId,
    InvalidArgument,
    InvalidBucketName,
    InvalidChunkSizeError,
    InvalidDigest,
    InvalidPart,
    InvalidPartNumber,
    InvalidPartOrder,
    InvalidRange(Option<u64>),
    InvalidRequest,
    InvalidStorageClass,
    InvalidToken,
    InvalidURI,
    KeyTooLongError,
    MalformedXML,
    MetadataTooLarge,
    MethodNotAllowed,
    MissingContentLength,
    NoSuchBucket,
    NoSuchKey,
    NoSuchUpload,
    NotImplemented,
    NotSet(UnsetCode),
    OnlyVersionFour,
    PreconditionFailed,
    RequestExpired,
    RequestTimeTooSkewed,
    RequestTimeout,
    ServiceUnavailable,
    SignatureDoesNotMatch,
    XAmzContentSHA256Mismatch,
}

impl Limits for Code {
    ghost use Rattle.s3_machine.specs.Proper.{IsProperCode};

    ghost Fits = { λ code. IsProperCode code };
}

impl Copying for Code {
    fn copy(&self) -> Result<Code, Memory> {
        Ok(*self)
    }
}
