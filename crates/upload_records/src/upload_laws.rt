//! Laws on uploads, each the contract of a function that does nothing: on their records and segments, on the containers beside a
//! bucket, on objects that list segments, and on a completion that is sealed in the gateway's own container.
ghost use Rattle.upload_records.specs.Laws.{CompletedStands, CompletionSealed, FilePut, GatewayMade, ListingFound, ListingStands, ObjectListed, ObjectProper, ObjectRolled, OrphanGone, OrphanListed, OrphanPut, PartPut, RecordRolled, SealGone, SideFileGone, SideMade, SubRolled, UnusedIsAbandoned, UploadAbandoned, UploadDropped, UploadOpened, WordPut};

/// Where no completion is sealed, the PUT of a part's file under an upload that is open puts the part in place of the one
/// of its number; it leaves the account consistent, and the gateway's own container as it was.
pub fn law_part_put()
    ensures { PartPut }
{}

/// Where no completion is sealed, the PUT of an open record under an id under which nothing stands opens the upload,
/// without parts; it leaves the account consistent, and the gateway's own container as it was.
pub fn law_upload_opened()
    ensures { UploadOpened }
{}

/// Where no completion is sealed, the DELETE of an open record drops the upload; it leaves the account consistent, and the
/// gateway's own container as it was.
pub fn law_upload_dropped()
    ensures { UploadDropped }
{}

/// Where no completion is sealed, the DELETE of an open record leaves segments that nothing names.
pub fn law_upload_abandoned()
    ensures { UploadAbandoned }
{}

/// Where no completion is sealed, the PUT of a container beside a bucket leaves the state and the files, be the container there
/// or not; it is there after it.
pub fn law_side_made()
    ensures { SideMade }
{}

/// Where no completion is sealed, the DELETE of a file beside a bucket that is missing leaves the state, and the bucket missing.
pub fn law_side_file_gone()
    ensures { SideFileGone }
{}

/// Where no completion is sealed, the DELETE of a segment of an upload that nothing names leaves the state, and the other
/// segments of the upload as such.
pub fn law_orphan_gone()
    ensures { OrphanGone }
{}

/// Where no completion is sealed, the PUT of a part's file under an id that nothing names leaves the state, and the segments of
/// the id as such.
pub fn law_orphan_put()
    ensures { OrphanPut }
{}

/// Where no completion is sealed, the PUT of a sub-manifest under an id that nothing names leaves the state, and the segments of
/// the id as such.
pub fn law_orphan_listed()
    ensures { OrphanListed }
{}

/// While a completion is sealed, the PUT of one of its sub-manifests leaves the state, and what is sealed.
pub fn law_sub_rolled()
    ensures { SubRolled }
{}

/// Nothing names the segments of an id under which nothing stands.
pub fn law_unused_is_abandoned()
    ensures { UnusedIsAbandoned }
{}

/// Where no completion is sealed, the PUT of a file that is an object of a bucket, of whose list no upload is open, puts the object
/// that it represents; it leaves the account consistent, and the gateway's own container as it was.
pub fn law_file_put()
    ensures { FilePut }
{}

/// Over a consistent account each object may be put again: it keeps the limits of what is put.
pub fn law_object_proper()
    ensures { ObjectProper }
{}

/// Over a consistent account the segments that the file of an object lists are parts of one id, and in a row its bytes.
pub fn law_object_listed()
    ensures { ObjectListed }
{}

/// Over a consistent account the file of an object with an ETag of parts lists segments, unless the object is empty.
pub fn law_listing_found()
    ensures { ListingFound }
{}

/// The PUT of the gateway's own container leaves the state, be the container there or not, and be a completion sealed or not.
pub fn law_gateway_made()
    ensures { GatewayMade }
{}

/// Where no completion is sealed, the PUT of one into the gateway's own container, fresh or not, finishes it in the state, though its
/// object isn't put yet; it leaves the account consistent.
pub fn law_completion_sealed()
    ensures { CompletionSealed }
{}

/// While a completion is sealed, the PUT of its object leaves the state and the account consistent, and what is sealed as it was.
pub fn law_object_rolled()
    ensures { ObjectRolled }
{}

/// While a completion is sealed, the PUT of its record leaves the state and the account consistent, and what is sealed as it was.
pub fn law_record_rolled()
    ensures { RecordRolled }
{}

/// The DELETE of the file of a sealed completion, whose object and record are there, leaves the state and the account
/// consistent; none is sealed after it.
pub fn law_seal_gone()
    ensures { SealGone }
{}

/// The PUT of the word of the program that writes into the gateway's own container leaves the account consistent, the state and what
/// is sealed.
pub fn law_word_put()
    ensures { WordPut }
{}

/// The parts that a sealed completion lists, but the empty ones, make a list of segments of its id, whose bytes are those of
/// its object.
pub fn law_listing_stands()
    ensures { ListingStands }
{}

/// The file that rolling a sealed completion forward puts is the object of the completion, where its tag and its metadata have
/// a text and its parts are there.
pub fn law_completed_stands()
    ensures { CompletedStands }
{}
