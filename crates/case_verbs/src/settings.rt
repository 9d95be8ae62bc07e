//! The settings of the service by which requests are understood.
use case_text::{Told, copy_of_bytes};
use s3_machine::Settings;
use std::alloc::Global;

/// The region, where the words give none.
pub const USUAL_REGION: &[u8] = b"us-east-1";

/// The least size of a part that isn't the last, where the words give none: 5 MiB.
pub const USUAL_LEAST_PART: u64 = 5_242_880;

/// The most bytes of a body, where the words give none: 16 MiB.
pub const USUAL_LARGEST_BODY: u64 = 16_777_216;

/// The settings of a region, of these sizes, extended or not.
pub fn settings_of_region(
    alloc: Global,
    region: &[u8],
    least_part: u64,
    largest_body: u64,
    extended: bool,
    told: &mut Told,
) -> Option<Settings> {
    let region = copy_of_bytes(alloc, region, told);
    Some(Settings {
        extended,
        ..Settings::strict(region, least_part, largest_body)
    })
}
