//! What stands in files beside the tables of a database: larger bodies, one in each file of a folder, the number of the last
//! commit, and a test of the log.
#![tactic(auto)]

mod beside;
mod fault;
mod folder;
mod log;
mod names;
mod number;
mod settling;
mod sums;

pub use beside::{Beside, path_beside, test_log_beside};
pub use fault::BodyFault;
pub use folder::{BodyFolder, Place};
pub use number::NumberFile;
pub use settling::{Settled, settle};
