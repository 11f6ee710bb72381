//! What the files of one replica's disk hold, read when the replica opens: volumes, the newest snapshot and the log.
#![tactic(auto)]

mod claims;
pub mod laws;
pub mod load;
mod log;
mod newest;
mod once;
mod rows;
mod told;
pub mod volumes;

pub use load::Loaded;
pub use rows::append_rows;
pub use snapshot_files::of_fileset_check::is_volume;
pub use snapshot_files::{Snap, is_snapshot};
pub use volumes::OpenVolume;
