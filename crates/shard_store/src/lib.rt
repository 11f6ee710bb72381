//! One replica's points of one shard, on its disk and in memory.
#![tactic(auto)]

mod fetch;
mod flush;
mod merging;
mod moments;
mod opened;
mod page;
mod settle;
mod snapshot;
pub mod store;
mod tick;
mod volumes;

pub use shard_open::Loaded;
pub use store::Store;

// Of libraries that the rows of crates above need not name: what these crates name of them.
/// Of `fileset_read`.
pub mod of_fileset_read {
    pub use store_log::of_fileset_read::FileErr;
}
/// Of `series_id`.
pub mod of_series_id {
    pub use store_log::of_series_id::shard_of;
}
/// Of `shard_files`.
pub mod of_shard_files {
    pub use store_log::of_shard_files::LoadErr;
}
