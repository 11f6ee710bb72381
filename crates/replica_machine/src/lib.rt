//! A replica of a shard: how it stands, what it refuses, and the points that it holds on its disk.
#![tactic(auto)]

mod boot;
mod damage;
pub mod laws;
pub mod machine;
mod merging;
mod opening;
mod paging;
mod reading;
mod refusals;
mod upkeep;
pub mod work;

pub use machine::{Began, Machine};
pub use work::Work;

// Of libraries that the rows of crates above need not name: what these crates name of them.
/// Of `cluster_core`.
pub mod of_cluster_core {
    pub use cluster_core::StepCall;
}
/// Of `m3_model`.
pub mod of_m3_model {
    pub use m3_model::{Key, Page, Pick, Point, Reason, Report, Rules, Seq, Series};
}
/// Of `m3_outside`.
pub mod of_m3_outside {
    pub use m3_outside::Disk;
}
/// Of `placement_core`.
pub mod of_placement_core {
    pub use placement_core::counted;
}
/// Of `series_id`.
pub mod of_series_id {
    pub use shard_store::of_series_id::shard_of;
}
