//! One call of one replica's machine: an Ask and a step on the list of a run's events.
#![tactic(auto)]

mod call_err;
pub mod call_id;
pub mod exchange;
pub mod member;
mod parts;
pub mod slot;

pub use call_err::CallErr;
pub use call_id::CallId;
pub use exchange::{
    boot_on, end_on, fence_on, flush_on, merge_on, page_on, put_on, read_on, report_on, restart_on,
    snapshot_on, stop_on, tick_on,
};
pub use member::Member;
pub use replica_machine::Machine;
pub use slot::Slot;

// Of libraries that the rows of crates above need not name: what these crates name of them.
/// Of `event_trail`.
pub mod of_event_trail {
    pub use event_trail::{EventView, Trail, tell_apart};
}
/// Of `m3_model`.
pub mod of_m3_model {
    pub use replica_machine::of_m3_model::{
        Key, Page, Pick, Point, Reason, Report, Rules, Seq, Series,
    };
}
/// Of `m3_outside`.
pub mod of_m3_outside {
    pub use replica_machine::of_m3_outside::Disk;
}
/// Of `placement_core`.
pub mod of_placement_core {
    pub use replica_machine::of_placement_core::counted;
}
/// Of `replica_machine`.
pub mod of_replica_machine {
    pub use replica_machine::{Began, Machine};
}
/// Of `series_id`.
pub mod of_series_id {
    pub use replica_machine::of_series_id::shard_of;
}
