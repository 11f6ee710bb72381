//! What a placement is, who serves a shard in it, and laws of the steps from one to another.
#![tactic(auto)]

pub mod ascending;
pub mod lawful;
pub mod laws;
mod names;
pub mod replicas;

pub use ascending::{Order, ascend};
pub use lawful::is_lawful;
pub use replicas::{counted, former, members};

// Of libraries that the rows of crates above need not name: what these crates name of them.
/// Of `m3_model`.
pub mod of_m3_model {
    pub use m3_model::{
        Assignment, Duplicate, Instance, Key, Memory, Page, Pick, Placement, Point, Reason, Report,
        Rules, Seq, Series, ShardState, Text, limits, memory,
    };
}
