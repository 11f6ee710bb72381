//! Lines that make a placement, on a cluster that stands: its next placement with the replicas that this adds.
#![tactic(auto)]

pub mod change;
pub mod events;
pub mod flags;
pub mod lending;
pub mod plan;
pub mod slots;
pub mod untaken;

pub use change::make_change;
pub use events::end_all;
pub use flags::with_nodes;
pub use lending::gain;
pub use plan::{Change, plan_change};
pub use slots::slots_of;
pub use untaken::Untaken;
