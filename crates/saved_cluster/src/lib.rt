//! A cluster whose state is kept on the meta disk: a line that changes it is answered once the state that it leaves is saved.
#![tactic(auto)]

pub mod lost;
mod open;
pub mod saved;

pub use lost::Lost;
pub use saved::SavedCluster;
