//! Plans that begin moves: which placement a request to add, drain or replace a node leads to, and when there is none.
#![tactic(auto)]

pub mod addition;
pub mod drainage;
pub mod replacement;

pub use addition::add;
pub use drainage::drain;
pub use replacement::replace;
