//! Arrays of a request line's JSON object: nodes, matchers and fates.
#![tactic(auto)]

pub mod fates;
mod lists;
pub mod matchers;
pub mod nodes;

pub use fates::fates_at;
pub use matchers::matchers_at;
pub use nodes::nodes_at;
