//! What stands in replies and is named by a placement: nodes, reasons, series, placements, outcomes, repairs and statuses.
#![tactic(auto)]

pub mod fields;
pub mod json;
pub mod names;
mod outcomes;
mod placement;
mod reason;
mod repair;
mod series;
mod status;

pub use fields::{put_item, put_list};
pub use json::{ToJson, list_value};
pub use names::{instances_of, node_name};
