//! What a list of events is decided with: which points match, cover and have expired, whether lists ascend, and what stands
//! earlier.
#![tactic(auto)]

pub mod ascending;
pub mod earlier;
pub mod points;

pub use ascending::{ByKey, Distinct, is_below, is_ordered};
pub use earlier::{has_clock, has_page, has_send, has_tenure, shard_of};
pub use points::{
    covers, has_expired, has_passed, has_point, in_window, is_gone, is_wanted, matches, points_in,
    space_picked,
};
