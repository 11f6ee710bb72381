//! The first points of a content above a key, in the order of keys: of two contents joined, of rows, and the page of them.
#![tactic(auto)]

mod bounds;
mod listed;
mod merging;
mod paging;
mod rows;

pub use listed::first_of_points;
pub use merging::first_of_both;
pub use paging::page_of_first;
pub use rows::first_of_rows;
