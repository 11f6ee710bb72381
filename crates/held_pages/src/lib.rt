//! Pages of points in memory: the first points above a key, found one after the other from there on, and the page of them and of
//! others; and the points of a page joined to those in memory.
#![tactic(auto)]

mod joining;
pub mod rising;
mod walk;

pub use joining::page_of_both;
pub use rising::{Rise, hold_new, is_above, raise_all, rise_of};
pub use walk::first_held;
