//! Which lists of events are legal, decided.
#![tactic(auto)]

pub mod legal;

pub use legal::any_legal;
