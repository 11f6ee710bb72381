//! Work on postings and matchers: what two ascending lists share (`both`, or `intersection`), what one has alone (`minus`, or
//! `difference`), and whether tags meet matchers.
//!
//! A posting is the list of the ordinals of some series, ascending. Both calls on postings cost time in proportion to
//! the two lengths together. To try matchers costs time in proportion to the number of tags times that of matchers.
#![tactic(auto)]

mod matchers;
mod postings;

pub use matchers::holds;
pub use postings::{both, both as intersection, minus, minus as difference};
