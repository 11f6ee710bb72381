//! An index of series by their tags: each present series has an ordinal, and a tag has the posting of the ordinals of the
//! series with it.
//!
//! Ordinals of removed series are used again. A series is found by its identifier and a posting by its tag in constant
//! expected time, and a series by its ordinal in constant time. A posting costs in proportion to its length; adding and
//! removing a series cost the logarithm of its length for each tag.
#![tactic(auto)]

mod entry;
mod index;
pub mod laws;

pub use index::Index;
