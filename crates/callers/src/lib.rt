//! How five of the libraries are called, each by a small function whose contract comes from the clauses of the library.
#![tactic(auto)]

mod chunks;
mod failures;
mod moves;
mod points;
mod series;

pub use chunks::keep_chunk;
pub use failures::ask_twice;
pub use moves::end_moves;
pub use points::put_point;
pub use series::add_and_find;
