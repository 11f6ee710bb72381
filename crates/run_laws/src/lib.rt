//! Laws over what a run promises: broken runs that it refuses. What passed between it and its streams, how far a run got that ended so and why it did, what came
//! of its lines, the state that it left, and the faults that may be causes in it.
#![tactic(auto)]

pub mod ends;
pub mod faults;
pub mod lines;
pub mod scripts;
pub mod states;
pub mod streams;
pub mod written;
