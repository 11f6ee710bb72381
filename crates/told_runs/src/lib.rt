//! Where a legal list of events tells of a run, each of its answers is what it is for a cause.
#![tactic(auto)]

pub mod laws;
pub mod lines;

pub use lines::{
    broken_lines_are_refused, broken_sides_are_refused, lines_serve, served_line_by_line,
    steps_serve,
};
