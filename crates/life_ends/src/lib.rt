//! What a run leaves to the next one: over files that stand for a life it opens with what they hold, and what stops leave of its
//! files stands for the life with it. Said of the run's list of events and of each slot's machine.
#![tactic(auto)]

pub mod laws;

pub use laws::{
    last_turn_may_be_open, machines_leave_slots, runs_leave_standing, tenures_stay_low,
};
