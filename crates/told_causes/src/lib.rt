//! Where a legal list of events tells of a run, refusals have their causes.
#![tactic(auto)]

pub mod calls;
pub mod deliveries;
pub mod faults;
pub mod nodes;
pub mod peers;
pub mod standing;
pub mod sweeps;

pub use calls::{acks_are_said, levels_are_said, read_is_known, reasons_are_said};
pub use deliveries::outcomes_are_said;
pub use faults::{faults_are_steps, faults_are_told_once};
pub use nodes::node_answers_are_said;
pub use peers::peers_are_said;
pub use standing::{boot_has_cause, down_has_cause, not_begun_is_heard, who_serves_runs};
pub use sweeps::sweeps_are_said;
