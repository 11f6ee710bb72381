//! Requests as JSON lines, and which of them a cluster serves.
#![tactic(auto)]

mod calls;
mod fates;
mod init;
pub mod laws;
pub mod lines;
mod matches;
mod moment;
mod namespace;
mod nodes;
mod not_yet;
mod placements;
mod upkeep;

pub use lines::read_line;
pub use not_yet::is_served;

pub mod of_json {
    pub use json::Scratch;
}
