//! Tests of a log on a disk in memory, which meets each stop of it, of the entries in it, and of the points that a replica holds.
#![tactic(auto)]

#[cfg(test)]
mod logs;
#[cfg(test)]
mod points;
