//! Tests of snapshots on a disk in memory: what is saved is read, whatever the disk does meanwhile, and damage is told.
#![tactic(auto)]

#[cfg(test)]
mod acts;
#[cfg(test)]
mod damages;
#[cfg(test)]
mod stops;
#[cfg(test)]
mod stories;
#[cfg(test)]
mod tells;
