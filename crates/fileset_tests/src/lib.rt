//! Tests of volumes on a disk in memory: what is written is read, whatever the disk does meanwhile, and damage is told.
#![tactic(auto)]

#[cfg(test)]
mod acts;
#[cfg(test)]
mod damages;
#[cfg(test)]
mod joins;
#[cfg(test)]
mod stops;
#[cfg(test)]
mod stories;
#[cfg(test)]
mod tells;
#[cfg(test)]
mod words;
