//! Tests of what is outside: streams in memory and of the program, disks in memory, and names of files on the host.
#![tactic(auto)]

#[cfg(test)]
mod disks;
#[cfg(test)]
mod names;
#[cfg(test)]
mod program_streams;
#[cfg(test)]
mod streams;
