//! Tests of the bytes of a cluster's state, and of the log of the meta disk: its runs, each stop of it, and damage of it.
#![tactic(auto)]

#[cfg(test)]
mod acts;
#[cfg(test)]
mod damages;
#[cfg(test)]
mod runs;
#[cfg(test)]
mod small_state;
#[cfg(test)]
mod states;
#[cfg(test)]
mod stops;
#[cfg(test)]
mod stories;
