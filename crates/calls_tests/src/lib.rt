//! Tests of the lists of events that are legal.
#![tactic(auto)]

#[cfg(test)]
mod lists;
#[cfg(test)]
mod scenes;
#[cfg(test)]
mod stories;
