//! Tests of the parts over the model, and of the core: their calls on worked rows, whose answers came from elsewhere.
#![tactic(auto)]

#[cfg(test)]
mod buffers;
#[cfg(test)]
mod entries;
#[cfg(test)]
mod fates;
#[cfg(test)]
mod levels;
#[cfg(test)]
mod merges;
#[cfg(test)]
mod replicas;
