//! Random scripts over a cluster that stands, beside a double of its replicas that keeps each event: the lists are legal.
#![tactic(auto)]

#[cfg(test)]
mod lists;
