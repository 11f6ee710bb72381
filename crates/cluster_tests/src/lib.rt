//! Tests of the calls of clients and of replicas, over a cluster that stands.
#![tactic(auto)]

#[cfg(test)]
mod clients;
#[cfg(test)]
mod replicas;
#[cfg(test)]
mod sessions;
