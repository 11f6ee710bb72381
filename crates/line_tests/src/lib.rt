//! Tests of lines: requests as they are read, and replies as they are printed.
#![tactic(auto)]

#[cfg(test)]
mod replies;
#[cfg(test)]
mod requests;
