//! Tests of what words ask for.
#![tactic(auto)]

#[cfg(test)]
mod words;
