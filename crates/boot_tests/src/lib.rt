//! Tests of claims, pages, cached blocks, points in memory and the generated script: their calls on worked rows, whose answers came
//! from elsewhere.
#![tactic(auto)]

#[cfg(test)]
mod blocks;
#[cfg(test)]
mod buffers;
#[cfg(test)]
mod claims;
#[cfg(test)]
mod pages;
#[cfg(test)]
mod scripts;
