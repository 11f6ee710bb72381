//! Tests of placements, of plans and of lines that make placements: their calls on worked rows, whose answers came from elsewhere.
#![tactic(auto)]

#[cfg(test)]
mod lines;
#[cfg(test)]
mod placements;
#[cfg(test)]
mod plans;
