//! Tests of identifiers, of the matchers of a query and of the index of tags: their calls on worked rows, whose answers came from elsewhere.
#![tactic(auto)]

#[cfg(test)]
mod identifiers;
#[cfg(test)]
mod indexes;
#[cfg(test)]
mod matches;
#[cfg(test)]
mod tags;
