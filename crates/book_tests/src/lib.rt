//! Tests of the event book: four threads on one book, each of which adds ticks by a seat of its own, splits seats off, meets them and
//! lets them end.
#![tactic(auto)]

#[cfg(test)]
mod four;
#[cfg(test)]
mod runs;
#[cfg(test)]
mod tick;
