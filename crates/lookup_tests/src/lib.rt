//! Tests of look-ups in volumes: where each identifier is looked for and found, how little is read, of one volume and of all that are
//! listed, page by page too, and what faults and other bytes give.
#![tactic(auto)]

#[cfg(test)]
mod counted_disk;
#[cfg(test)]
mod listed;
#[cfg(test)]
mod paged;
#[cfg(test)]
mod positions;
#[cfg(test)]
mod reads;
#[cfg(test)]
mod volumes;
