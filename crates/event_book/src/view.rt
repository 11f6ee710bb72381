//! What seats know. No value of these types is ever made: they are what proofs say of a seat.
use std::collections::LinkedList;

/// An entry with its maker's name.
pub struct Made<E> {
    pub by: LinkedList<u64>,
    pub entry: E,
}

/// A seat that ended in another, with the entries that it made.
pub struct Ended<E> {
    pub name: LinkedList<u64>,
    pub made: LinkedList<E>,
}

/// What a token of the table knows: a seat, a note on its way between two seats, or what a note or an ended seat leaves.
pub struct View<E> {
    /// Whether it is a seat, which has a name and may add entries.
    pub named: bool,
    /// Whether the book was opened.
    pub opened: bool,
    /// What the book's name says of the disks.
    pub tells: bool,
    pub name: LinkedList<u64>,
    /// How often it was split.
    pub splits: u64,
    pub seen: LinkedList<Made<E>>,
    /// What a note told of, until the seat compares it with what it had seen.
    pub told: LinkedList<Made<E>>,
    pub made: LinkedList<E>,
    pub ended: LinkedList<Ended<E>>,
}
