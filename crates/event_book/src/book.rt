//! Books: entries are appended, and seats meet, are split and end in others.
ghost use Rattle.std.specs.Prelude.{◌≡◌, ◌<◌, [], length, IfOk, OnErr, IsOk};
ghost use Rattle.event_book.specs.Lists.{most_entries};
ghost use Rattle.event_book.specs.Seats.{after_split, split_of};
ghost use Rattle.event_book.specs.Calls.{MayAdd, Appended, Looked, HasMet, HasJoined};

use crate::book_name::BookName;
use crate::entries::Entries;
use crate::rule::LengthTable;
use crate::seat::Seat;
use crate::steps::{add_entry, end_in, split_from, tell_seen};
use std::marker::PhantomData;
use thiserror::Error;

/// So many entries a book takes.
pub const MOST_ENTRIES: u64 = 1 << 62;

/// The book has 2^62 entries.
#[derive(Debug, Drop, Error)]
#[error("the list is full")]
pub struct Full;

/// One list of entries that all threads agree on, and of which it keeps the length alone.
#[derive(Drop)]
pub struct Book<E: Entries, N: BookName> {
    pub(crate) table: LengthTable<E>,
    pub(crate) of: PhantomData<N>,
    ghost named: { table.shared.table_id ≡ N.table },
}

impl<E: Entries, N: BookName> Book<E, N> {
    /// Adds an entry past all that the seat had seen, and answers its position. Full is answered exactly where the list has no room.
    pub fn append(&self, seat: &mut Seat<E, N>, entry: &E) -> Result<u64, Full>
        requires lawful { MayAdd E.lawful N.tells seat.old entry.now }
        ensures ok { IfOk result (λ position. Appended seat.old entry.now position seat.new) }
        ensures room { IfOk result (λ position. position < most_entries) }
        ensures full { OnErr result (Looked seat.old seat.new × (length seat.new.seen ≡ most_entries)) }

        // The first seat, before its first split, is alone.
        ensures sole { seat.old.name ≡ [] → seat.old.splits ≡ 0 → length seat.old.made < most_entries → IsOk result }
    {
        add_entry(&self.table, &mut seat.token, entry)
    }

    /// Both have then seen the longer of the two lists, which the other begins.
    pub fn meet(&self, one: &mut Seat<E, N>, other: &mut Seat<E, N>)
        ensures one { HasMet one.old other.old one.new }
        ensures other { HasMet other.old one.old other.new }
        ensures same { one.new.seen ≡ other.new.seen }
    {
        tell_seen(&self.table, &mut one.token, &mut other.token);
        tell_seen(&self.table, &mut other.token, &mut one.token);
    }

    /// A seat with the next name of this one, which has seen the same and made nothing.
    pub fn split(&self, seat: &mut Seat<E, N>) -> Seat<E, N>
        ensures seat { seat.new ≡ after_split seat.old }
        ensures child { result ≡ split_of seat.old }
    {
        let token = split_from(&self.table, &mut seat.token);
        Seat {
            token,
            of: PhantomData,
        }
    }

    /// The other seat ends in this one, which has then seen the longer of the two lists.
    pub fn join(&self, seat: &mut Seat<E, N>, other: Seat<E, N>)
        ensures { HasJoined seat.old other seat.new }
    {
        let mut other = other;
        self.meet(seat, &mut other);
        let Seat { token, of: _ } = other;
        end_in(&self.table, &mut seat.token, token);
    }
}
