//! The rule of a book, and what each kind of atomic step does: an exchange, a load, a split or a join, each on the one word.
use crate::book_name::BookName;
use crate::entries::Entries;
use crate::view::View;
use atomic_table::{Join, Play, Split, Table, TableRule};
use std::alloc::Global;
use std::marker::PhantomData;

/// The word is the length of one lawful list, which each seat's view fits.
pub struct BookRule;

impl<E: Entries> TableRule<E, View<E>, ()> for BookRule {
    ghost use Rattle.event_book.specs.Rule.{HoldsList};
    ghost use Rattle.event_book.specs.Views.{first_view};

    ghost holds = { λ _ s. HoldsList E.lawful s.words s.views };

    ghost first = { λ _. first_view };
}

/// The one word: the length of the list.
pub type LengthTable<E> = Table<E, View<E>, (), BookRule, Global>;

/// A token of the table, which takes no bytes.
pub type Token<E> = atomic_table::Seat<E, View<E>>;

/// The load by which a seat sees the whole list.
pub struct SeeList;

impl<E: Entries> Play<E, View<E>> for SeeList {
    ghost use Rattle.event_book.specs.Steps.{SeesList};

    ghost then = { SeesList E.lawful };
}

/// The exchange by which a seat adds an entry to all that it has seen, or sees a longer list.
pub struct AddEntry;

impl<E: Entries> Play<E, View<E>> for AddEntry {
    ghost use Rattle.event_book.specs.Steps.{AddsEntry};

    ghost then = { AddsEntry E.lawful };
}

/// The load by which a seat takes over the longer of what it has seen and what a note told of.
pub struct TakeLonger;

impl<E: Entries> Play<E, View<E>> for TakeLonger {
    ghost use Rattle.event_book.specs.Steps.{TakesLonger};

    ghost then = { TakesLonger E.lawful };
}

/// The load by which the first seat opens the book under its name.
pub struct OpenBook<N>(PhantomData<N>);

impl<E: Entries, N: BookName> Play<E, View<E>> for OpenBook<N> {
    ghost use Rattle.event_book.specs.Steps.{OpensBook};

    ghost then = { OpensBook N.tells };
}

/// A note of what a seat has seen is split off, and joined into the seat that reads it.
pub struct PassNote;

impl<E> Split<View<E>> for PassNote {
    ghost use Rattle.event_book.specs.Views.{note_of};

    ghost left = { λ v. v };

    ghost right = { λ v. note_of v.seen };
}

impl<E> Join<View<E>> for PassNote {
    ghost use Rattle.std.specs.Prelude.{[]};
    ghost use Rattle.event_book.specs.Views.{note_of, with_seen};

    ghost both = { λ v note. with_seen v v.seen note.seen };

    ghost spent = { note_of [] };
}

/// A seat of its own is split off.
pub struct SplitSeat;

impl<E> Split<View<E>> for SplitSeat {
    ghost use Rattle.event_book.specs.Views.{parent_view, child_view};

    ghost left = { parent_view };

    ghost right = { child_view };
}

/// A seat ends in another.
pub struct EndSeat;

impl<E> Join<View<E>> for EndSeat {
    ghost use Rattle.std.specs.Prelude.{[]};
    ghost use Rattle.event_book.specs.Views.{joined_view, note_of};

    ghost both = { joined_view };

    ghost spent = { note_of [] };
}
