//! Seats: what one of a book's makers knows.
ghost use Rattle.event_book.specs.Seats.{IsSound};

use crate::book_name::BookName;
use crate::entries::Entries;
use crate::rule::Token;
use std::marker::{Model, PhantomData};

/// One of a book's makers, with the beginning of the list that it has seen. Contracts see its name, how often it was split, what it has
/// seen, the entries that it made, and the seats that ended in it with theirs.
#[derive(Drop)]
pub struct Seat<E: Entries, N: BookName> {
    pub(crate) token: Token<E>,
    pub(crate) of: PhantomData<N>,
}

impl<E: Entries, N: BookName> Model for Seat<E, N> {
    ghost use Rattle.event_book.specs.Seats.{Shown};
    ghost use Rattle.event_book.specs.Steps.{IsPlaced, IsSeated};
    ghost use Rattle.event_book.specs.Views.{shown};

    ghost Value = { Shown E };

    ghost view = { λ s. shown s.token.me.0 };

    ghost invariant = { λ s. IsPlaced N.table s.token.table_id s.token.me × IsSeated E.lawful N.tells s.token.me.0 };
}

impl<E: Entries, N: BookName> Seat<E, N> {
    /// What is so of each seat.
    pub fn know(&self)
        ensures { IsSound E.lawful N.tells self.now }
    {
        let _ = &self.token;
    }
}
