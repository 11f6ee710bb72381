//! Books that have no name yet.
ghost use Rattle.std.specs.Prelude.{◌≡◌};
ghost use Rattle.event_book.specs.Seats.{first_seat};

use crate::book::Book;
use crate::book_name::BookName;
use crate::entries::Entries;
use crate::rule::{LengthTable, Token};
use crate::seat::Seat;
use crate::steps::open_under;
use atomic_table::Table;
use std::alloc::{AllocError, Global};
use std::marker::{Model, PhantomData};

/// A book that has no name yet. Contracts see which it is.
#[derive(Drop)]
pub struct Blank<E: Entries> {
    table: LengthTable<E>,
    token: Token<E>,
}

impl<E: Entries> Model for Blank<E> {
    ghost use Rattle.atomic_table.specs.Seated.{TableId, table_id_coded};
    ghost use Rattle.event_book.specs.Steps.{IsNew};

    ghost Value = { TableId };

    ghost coded = { table_id_coded };

    ghost view = { λ b. b.table.shared.table_id };

    ghost invariant = { λ b. IsNew b.table.shared.table_id b.token.table_id b.token.me };
}

impl<E: Entries> Blank<E> {
    /// The only call that takes memory. Which book it is, no clause says.
    pub fn new(alloc: Global) -> Result<Blank<E>, AllocError> {
        let (table, token) = Table::of_words(alloc, &[0], &())?;
        Ok(Blank { table, token })
    }

    /// The book under its name, with an empty list, and its first seat.
    pub fn open<N: BookName>(self) -> (Book<E, N>, Seat<E, N>)
        requires { self ≡ N.table }
        ensures { result.1 ≡ first_seat }
    {
        let Blank { table, mut token } = self;
        open_under::<E, N>(&table, &mut token);
        let book = Book {
            table,
            of: PhantomData,
        };
        let seat = Seat {
            token,
            of: PhantomData,
        };
        (book, seat)
    }
}
