//! Ticks: entries that each maker numbers.
ghost use Rattle.std.specs.Prelude.{◌≡◌, length, IfOk};
ghost use Rattle.event_book.specs.Calls.{Appended};

use event_book::{Book, BookName, Entries, Full, Seat};

/// An entry with its number among its maker's.
#[derive(Drop)]
pub struct Tick {
    pub number: u64,
}

impl Entries for Tick {
    ghost use Rattle.book_tests.specs.Ticks.{IsOrdered, starts_ordered};
    ghost use Rattle.book_tests.specs.declared.tick.Tick.{Tick};

    ghost lawful = { IsOrdered (λ (tick : Tick). tick.number) };

    ghost starts = { starts_ordered (λ (tick : Tick). tick.number) };
}

/// The seat's next tick, past all that it had seen.
pub fn add_tick<N: BookName>(
    book: &Book<Tick, N>,
    seat: &mut Seat<Tick, N>,
    number: u64,
) -> Result<u64, Full>
    requires { length seat.old.made ≡ number }
    ensures { IfOk result (λ position. Appended seat.old (record { number = number }) position seat.new) }
{
    book.append(seat, &Tick { number })
}
