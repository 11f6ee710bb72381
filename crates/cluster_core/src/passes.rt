//! What follows from a seat of a book of events alone.
ghost use Rattle.std.specs.Prelude.{◌≡◌, ℕ, true, [], ◌∷◌};
ghost use Rattle.cluster_core.specs.Core.{ListKeepsPoints};
ghost use Rattle.cluster_core.specs.Makers.{IsLawfulLog, entries, replica_seat};
ghost use Rattle.cluster_core.specs.Replicas.{replica};

use crate::event::Event;
use event_book::{BookName, Seat};

/// The list that the seat has seen is legal, as the book's name says, and each event was made by one who may.
pub fn seen_is_lawful<N: BookName>(seat: &Seat<Event, N>)
    ensures { IsLawfulLog N.tells seat.now.seen }
{
    seat.know();
}

/// Over disks that tell, the reads of the seen list keep what a majority took.
pub fn seen_reads_keep<N: BookName>(seat: &Seat<Event, N>)
    requires { N.tells ≡ true }
    ensures { ListKeepsPoints (entries seat.now.seen) }
{
    seat.know();
}

/// The seat of a replica knows its state in the seen list by the events that it made itself.
pub fn own_replica<N: BookName>(seat: &Seat<Event, N>)
    ensures { (n s : ℕ) → seat.now.name ≡ replica_seat n s ∷ [] → replica n s (entries seat.now.seen) ≡ replica n s seat.now.made }
{
    seat.know();
}
