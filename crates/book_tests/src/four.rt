//! Four threads, and what the list holds of each once their seats have ended.
ghost use Rattle.std.specs.Prelude.{◌≡◌, [], length, IfOk, OnOk};
ghost use Rattle.event_book.specs.Seats.{first_seat};
ghost use Rattle.event_book.specs.Calls.{HasJoined};
ghost use Rattle.std.specs.Thread.{IsSync};
ghost use Rattle.book_tests.specs.Ticks.{IsOrdered, HasTicks, HasWorked, StandsIn};

use crate::tick::{Tick, add_tick};
use event_book::{Book, BookName, Full, Seat};
use std::thread::{Threads, join};

/// So many ticks each thread adds by its own seat, and as many by seats that it splits off.
pub const ROUNDS: usize = 8;

/// The positions of a thread's ticks, and of those of the seats that it split off.
#[derive(Drop)]
pub struct Positions {
    pub own: [u64; ROUNDS],
    pub split: [u64; ROUNDS],
}

/// A thread's seat, with the positions of its ticks.
#[derive(Drop)]
struct Work<N: BookName> {
    seat: Seat<Tick, N>,
    positions: Positions,
}

/// A seat is split off, adds a tick, meets this one and ends in it.
fn add_aside<N: BookName>(book: &Book<Tick, N>, seat: &mut Seat<Tick, N>) -> Result<u64, Full>
    ensures name { seat.new.name ≡ seat.old.name }
    ensures made { seat.new.made ≡ seat.old.made }
{
    let mut aside = book.split(seat);
    let position = add_tick(book, &mut aside, 0);
    book.meet(seat, &mut aside);
    book.join(seat, aside);
    position
}

/// A thread's ticks.
fn add_ticks<N: BookName>(book: &Book<Tick, N>, seat: Seat<Tick, N>) -> Result<Work<N>, Full>
    requires { seat.made ≡ [] }
    ensures { IfOk result (λ work. HasWorked seat.name ROUNDS work.seat) }
{
    let mut seat = seat;
    let mut own = [0; ROUNDS];
    let mut split = [0; ROUNDS];
    for round in 0..ROUNDS {
        own[round] = add_tick(book, &mut seat, round as u64)?;
        split[round] = add_aside(book, &mut seat)?;
    }
    let positions = Positions { own, split };
    Ok(Work { seat, positions })
}

/// Two threads.
fn two_threads<N: BookName + Send + Sync, R: Threads + Sync>(
    rt: &R,
    book: &Book<Tick, N>,
    one: Seat<Tick, N>,
    other: Seat<Tick, N>,
) -> Result<(Work<N>, Work<N>), Full>
    requires { (one.made ≡ []) × (other.made ≡ []) }
    ensures one { IfOk result (λ works. HasWorked one.name ROUNDS works.0.seat) }
    ensures other { IfOk result (λ works. HasWorked other.name ROUNDS works.1.seat) }
{
    let works = join(
        rt,
        || -> Result<Work<N>, Full>
            requires { one.made ≡ [] }
            ensures { IfOk result (λ work. HasWorked one.name ROUNDS work.seat) }
        { add_ticks(book, one) },
        || -> Result<Work<N>, Full>
            requires { other.made ≡ [] }
            ensures { IfOk result (λ work. HasWorked other.name ROUNDS work.seat) }
        { add_ticks(book, other) },
    );
    let (one, other) = works;
    let one = one?;
    Ok((one, other?))
}

/// A thread's seat ends in the first one.
fn gather<N: BookName>(book: &Book<Tick, N>, first: &mut Seat<Tick, N>, work: Work<N>) -> Positions
    ensures { HasJoined first.old work.seat first.new }
{
    let Work { seat, positions } = work;
    book.join(first, seat);
    positions
}

/// Four threads' seats end in the first one.
fn gather_all<N: BookName>(
    book: &Book<Tick, N>,
    first: &mut Seat<Tick, N>,
    a: Work<N>,
    b: Work<N>,
    c: Work<N>,
    d: Work<N>,
) -> [Positions; 4]
    ensures ordered { IsOrdered (λ tick. tick.number) N.tells first.new.seen }
    ensures made { first.new.made ≡ first.old.made }
    ensures a { StandsIn first.new.seen a.seat }
    ensures b { StandsIn first.new.seen b.seat }
    ensures c { StandsIn first.new.seen c.seat }
    ensures d { StandsIn first.new.seen d.seat }
{
    let positions = [
        gather(book, first, a),
        gather(book, first, b),
        gather(book, first, c),
        gather(book, first, d),
    ];
    first.know();
    positions
}

/// The four threads, whose seats are split off the first one and end in it. The list that it has then seen has each thread's ticks, in
/// the order of their numbers, and none of its own.
pub fn four_threads<N: BookName + Send + Sync, R: Threads + Sync>(
    rt: &R,
    book: &Book<Tick, N>,
    first: &mut Seat<Tick, N>,
) -> Result<[Positions; 4], Full>
    requires { first.old ≡ first_seat }
    ensures ordered { IsOrdered (λ tick. tick.number) N.tells first.new.seen }
    ensures made { first.new.made ≡ [] }
    ensures each { OnOk result (HasTicks 0 ROUNDS first.new.seen × HasTicks 1 ROUNDS first.new.seen × HasTicks 2 ROUNDS first.new.seen × HasTicks 3 ROUNDS first.new.seen) }
{
    let a = book.split(first);
    let b = book.split(first);
    let c = book.split(first);
    let d = book.split(first);
    let works = join(
        rt,
        || -> Result<(Work<N>, Work<N>), Full>
            requires { IsSync R.row × (a.made ≡ []) × (b.made ≡ []) }
            ensures { IfOk result (λ works. HasWorked a.name ROUNDS works.0.seat × HasWorked b.name ROUNDS works.1.seat) }
        { two_threads(rt, book, a, b) },
        || -> Result<(Work<N>, Work<N>), Full>
            requires { IsSync R.row × (c.made ≡ []) × (d.made ≡ []) }
            ensures { IfOk result (λ works. HasWorked c.name ROUNDS works.0.seat × HasWorked d.name ROUNDS works.1.seat) }
        { two_threads(rt, book, c, d) },
    );
    first.know();
    let (one, other) = works;
    let (a, b) = one?;
    let (c, d) = other?;
    Ok(gather_all(book, first, a, b, c, d))
}
