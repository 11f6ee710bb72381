ghost use Rattle.std.specs.Prelude.{◌≡◌};

use crate::four::{Positions, ROUNDS, four_threads};
use crate::tick::{Tick, add_tick};
use event_book::{Blank, BookName};
use std::marker::Brand;
use std::process::Abort;
use std::test::*;
use std::thread::Threads;

/// So many ticks there are before the first seat's own.
const TICKS: usize = 4 * 2 * ROUNDS;

#[test]
fn four_threads_agree(rt: HostRuntime) -> Result<(), Fail> {
    for _ in 0..100 {
        let blank = Blank::new(rt.alloc())?;
        one_run::<Brand, _>(&rt, blank)?;
    }
    Ok(())
}

fn one_run<N: BookName + Send + Sync, R: Threads + Abort + Sync>(
    rt: &R,
    blank: Blank<Tick>,
) -> Result<(), Fail>
    requires { blank ≡ N.table }
{
    let (book, mut first) = blank.open::<N>();
    let positions = four_threads(rt, &book, &mut first).ok().ok_or("room")?;
    let mut taken = [false; TICKS];
    for each in &positions {
        take(rt, &mut taken, each);
    }
    let last = add_tick(&book, &mut first, 0).ok().ok_or("room")?;
    assert_eq!(rt; last, TICKS as u64, "no position but these was taken");
    Ok(())
}

// A thread's positions ascend, and nobody else has them.
fn take<R: Abort>(rt: &R, taken: &mut [bool; TICKS], positions: &Positions) {
    for round in 0..ROUNDS {
        let own = positions.own[round];
        let split = positions.split[round];
        assert!(rt; own < split, "the seat that is split off comes later");
        if round > 0 {
            assert!(rt;
                positions.split[round - 1] < own,
                "the next tick comes later"
            );
        }
        for position in [own, split] {
            assert!(rt; position < TICKS as u64);
            let position = position as usize % TICKS;
            assert!(rt; !taken[position], "each position is one tick's");
            taken[position] = true;
        }
    }
}
