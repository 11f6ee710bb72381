//! Puts so many points to a replica, streams all pages of it, and has another replica merge them: the first word says how many points,
//! the second how far it goes, `put`, `page` or `merge`, and a third of how many series they are, ten at least: a thousand, where it is
//! left out.
#![tactic(auto)]

use m3_model::{Memory, Point, Text};
use mem_disk::MemDisk;
use replica_stories::{Replica, rules_of, stream};
use std::alloc::Global;
use std::env;
use std::process::ExitCode;

// A replica on a disk of its own, open.
fn open_replica(alloc: Global) -> Result<Replica<MemDisk>, Memory> {
    let disk = MemDisk::new(alloc, &[], None)?;
    let rules = rules_of(alloc, [200, 100, 50, 5_000], [10_000, 100, 50, 50_000])?;
    let mut replica = Replica::new(alloc, disk, rules);
    let _ = replica.boot(1);
    Ok(replica)
}

// The point of this number, of so many series: ten points have one time.
fn point_at(alloc: Global, number: u64, series: u64) -> Result<Point, Memory> {
    let series = number.wrapping_mul(7_919).checked_rem(series).unwrap_or(0);
    let id = format!(in alloc; "series-{series}")?;
    Ok(Point {
        ns: 0,
        id: Text::from_string(id),
        t: number / 10,
        v: i64::try_from(number).unwrap_or(0),
    })
}

// Puts so many points of so many series, and flushes after each ten thousand of them.
fn put_points(replica: &mut Replica<MemDisk>, count: u64, series: u64) -> Result<(), Memory> {
    for number in 0..count {
        let point = point_at(replica.alloc, number, series)?;
        replica.set_moment(point.t);
        let _ = replica.put(&point);
        if number % 10_000 == 9_999 {
            let _ = replica.flush();
        }
    }
    Ok(())
}

// Streams all points, and has the other replica merge them, where it is to. Says whether so many came, and rose there.
fn stream_points(replica: &mut Replica<MemDisk>, count: u64, merges: bool) -> Result<bool, Memory> {
    let mut other = open_replica(replica.alloc)?;
    let streamed = stream(replica, &mut other, merges).ok();
    drop(other);
    let merged = if merges { count } else { 0 };
    Ok(streamed.is_some_and(|came| came.points == count && came.merged == merged))
}

// Puts so many points of so many series, and goes as far as the word says. False where not all points came.
fn put_and_stream(
    replica: &mut Replica<MemDisk>,
    count: u64,
    word: &str,
    series: u64,
) -> Result<bool, Memory> {
    put_points(replica, count, series)?;
    match word {
        "page" => stream_points(replica, count, false),
        "merge" => stream_points(replica, count, true),
        _ => Ok(true),
    }
}

fn run_words(alloc: Global, count: u64, word: &str, series: u64) -> Result<bool, Memory> {
    let mut replica = open_replica(alloc)?;
    let came = put_and_stream(&mut replica, count, word, series);
    drop(replica);
    came
}

fn run(rt: HostRuntime) -> Option<bool> {
    let mut words = env::args(&rt).ok()?;
    let count = words.nth(1)?.parse::<u64>().ok()?;
    let word = words.next()?;
    let series = match words.next() {
        Some(series) => series.parse::<u64>().ok()?,
        None => 1_000,
    };
    run_words(rt.alloc(), count, word.as_str(), series).ok()
}

fn main(rt: HostRuntime) -> ExitCode {
    match run(rt) {
        Some(true) => ExitCode::SUCCESS,
        Some(false) => ExitCode::FAILURE,
        None => ExitCode::from(2),
    }
}
