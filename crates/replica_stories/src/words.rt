//! Words, and what a replica does for each.
use crate::files::{change_files, is_of_files};
use crate::pages::{merge, page};
use crate::replica::Replica;
use crate::tells::{tell_all, tell_reason};
use disk_stories::{number, part, small, text};
use m3_model::{Memory, Point, Reason, Seq, Series, Standing, Text};
use m3_outside::Disk;
use replica_machine::Began;
use std::alloc::Global;

/// The point `0,hello,100,5`: its namespace, its identifier, its time and its value.
pub(crate) fn point(alloc: Global, words: &str) -> Result<Point, Memory> {
    Ok(Point {
        ns: small(part(words, ',', 0)),
        id: Text::from_str(alloc, part(words, ',', 1))?,
        t: number(part(words, ',', 2)),
        v: part(words, ',', 3).parse::<i64>().unwrap_or(0),
    })
}

/// Tells why it was refused.
pub(crate) fn refused(
    alloc: Global,
    reason: &Reason,
    full: bool,
    out: &mut String,
) -> Result<bool, Memory> {
    tell_reason(alloc, reason, full, out)?;
    Ok(false)
}

/// Tells a count.
pub(crate) fn counted(
    alloc: Global,
    said: Result<u64, Reason>,
    out: &mut String,
) -> Result<bool, Memory> {
    match said {
        Ok(count) => {
            write!(out, "{count}")?;
            Ok(true)
        }
        Err(reason) => refused(alloc, &reason, false, out),
    }
}

// Tells nothing where it was done.
fn done(alloc: Global, said: Result<(), Reason>, out: &mut String) -> Result<bool, Memory> {
    match said {
        Ok(()) => Ok(true),
        Err(reason) => refused(alloc, &reason, false, out),
    }
}

// Tells the fence and how many points the files have.
fn began(
    alloc: Global,
    said: Result<Began, Reason>,
    full: bool,
    out: &mut String,
) -> Result<bool, Memory> {
    match said {
        Ok(began) => {
            write!(out, "{} of {}", began.fence, began.points.len())?;
            Ok(true)
        }
        Err(reason) => refused(alloc, &reason, full, out),
    }
}

// Tells the points.
fn found(
    alloc: Global,
    said: Result<Seq<Series>, Reason>,
    out: &mut String,
) -> Result<bool, Memory> {
    match said {
        Ok(all) => {
            tell_all(&all, out)?;
            Ok(true)
        }
        Err(reason) => refused(alloc, &reason, false, out),
    }
}

// `b1` begins with the tenure 1, and `d1` tells the digests of damage, too.
fn begin<D: Disk>(
    replica: &mut Replica<D>,
    tenure: u64,
    full: bool,
    out: &mut String,
) -> Result<bool, Memory> {
    let said = replica.boot(tenure);
    began(replica.alloc, said, full, out)
}

// `p0,hello,100,5` puts a point.
fn put<D: Disk>(replica: &mut Replica<D>, words: &str, out: &mut String) -> Result<bool, Memory> {
    let point = point(replica.alloc, words)?;
    let said = replica.put(&point);
    done(replica.alloc, said, out)
}

// `r0,100,200` reads the points of a namespace from 100 on and below 200.
fn read<D: Disk>(replica: &mut Replica<D>, words: &str, out: &mut String) -> Result<bool, Memory> {
    let ns = small(part(words, ',', 0));
    let from = number(part(words, ',', 1));
    let said = replica.read(ns, from, number(part(words, ',', 2)));
    found(replica.alloc, said, out)
}

// `o0,hello,100,200` reads those of one series.
fn read_one<D: Disk>(
    replica: &mut Replica<D>,
    words: &str,
    out: &mut String,
) -> Result<bool, Memory> {
    let ns = small(part(words, ',', 0));
    let id = Text::from_str(replica.alloc, part(words, ',', 1))?;
    let from = number(part(words, ',', 2));
    let said = replica.read_one(ns, id, from, number(part(words, ',', 3)));
    found(replica.alloc, said, out)
}

// `n` tells how many volumes count, and how many points are in memory.
fn report<D: Disk>(replica: &Replica<D>, out: &mut String) -> Result<bool, Memory> {
    let report = replica.report();
    write!(out, "{} {}", report.volumes, report.buffered)?;
    Ok(report.standing == Standing::Open)
}

fn flush<D: Disk>(replica: &mut Replica<D>, out: &mut String) -> Result<bool, Memory> {
    let said = replica.flush();
    counted(replica.alloc, said, out)
}

fn tick<D: Disk>(replica: &mut Replica<D>, out: &mut String) -> Result<bool, Memory> {
    let said = replica.tick();
    counted(replica.alloc, said, out)
}

// `s` takes a snapshot, and tells its number.
fn snapshot<D: Disk>(replica: &mut Replica<D>, out: &mut String) -> Result<bool, Memory> {
    let said = replica.snapshot();
    counted(replica.alloc, said, out)
}

// `h` stops the process.
fn stop<D: Disk>(replica: &mut Replica<D>) -> Result<bool, Memory> {
    replica.stop();
    Ok(true)
}

// `y85` starts it again, and the pick says what is left.
fn start<D: Disk>(replica: &mut Replica<D>, pick: u64, out: &mut String) -> Result<bool, Memory> {
    let said = replica.start(pick);
    done(replica.alloc, said, out)
}

// `z85` stops it first.
fn restart<D: Disk>(replica: &mut Replica<D>, pick: u64, out: &mut String) -> Result<bool, Memory> {
    replica.stop();
    start(replica, pick, out)
}

// `w` tells how many ticks, flushes and snapshots answered a number, and the sum of all that did.
fn work<D: Disk>(replica: &Replica<D>, out: &mut String) -> Result<bool, Memory> {
    let work = replica.work();
    write!(
        out,
        "{} {} {} {}",
        work.ticks, work.flushes, work.snapshots, work.sum
    )?;
    Ok(true)
}

// `t1000` makes the moment this one.
fn set_moment<D: Disk>(replica: &mut Replica<D>, now: u64) -> Result<bool, Memory> {
    replica.set_moment(now);
    Ok(true)
}

// `v3` has the calls that follow at this version.
fn set_version<D: Disk>(replica: &mut Replica<D>, version: u64) -> Result<bool, Memory> {
    replica.set_version(version);
    Ok(true)
}

// `e3` raises the fence to this version.
fn fence<D: Disk>(
    replica: &mut Replica<D>,
    version: u64,
    out: &mut String,
) -> Result<bool, Memory> {
    let said = replica.fence(version);
    done(replica.alloc, said, out)
}

// `q` tells the fence.
fn tell_fence<D: Disk>(replica: &Replica<D>, out: &mut String) -> Result<bool, Memory> {
    write!(out, "{}", replica.report().fence)?;
    Ok(true)
}

fn unknown(out: &mut String) -> Result<bool, Memory> {
    out.push_str("no such word")?;
    Ok(false)
}

// Does what a word says that leaves the replica on its disk.
fn act<D: Disk>(replica: &mut Replica<D>, word: &str, out: &mut String) -> Result<bool, Memory> {
    match word.as_bytes() {
        [b't', rest @ ..] => set_moment(replica, number(text(rest))),
        [b'b', rest @ ..] => begin(replica, number(text(rest)), false, out),
        [b'd', rest @ ..] => begin(replica, number(text(rest)), true, out),
        [b'p', rest @ ..] => put(replica, text(rest), out),
        [b'r', rest @ ..] => read(replica, text(rest), out),
        [b'o', rest @ ..] => read_one(replica, text(rest), out),
        [b'v', rest @ ..] => set_version(replica, number(text(rest))),
        [b'e', rest @ ..] => fence(replica, number(text(rest)), out),
        [b'y', rest @ ..] => start(replica, number(text(rest)), out),
        [b'z', rest @ ..] => restart(replica, number(text(rest)), out),
        [b'g', rest @ ..] => page(replica, text(rest), out),
        [b'm', rest @ ..] => merge(replica, text(rest), out),
        [b'f'] => flush(replica, out),
        [b'x'] => tick(replica, out),
        [b's'] => snapshot(replica, out),
        [b'n'] => report(replica, out),
        [b'w'] => work(replica, out),
        [b'q'] => tell_fence(replica, out),
        [b'h'] => stop(replica),
        _ => unknown(out),
    }
}

// Does what a word of files says, with the replica's disk. The replica stands at Boot then.
fn act_on_files<D: Disk>(
    replica: Replica<D>,
    word: &str,
    out: &mut String,
) -> Result<(Replica<D>, bool), Memory> {
    let (alloc, version) = (replica.alloc, replica.version());
    let (mut disk, rules) = replica.into_parts();
    let went = change_files(alloc, &mut disk, word, out)?;
    let mut replica = Replica::new(alloc, disk, rules);
    replica.set_version(version);
    Ok((replica, went))
}

/// Has the replica do what the word says, and writes into the text what it answers. Says whether it did.
pub fn say<D: Disk>(
    replica: Replica<D>,
    word: &str,
    out: &mut String,
) -> Result<(Replica<D>, bool), Memory> {
    if is_of_files(word) {
        return act_on_files(replica, word, out);
    }
    let mut replica = replica;
    let went = act(&mut replica, word, out)?;
    Ok((replica, went))
}

/// What each of the words answers, with `|` behind it. Says whether all were done.
pub fn steps<D: Disk>(
    replica: Replica<D>,
    words: &str,
    out: &mut String,
) -> Result<(Replica<D>, bool), Memory> {
    let mut replica = replica;
    let mut all = true;
    for word in words.split(' ') {
        let (next, went) = say(replica, word, out)?;
        out.push('|')?;
        replica = next;
        all = all && went;
    }
    Ok((replica, all))
}
