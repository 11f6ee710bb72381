use load_gen::Script;
use load_gen::laws::{has_all_lines, keeps_limits};
use m3_model::{Act, Memory, Request};
use std::alloc::Global;
use std::test::Fail;

// Scripts by their seeds: how many requests and writes they have, the sum of the values and of the lengths of the
// identifiers; then the first writes, and the last one.
const SCRIPTS: &str = "0: 5515 5000 2509636 14481; s7 1 424, s37 1 236, s25 1 891, s70 500 385
7: 5515 5000 2517755 14506; s78 1 231, s53 1 673, s45 1 219, s41 500 206
4294967295: 5515 5000 2481016 14526; s59 1 36, s24 1 251, s70 1 959, s71 500 368";

// The positions, from 0, of requests that are no writes and don't set the moment.
const POSITIONS: &str = "0 init
1 namespace
1102 flush
1103 snapshot
2204 flush
2205 snapshot
2756 replace c d g3
2757 bootstrap d
3308 flush
3309 snapshot
4410 flush
4411 snapshot
5512 flush
5513 snapshot
5514 match m 0 501";

// More than a script has.
const MOST: u32 = 6_000;

#[derive(Clone, Copy)]
struct Tally {
    requests: u64,
    writes: u64,
    values: i64,
    bytes: usize,
}

// Adds a request to what is counted.
fn count(tally: Tally, request: &Request) -> Tally {
    let requests = tally.requests.wrapping_add(1);
    match request {
        Request::One(Act::Write { id, v, .. }) => Tally {
            requests,
            writes: tally.writes.wrapping_add(1),
            values: tally.values.wrapping_add(*v),
            bytes: tally.bytes.wrapping_add(id.as_str().len()),
        },
        _ => Tally { requests, ..tally },
    }
}

fn tell_write(request: &Request, out: &mut String) -> Result<(), Fail> {
    if let Request::One(Act::Write { id, t, v, .. }) = request {
        write!(out, "{} {t} {v}", id.as_str())?;
    }
    Ok(())
}

fn tally_of(alloc: Global, seed: u32) -> Result<Tally, Memory> {
    let mut script = Script::new(seed);
    let mut tally = Tally {
        requests: 0,
        writes: 0,
        values: 0,
        bytes: 0,
    };
    for _ in 0..MOST {
        match script.next(alloc)? {
            Some(request) => tally = count(tally, &request),
            None => break,
        }
    }
    Ok(tally)
}

// The write that stands at this position.
fn write_at(alloc: Global, seed: u32, position: u32, out: &mut String) -> Result<(), Fail> {
    let mut script = Script::new(seed);
    for _ in 0..position {
        drop(script.next(alloc)?);
    }
    if let Some(request) = script.next(alloc)? {
        tell_write(&request, out)?;
    }
    Ok(())
}

fn told(alloc: Global, seed: u32, out: &mut String) -> Result<(), Fail> {
    let tally = tally_of(alloc, seed)?;
    write!(out, "{} {} ", tally.requests, tally.writes)?;
    write!(out, "{} {}; ", tally.values, tally.bytes)?;
    write_at(alloc, seed, 3, out)?;
    write!(out, ", ")?;
    write_at(alloc, seed, 4, out)?;
    write!(out, ", ")?;
    write_at(alloc, seed, 5, out)?;
    write!(out, ", ")?;
    write_at(alloc, seed, 5_511, out)
}

// What a request asks for that is no write and doesn't set the moment.
fn tell_other(position: u32, request: &Request, out: &mut String) -> Result<(), Fail> {
    match request {
        Request::One(Act::Init { .. }) => writeln!(out, "{position} init")?,
        Request::One(Act::Namespace { .. }) => writeln!(out, "{position} namespace")?,
        Request::One(Act::Flush) => writeln!(out, "{position} flush")?,
        Request::One(Act::Snapshot) => writeln!(out, "{position} snapshot")?,
        Request::One(act) => tell_move(position, act, out)?,
        Request::Par { .. } => {}
    }
    Ok(())
}

fn tell_move(position: u32, act: &Act, out: &mut String) -> Result<(), Fail> {
    match act {
        Act::Replace { node, by, group } => {
            write!(out, "{position} replace {} ", node.as_str())?;
            writeln!(out, "{} {}", by.as_str(), group.as_str())?;
        }
        Act::Bootstrap { node, .. } => writeln!(out, "{position} bootstrap {}", node.as_str())?,
        Act::Match { ns, from, to, .. } => {
            writeln!(out, "{position} match {} {from} {to}", ns.as_str())?;
        }
        _ => {}
    }
    Ok(())
}

fn tell_others(alloc: Global, out: &mut String) -> Result<(), Fail> {
    let mut script = Script::new(7);
    for position in 0..MOST {
        match script.next(alloc)? {
            Some(request) => tell_other(position, &request, out)?,
            None => break,
        }
    }
    Ok(())
}

#[test]
fn scripts_are_drawn(rt: HostRuntime) -> Result<(), Fail> {
    let mut out = String::new(rt.alloc());
    for row in SCRIPTS.lines() {
        let (seed, _) = row.split_once(": ").unwrap_or(("", ""));
        write!(out, "{seed}: ")?;
        let seed: u32 = seed.parse().expect(&rt, "a seed");
        told(rt.alloc(), seed, &mut out)?;
        writeln!(out)?;
    }
    assert_eq!(rt; out.trim_end(), SCRIPTS);
    has_all_lines();
    keeps_limits();
    Ok(())
}

#[test]
fn other_requests_have_their_positions(rt: HostRuntime) -> Result<(), Fail> {
    let mut out = String::new(rt.alloc());
    tell_others(rt.alloc(), &mut out)?;
    assert_eq!(rt; out.trim_end(), POSITIONS);
    Ok(())
}
