//! Placements, rules, points and pages for stories, each by a letter.
use m3_model::{
    Assignment, Instance, Key, Memory, Page, Pick, Placement, Point, Rules, Seq, Series,
    ShardState, Space, Text,
};
use std::alloc::Global;

pub fn digit(byte: u8) -> u8 {
    byte & 15
}

pub fn number(byte: u8) -> u64 {
    digit(byte) as u64
}

fn replica(node: u8, tenure: u64, state: ShardState, source: Option<u8>) -> Assignment {
    Assignment {
        node,
        tenure,
        state,
        source,
    }
}

// Nodes 0, 1 and 2 serve, unless node 3 takes over node 0's replica (`m`), or has (`e`, `f`).
fn assignments(alloc: Global, kind: u8, version: u64) -> Result<Seq<Assignment>, Memory> {
    let mut shard = Vec::new(alloc);
    match kind {
        b'm' => shard.push(replica(0, 1, ShardState::Leaving, None))?,
        b'e' | b'f' => {}
        _ => shard.push(replica(0, 1, ShardState::Available, None))?,
    }
    shard.push(replica(1, 1, ShardState::Available, None))?;
    shard.push(replica(2, 1, ShardState::Available, None))?;
    match kind {
        b'm' => shard.push(replica(3, version, ShardState::Initializing, Some(0)))?,
        b'e' | b'f' => shard.push(replica(3, 2, ShardState::Available, None))?,
        _ => {}
    }
    Ok(Seq::from_vec(shard))
}

/// Four nodes and two shards, of which the second stays as it is; or three nodes and one shard (`o`).
pub fn placement(alloc: Global, kind: u8, version: u64) -> Result<Placement, Memory> {
    let nodes = if kind == b'o' { 3 } else { 4 };
    let mut instances = Vec::new(alloc);
    for name in ["a", "b", "c", "d"].iter().take(nodes) {
        instances.push(Instance {
            name: Text::from_str(alloc, name)?,
            group: Text::from_str(alloc, name)?,
            listed: true,
            drained: false,
        })?;
    }
    let mut shards = Vec::new(alloc);
    shards.push(assignments(alloc, kind, version)?)?;
    if kind != b'o' {
        shards.push(assignments(alloc, b's', 1)?)?;
    }
    Ok(Placement {
        version,
        rf: 3,
        instances: Seq::from_vec(instances),
        shards: Seq::from_vec(shards),
    })
}

/// The moves that the placement ends: that of node 3 at `e`, and one that isn't there at `d`.
pub fn done(alloc: Global, kind: u8) -> Result<Seq<(u32, u8)>, Memory> {
    let mut all = Vec::new(alloc);
    match kind {
        b'e' => all.push((0, 3))?,
        b'd' => all.push((0, 0))?,
        _ => {}
    }
    Ok(Seq::from_vec(all))
}

/// A hundred times the moment, and so many namespaces.
pub fn rules(alloc: Global, moment: u8, spaces: u8) -> Result<Rules, Memory> {
    let mut all = Vec::new(alloc);
    for name in ["m", "n"].iter().take(spaces as usize) {
        all.push(Space {
            name: Text::from_str(alloc, name)?,
            block: 200,
            past: 100,
            future: 50,
            retention: 500,
        })?;
    }
    Ok(Rules {
        now: 100 * u64::from(moment),
        spaces: Seq::from_vec(all),
    })
}

// `p` and the higher `q` at time 100, `r` after them, `u` after what is read, `o` before and `n` after the window of the
// moment 100; `i` is of another series.
fn time_and_value(letter: u8) -> (u64, i64) {
    match letter {
        b'q' => (100, 6),
        b'r' => (105, 1),
        b'u' => (149, 1),
        b'o' => (0, 1),
        b'n' => (150, 1),
        _ => (100, 5),
    }
}

fn identifier(alloc: Global, letter: u8) -> Result<Text, Memory> {
    let id = if letter == b'i' { "other" } else { "hello" };
    Text::from_str(alloc, id)
}

pub fn point(alloc: Global, letter: u8) -> Result<Point, Memory> {
    let (t, v) = time_and_value(letter);
    Ok(Point {
        ns: 0,
        id: identifier(alloc, letter)?,
        t,
        v,
    })
}

pub fn points(alloc: Global, letters: &[u8]) -> Result<Seq<Point>, Memory> {
    let mut all = Vec::new(alloc);
    for letter in letters {
        all.push(point(alloc, *letter)?)?;
    }
    Ok(Seq::from_vec(all))
}

/// One series with the points, or none.
pub fn series(alloc: Global, letters: &[u8]) -> Result<Seq<Series>, Memory> {
    let mut all = Vec::new(alloc);
    let mut points = Vec::new(alloc);
    for letter in letters {
        points.push(time_and_value(*letter))?;
    }
    if let Some(letter) = letters.first() {
        all.push(Series {
            id: identifier(alloc, *letter)?,
            points: Seq::from_vec(points),
        })?;
    }
    Ok(Seq::from_vec(all))
}

/// What is read: a series from time 0 to 149.
pub fn pick(alloc: Global) -> Result<Pick, Memory> {
    Ok(Pick::One {
        ns: 0,
        id: identifier(alloc, b'p')?,
    })
}

pub fn nodes(alloc: Global, letters: &[u8]) -> Result<Seq<u8>, Memory> {
    let mut all = Vec::new(alloc);
    for letter in letters {
        all.push(digit(*letter))?;
    }
    Ok(Seq::from_vec(all))
}

/// How many points there are with a number, more than one page holds.
pub const NUMBERED: u8 = 70;

// The identifier's two digits are the number.
fn numbered_key(alloc: Global, number: u8) -> Result<Key, Memory> {
    let id = format!(in alloc; "{}{}", number / 10, number % 10)?;
    Ok(Key {
        ns: 0,
        id: Text::from_string(id),
        t: 100,
    })
}

pub fn numbered_point(alloc: Global, number: u8) -> Result<Point, Memory> {
    let key = numbered_key(alloc, number)?;
    Ok(Point {
        ns: key.ns,
        id: key.id,
        t: key.t,
        v: 1,
    })
}

// The points of a page by their numbers: from one on and below another, all but one, and whether the page goes on.
#[derive(Drop)]
struct Range {
    first: u8,
    end: u8,
    without: u8,
    goes_on: bool,
}

fn numbered(first: u8, end: u8, without: u8, goes_on: bool) -> Option<Range> {
    Some(Range {
        first,
        end,
        without,
        goes_on,
    })
}

// The first page and the rest are `a` and `b`; a number is missing in `c` and `d`, the end comes too early in `e`, and `f`
// is the rest from another key.
fn range_of(letters: &[u8]) -> Option<Range> {
    match letters {
        [b'a'] => numbered(0, 64, NUMBERED, true),
        [b'b'] => numbered(64, NUMBERED, NUMBERED, false),
        [b'c'] => numbered(64, NUMBERED, 66, false),
        [b'd'] => numbered(0, 65, 10, true),
        [b'e'] => numbered(0, 64, NUMBERED, false),
        [b'f'] => numbered(60, NUMBERED, NUMBERED, false),
        _ => None,
    }
}

fn numbered_page(alloc: Global, range: &Range) -> Result<Page, Memory> {
    let mut all = Vec::new(alloc);
    for number in range.first..range.end {
        if number != range.without {
            all.push(numbered_point(alloc, number)?)?;
        }
    }
    let next = match range.end.checked_sub(1) {
        Some(last) if range.goes_on => Some(numbered_key(alloc, last)?),
        _ => None,
    };
    Ok(Page {
        points: Seq::from_vec(all),
        next,
    })
}

pub fn page(alloc: Global, letters: &[u8]) -> Result<Page, Memory> {
    match range_of(letters) {
        Some(range) => numbered_page(alloc, &range),
        None => Ok(Page {
            points: points(alloc, letters)?,
            next: None,
        }),
    }
}

/// The key with which such a page is asked for.
pub fn page_after(alloc: Global, letters: &[u8]) -> Result<Option<Key>, Memory> {
    let Some(range) = range_of(letters) else {
        return Ok(None);
    };
    match range.first.checked_sub(1) {
        Some(last) => Ok(Some(numbered_key(alloc, last)?)),
        None => Ok(None),
    }
}
