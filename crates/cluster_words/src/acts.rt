//! Requests from the words of a story.
ghost use Rattle.std.specs.Prelude.{◌≤◌, IfOk};
ghost use Rattle.cluster_words.specs.Asks.{MayAsk};

use crate::lists::{fates, one_matcher, three_nodes};
use crate::words::{identifier, name, number, read_level, text, value, write_level};
use m3_model::{Act, Memory};
use std::alloc::Global;

// `i4` is of three nodes and 4 shards.
fn init(alloc: Global, shards: u8) -> Result<Act, Memory>
    ensures { IfOk result MayAsk }
{
    let nodes = three_nodes(alloc)?;
    Ok(Act::Init {
        rf: 3,
        shards: (shards & 15).max(1) as u32,
        seed: 0,
        nodes,
    })
}

// A window of 50 on both sides and a retention of 60; that of `n` is 20 and 30.
fn namespace(alloc: Global, letter: u8) -> Result<Act, Memory>
    ensures { IfOk result MayAsk }
{
    let name = name(alloc, letter)?;
    if letter == b'n' {
        return Ok(Act::Namespace {
            name,
            block: 30,
            past: 20,
            future: 20,
            retention: 30,
        });
    }
    Ok(Act::Namespace {
        name,
        block: 60,
        past: 50,
        future: 50,
        retention: 60,
    })
}

// `wmuA100=5` writes 5 at 100 to the series u of m, at level All.
fn write(alloc: Global, ns: u8, series: u8, level: u8, rest: &str) -> Result<Act, Memory>
    ensures { IfOk result MayAsk }
{
    let (t, v) = rest.split_once('=').unwrap_or((rest, ""));
    let ns = name(alloc, ns)?;
    let id = identifier(alloc, series)?;
    Ok(Act::Write {
        ns,
        id,
        t: number(t),
        v: value(v),
        level: write_level(level),
        version: None,
    })
}

// All times, or those of a range, as `100-101`.
fn range(rest: &str) -> (u64, u64)
    ensures from { result.0 ≤ 1000 }
    ensures to { result.1 ≤ 1000 }
{
    match rest.split_once('-') {
        Some((from, to)) => (number(from), number(to)),
        None => (0, 1000),
    }
}

// `rmuM` fetches the series u of m at level Majority, and `rmuM100-101` what it has from 100 to 100.
fn fetch(alloc: Global, ns: u8, series: u8, level: u8, rest: &str) -> Result<Act, Memory>
    ensures { IfOk result MayAsk }
{
    let (from, to) = range(rest);
    let ns = name(alloc, ns)?;
    let id = identifier(alloc, series)?;
    Ok(Act::Fetch {
        ns,
        id,
        from,
        to,
        level: read_level(level),
        version: None,
    })
}

// `qm=M` finds the series of m whose tag `dc` is x, and `qm!M` all others.
fn find(alloc: Global, ns: u8, sign: u8, level: u8, rest: &str) -> Result<Act, Memory>
    ensures { IfOk result MayAsk }
{
    let (from, to) = range(rest);
    let ns = name(alloc, ns)?;
    let wanted = one_matcher(alloc, sign == b'=')?;
    Ok(Act::Match {
        ns,
        wanted,
        from,
        to,
        level: read_level(level),
        version: None,
    })
}

// `+d4` adds d in the group 4, `-a` drains a, `~d` cancels the moves to d, `/d` removes d, and `%ad1` replaces a by d in the group 1. Any
// other word is a call.
fn change(alloc: Global, word: &[u8]) -> Result<Act, Memory>
    ensures { IfOk result MayAsk }
{
    match word {
        [b'+', node, group] => {
            let node = name(alloc, *node)?;
            let group = name(alloc, *group)?;
            Ok(Act::Add { node, group })
        }
        [b'-', node] => Ok(Act::Drain {
            node: name(alloc, *node)?,
        }),
        [b'~', node] => Ok(Act::Cancel {
            node: name(alloc, *node)?,
        }),
        [b'/', node] => Ok(Act::Remove {
            node: name(alloc, *node)?,
        }),
        [b'%', node, by, group] => {
            let node = name(alloc, *node)?;
            let by = name(alloc, *by)?;
            let group = name(alloc, *group)?;
            Ok(Act::Replace { node, by, group })
        }
        other => call(alloc, other),
    }
}

// Writes, fetches and matches; `Deliver` for any other word.
fn call(alloc: Global, word: &[u8]) -> Result<Act, Memory>
    ensures { IfOk result MayAsk }
{
    match word {
        [b'w', ns, series, level, rest @ ..] => write(alloc, *ns, *series, *level, text(rest)),
        [b'r', ns, series, level, rest @ ..] => fetch(alloc, *ns, *series, *level, text(rest)),
        [b'q', ns, sign, level, rest @ ..] => find(alloc, *ns, *sign, *level, text(rest)),
        _ => Ok(Act::Deliver),
    }
}

fn stop(alloc: Global, node: u8) -> Result<Act, Memory>
    ensures { IfOk result MayAsk }
{
    Ok(Act::Stop {
        node: name(alloc, node)?,
    })
}

// `ba7` restarts a with the pick 7.
fn restart(alloc: Global, node: u8, pick: &str) -> Result<Act, Memory>
    ensures { IfOk result MayAsk }
{
    Ok(Act::Restart {
        node: name(alloc, node)?,
        pick: number(pick),
    })
}

// `oa` opens all replicas of a, and `oa0` that of shard 0.
fn bootstrap(alloc: Global, node: u8, shard: &str) -> Result<Act, Memory>
    ensures { IfOk result MayAsk }
{
    let asked = if shard.is_empty() {
        None
    } else {
        Some(number(shard).min(63) as u32)
    };
    Ok(Act::Bootstrap {
        node: name(alloc, node)?,
        shard: asked,
    })
}

fn set_fates(alloc: Global, list: &str) -> Result<Act, Memory>
    ensures { IfOk result MayAsk }
{
    Ok(Act::Fates {
        list: fates(alloc, list)?,
    })
}

// Upkeep: `k` ticks, `l` flushes and `u` asks how all replicas stand. Any other word changes the placement, or is a call.
fn upkeep(alloc: Global, word: &[u8]) -> Result<Act, Memory>
    ensures { IfOk result MayAsk }
{
    match word {
        [b'k'] => Ok(Act::Tick),
        [b'l'] => Ok(Act::Flush),
        [b'u'] => Ok(Act::Status),
        other => change(alloc, other),
    }
}

/// What a word asks for.
pub fn act_of(alloc: Global, word: &str) -> Result<Act, Memory>
    ensures { IfOk result MayAsk }
{
    match word.as_bytes() {
        [b'i', shards] => init(alloc, *shards),
        [b'n', name] => namespace(alloc, *name),
        [b't', moment @ ..] => Ok(Act::Now {
            now: number(text(moment)),
        }),
        [b'f', list @ ..] => set_fates(alloc, text(list)),
        [b's', node] => stop(alloc, *node),
        [b'b', node, pick @ ..] => restart(alloc, *node, text(pick)),
        [b'o', node, shard @ ..] => bootstrap(alloc, *node, text(shard)),
        other => upkeep(alloc, other),
    }
}
