//! Answers as texts.
use crate::words::letter_of;
use m3_model::{
    Answer, Memory, Placement, Reason, Reply, Seq, Series, ShardState, Standing, StatusLine,
};

/// The letter of a node by its number.
pub fn letter_of_node(node: u8) -> char {
    match node {
        0 => 'a',
        1 => 'b',
        2 => 'c',
        3 => 'd',
        4 => 'e',
        _ => '?',
    }
}

/// The letter of a reason.
pub fn letter_of_reason(reason: &Reason) -> char {
    match reason {
        Reason::Cut => 'x',
        Reason::Down => '-',
        Reason::Boot => '^',
        Reason::Disk => '~',
        Reason::Past => '<',
        Reason::Future => '>',
        Reason::NotOwned => 'n',
        Reason::Stale { .. } => 's',
        _ => '?',
    }
}

// What marks a node whose replica joins its shard, or leaves it.
fn mark_of(state: ShardState) -> &'static str {
    match state {
        ShardState::Initializing => "+",
        ShardState::Available => "",
        ShardState::Leaving => "-",
    }
}

/// The version, and the nodes of each shard: `v1[abc]`. One that joins is marked by a plus, and one that leaves by a minus: `v2[a-bcd+]`.
pub fn spell_placement(out: &mut String, place: &Placement) -> Result<(), Memory> {
    let version = place.version;
    write!(out, "v{version}")?;
    for shard in place.shards.as_slice() {
        out.push('[')?;
        for assignment in shard.as_slice() {
            out.push(letter_of_node(assignment.node))?;
            out.push_str(mark_of(assignment.state))?;
        }
        out.push(']')?;
    }
    Ok(())
}

fn spell_series(out: &mut String, series: &Series) -> Result<(), Memory> {
    out.push(letter_of(series.id.as_str()))?;
    for (t, v) in series.points.as_slice() {
        write!(out, "{t}={v},")?;
    }
    Ok(())
}

/// Each series by its letter with its points, and whether the read came short: `u100=5,101=6,!`.
pub fn spell_found(out: &mut String, found: &[Series], short: bool) -> Result<(), Memory> {
    for series in found {
        spell_series(out, series)?;
    }
    out.push(if short { '!' } else { '.' })?;
    Ok(())
}

fn spell_nodes(out: &mut String, nodes: &[u8]) -> Result<(), Memory> {
    for node in nodes {
        out.push(letter_of_node(*node))?;
    }
    Ok(())
}

// How many answered of how many that were needed, and the others with their reasons: `1/2b-c-`, then a shard above 0. Where so few
// streamed that a replica couldn't join, a `p` comes first.
fn spell_refusal(
    out: &mut String,
    got: u32,
    needed: u32,
    reasons: &[(u8, Reason)],
    shard: u32,
) -> Result<(), Memory> {
    write!(out, "{got}/{needed}")?;
    for (node, reason) in reasons {
        out.push(letter_of_node(*node))?;
        out.push(letter_of_reason(reason))?;
    }
    if shard > 0 {
        write!(out, "#{shard}")?;
    }
    Ok(())
}

// The placement, and each shard that turned available with the nodes that streamed: `v3[bcd]0bc`.
fn spell_available(
    out: &mut String,
    place: &Placement,
    available: &[(u32, Seq<u8>)],
) -> Result<(), Memory> {
    spell_placement(out, place)?;
    for (shard, peers) in available {
        write!(out, "{shard}")?;
        spell_nodes(out, peers.as_slice())?;
    }
    Ok(())
}

fn spell_outcomes(out: &mut String, outcomes: &[(u8, u32, Option<Reason>)]) -> Result<(), Memory> {
    for (node, _, outcome) in outcomes {
        out.push(letter_of_node(*node))?;
        out.push(match outcome {
            None => '+',
            Some(reason) => letter_of_reason(reason),
        })?;
    }
    Ok(())
}

/// The nodes that did what was asked, with how much they did, and those that refused, with their reasons: `a1b0/c-`.
pub fn spell_swept(
    out: &mut String,
    done: &[(u8, u32, u64)],
    failed: &[(u8, u32, Reason)],
) -> Result<(), Memory> {
    for (node, _, count) in done {
        let letter = letter_of_node(*node);
        write!(out, "{letter}{count}")?;
    }
    out.push('/')?;
    for (node, _, reason) in failed {
        out.push(letter_of_node(*node))?;
        out.push(letter_of_reason(reason))?;
    }
    Ok(())
}

/// How a replica stands: of an open one its points in memory, its segments and its volumes, as `5.1.2`.
pub fn spell_standing(
    out: &mut String,
    standing: Standing,
    numbers: (u64, u64, u64),
) -> Result<(), Memory> {
    let (buffered, segments, volumes) = numbers;
    match standing {
        Standing::Open => write!(out, "{buffered}.{segments}.{volumes}")?,
        Standing::Boot => out.push('^')?,
        Standing::Down => out.push('-')?,
    }
    Ok(())
}

/// Each node with how its replica stands: `a5.1.2b-c^`.
pub fn spell_status(out: &mut String, lines: &[StatusLine]) -> Result<(), Memory> {
    for line in lines {
        out.push(letter_of_node(line.node))?;
        let numbers = (line.buffered, line.segments, line.volumes);
        spell_standing(out, line.standing, numbers)?;
    }
    Ok(())
}

// Answers that refuse a request as a whole.
fn spell_other(out: &mut String, answer: &Answer) -> Result<(), Memory> {
    match answer {
        Answer::Order => out.push_str("order")?,
        Answer::Unknown { name } => {
            out.push('?')?;
            out.push_str(name.as_str())?;
        }
        Answer::State { node } => {
            out.push('=')?;
            out.push_str(node.as_str())?;
        }
        Answer::Clock { now } => write!(out, "clock{now}")?,
        Answer::Limit { limit } => write!(out, "limit{limit}")?,
        Answer::Busy { node, shard } => {
            out.push('!')?;
            out.push_str(node.as_str())?;
            write!(out, "{shard}")?;
        }
        Answer::Group { shard } => write!(out, "group{shard}")?,
        Answer::Full => out.push_str("full")?,
        Answer::Memory => return Err(Memory),
        _ => out.push_str("other")?,
    }
    Ok(())
}

/// An answer. Want of memory is none, and is handed on.
pub fn spell(out: &mut String, answer: &Answer) -> Result<(), Memory> {
    match answer {
        Answer::Done => out.push_str("ok")?,
        Answer::Placed { placement, .. } => spell_placement(out, placement)?,
        Answer::Available {
            available,
            placement,
            ..
        } => spell_available(out, placement, available.as_slice())?,
        Answer::Acks { acks } => spell_nodes(out, acks.as_slice())?,
        Answer::Found { series, short } => spell_found(out, series.as_slice(), *short)?,
        Answer::Outcomes { outcomes } => spell_outcomes(out, outcomes.as_slice())?,
        Answer::Swept { done, failed } => spell_swept(out, done.as_slice(), failed.as_slice())?,
        Answer::Status { replicas, .. } => spell_status(out, replicas.as_slice())?,
        Answer::Consistency {
            got,
            needed,
            reasons,
            shard,
        } => spell_refusal(out, *got, *needed, reasons.as_slice(), *shard)?,
        Answer::Peers {
            got,
            needed,
            reasons,
            shard,
        } => {
            out.push('p')?;
            spell_refusal(out, *got, *needed, reasons.as_slice(), *shard)?
        }
        Answer::Disk { node, shard } => {
            out.push('~')?;
            out.push_str(node.as_str())?;
            write!(out, "{shard}")?;
        }
        _ => spell_other(out, answer)?,
    }
    Ok(())
}

/// A reply to one request.
pub fn spell_reply(out: &mut String, reply: &Reply) -> Result<(), Memory> {
    match reply {
        Reply::One(answer) => spell(out, answer),
        Reply::Par { .. } => Ok(out.push_str("par")?),
    }
}
