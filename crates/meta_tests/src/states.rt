//! States as texts: what is read of some bytes.
use m3_model::{Assignment, Instance, Memory, MetaState, Placement, ShardState, Space};
use meta_bytes::{StateErr, is_meta_state, read_state, spell_state};
use std::alloc::Global;

fn tell_nodes(nodes: &[Instance], out: &mut String) -> Result<(), Memory> {
    for (position, node) in nodes.iter().enumerate() {
        out.push_str(if position == 0 { ": " } else { ", " })?;
        write!(out, "{} {} ", node.name.as_str(), node.group.as_str())?;
        write!(out, "{} {}", node.listed, node.drained)?;
    }
    Ok(())
}

fn letter(state: ShardState) -> char {
    match state {
        ShardState::Initializing => 'I',
        ShardState::Available => 'A',
        ShardState::Leaving => 'L',
    }
}

fn tell_shard(shard: &[Assignment], out: &mut String) -> Result<(), Memory> {
    for (position, one) in shard.iter().enumerate() {
        out.push_str(if position == 0 { "; " } else { ", " })?;
        write!(out, "{} {} {}", one.node, one.tenure, letter(one.state))?;
        if let Some(source) = one.source {
            write!(out, " {source}")?;
        }
    }
    Ok(())
}

fn tell_spaces(spaces: &[Space], out: &mut String) -> Result<(), Memory> {
    for space in spaces {
        write!(out, "; {} {} ", space.name.as_str(), space.block)?;
        write!(out, "{} {} {}", space.past, space.future, space.retention)?;
    }
    Ok(())
}

fn tell_place(place: &Placement, out: &mut String) -> Result<(), Memory> {
    write!(out, "rf {} version {}", place.rf, place.version)?;
    tell_nodes(place.instances.as_slice(), out)?;
    for shard in place.shards.as_slice() {
        tell_shard(shard.as_slice(), out)?;
    }
    Ok(())
}

// Whether a cluster may have the state, and it has just these bytes.
fn is_spelled(alloc: Global, state: &MetaState, bytes: &[u8]) -> Result<bool, Memory> {
    if !is_meta_state(state) {
        return Ok(false);
    }
    let again = spell_state(alloc, state)?;
    Ok(again.as_slice() == bytes)
}

fn tell_state(state: &MetaState, out: &mut String) -> Result<(), Memory> {
    write!(out, "now {} seed {} ", state.rules.now, state.seed)?;
    tell_place(&state.place, out)?;
    tell_spaces(state.rules.spaces.as_slice(), out)
}

/// Tells the state that the bytes are: each node with its group, whether it is listed and whether it is drained, each assignment
/// with its node, its tenure, the letter of its state and its source, and each namespace with its durations. Or why there is none.
pub fn tell_bytes(alloc: Global, bytes: &[u8], out: &mut String) -> Result<(), Memory> {
    match read_state(alloc, bytes) {
        Ok(state) => {
            tell_state(&state, out)?;
            if !is_spelled(alloc, &state, bytes)? {
                out.push_str(", which is spelled otherwise")?;
            }
        }
        Err(StateErr::Memory) => return Err(Memory),
        Err(StateErr::Form { at }) => write!(out, "form at {at}")?,
        Err(StateErr::Rules) => out.push_str("rules")?,
    }
    Ok(())
}
