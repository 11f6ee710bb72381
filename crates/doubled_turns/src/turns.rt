//! What words add to the events once the cluster answered them, and what they are to be answered as far as the double tells that.
use crate::sessions::{deliver, read, write};
use crate::sweeps::{status, sweep};
use cluster_core::{Asked, Event};
use cluster_members::Members;
use cluster_members::of_replica_exchange::Slot;
use cluster_members::of_session_net::Net;
use cluster_words::{letter_of_node, spell_placement};
use m3_model::{Act, Duplicate, Matcher, Memory, Pick, Point, ReadLevel, Rules, Seq, Text};
use m3_outside::Disk;
use replica_doubles::{Change, Double, Job, Range};
use std::alloc::Global;

// ---- the opening and the rules

fn push_place<D: Disk>(alloc: Global, double: &mut Double<D>, net: &Net<D>) -> Result<(), Memory> {
    double.push(Event::Place {
        place: net.state.place.copy(alloc)?,
        done: Seq::new(alloc),
    })
}

fn push_clock<D: Disk>(alloc: Global, double: &mut Double<D>, rules: &Rules) -> Result<(), Memory> {
    double.push(Event::Clock {
        rules: rules.copy(alloc)?,
    })
}

fn ask_clock<D: Disk>(alloc: Global, double: &mut Double<D>, rules: &Rules) -> Result<(), Memory> {
    double.push(Event::Ask {
        asked: Asked::Clock {
            rules: rules.copy(alloc)?,
        },
    })
}

fn begin_of<D: Disk>(net: &Net<D>) -> Change {
    Change::Begin {
        tenure: net.state.place.version,
    }
}

/// The events of a cluster that was just made: its placement and its rules, and the begins of its replicas, each of which has the
/// placement's version as its tenure.
pub fn open<D: Disk>(
    alloc: Global,
    double: &mut Double<D>,
    members: &Members<D>,
) -> Result<(), Memory> {
    push_place(alloc, double, &members.net)?;
    push_clock(alloc, double, &members.net.state.rules)?;
    for slot in members.slots.as_slice() {
        double.change(*slot, begin_of(&members.net))?;
    }
    Ok(())
}

// ---- calls of clients

fn space_at(rules: &Rules, name: &Text) -> Option<u8> {
    let spaces = rules.spaces.as_slice();
    let position = spaces
        .iter()
        .position(|space| space.name.equals(name.as_str()))?;
    u8::try_from(position).ok()
}

// Each of these tells whether there is the namespace.
fn keep_write<D: Disk>(
    alloc: Global,
    double: &mut Double<D>,
    net: &Net<D>,
    number: u64,
    act: &Act,
    own: &mut String,
) -> Result<bool, Memory> {
    let Act::Write {
        ns,
        id,
        t,
        v,
        level,
        ..
    } = act
    else {
        return Ok(false);
    };
    let Some(ns) = space_at(&net.state.rules, ns) else {
        return Ok(false);
    };
    let point = Point {
        ns,
        id: id.copy(alloc)?,
        t: *t,
        v: *v,
    };
    let said = write(alloc, double, net, number, &point, *level, own);
    drop(point);
    said?;
    Ok(true)
}

fn keep_pick<D: Disk>(
    alloc: Global,
    double: &mut Double<D>,
    net: &Net<D>,
    number: u64,
    pick: Pick,
    range: Range,
    level: ReadLevel,
    own: &mut String,
) -> Result<bool, Memory> {
    let said = read(alloc, double, net, number, &pick, range, level, own);
    drop(pick);
    said?;
    Ok(true)
}

fn pick_one(alloc: Global, rules: &Rules, ns: &Text, id: &Text) -> Result<Option<Pick>, Memory> {
    match space_at(rules, ns) {
        Some(ns) => Ok(Some(Pick::One {
            ns,
            id: id.copy(alloc)?,
        })),
        None => Ok(None),
    }
}

fn pick_all(
    alloc: Global,
    rules: &Rules,
    ns: &Text,
    wanted: &Seq<Matcher>,
) -> Result<Option<Pick>, Memory> {
    match space_at(rules, ns) {
        Some(ns) => Ok(Some(Pick::Match {
            ns,
            wanted: wanted.copy(alloc)?,
        })),
        None => Ok(None),
    }
}

fn pick_of(alloc: Global, rules: &Rules, act: &Act) -> Result<Option<Pick>, Memory> {
    match act {
        Act::Fetch { ns, id, .. } => pick_one(alloc, rules, ns, id),
        Act::Match { ns, wanted, .. } => pick_all(alloc, rules, ns, wanted),
        _ => Ok(None),
    }
}

fn range_of(act: &Act) -> (Range, ReadLevel) {
    match act {
        Act::Fetch {
            from,
            to,
            level,
            ..
        }
        | Act::Match {
            from,
            to,
            level,
            ..
        } => {
            (
                Range {
                    from: *from,
                    to: *to,
                },
                *level,
            )
        }
        _ => (Range { from: 0, to: 0 }, ReadLevel::One),
    }
}

fn keep_read<D: Disk>(
    alloc: Global,
    double: &mut Double<D>,
    net: &Net<D>,
    number: u64,
    act: &Act,
    own: &mut String,
) -> Result<bool, Memory> {
    let (range, level) = range_of(act);
    match pick_of(alloc, &net.state.rules, act)? {
        Some(pick) => keep_pick(alloc, double, net, number, pick, range, level, own),
        None => Ok(false),
    }
}

// ---- what befalls nodes

fn node_of(name: &Text) -> u8 {
    match name.as_str() {
        "a" => 0,
        "b" => 1,
        "c" => 2,
        _ => 3,
    }
}

// Whether the slot is that of the node for the shard that is asked for, or for any.
fn is_called(slot: Slot, node: u8, asked: Option<u32>) -> bool {
    slot.node == node
        && match asked {
            Some(shard) => slot.shard == shard,
            None => true,
        }
}

// A fault, damage or want of memory ends the calls of a node.
fn ends_calls(why: Option<char>) -> bool {
    matches!(why, Some('~' | '?'))
}

// Changes the replicas of a node: all, or that of one shard. Gives the shard of the first that refuses for a reason that ends it, and
// the later ones aren't called then.
fn change_node<D: Disk>(
    double: &mut Double<D>,
    slots: &[Slot],
    node: u8,
    asked: Option<u32>,
    change: Change,
) -> Result<Option<u32>, Memory> {
    for slot in slots {
        if !is_called(*slot, node, asked) {
            continue;
        }
        double.change(*slot, change)?;
        if ends_calls(double.refusal()) {
            return Ok(Some(slot.shard));
        }
    }
    Ok(None)
}

fn push_fault(own: &mut String, node: u8, shard: u32) -> Result<(), Memory> {
    let letter = letter_of_node(node);
    write!(own, "~{letter}{shard}")?;
    Ok(())
}

// Where a replica can't be restarted all of the node are stopped.
fn restart_node<D: Disk>(
    double: &mut Double<D>,
    slots: &[Slot],
    node: u8,
    pick: u64,
    own: &mut String,
) -> Result<(), Memory> {
    match change_node(double, slots, node, None, Change::Restart { pick })? {
        Some(shard) => {
            change_node(double, slots, node, None, Change::Stop)?;
            push_fault(own, node, shard)
        }
        None => Ok(own.push_str("ok")?),
    }
}

fn begin_node<D: Disk>(
    double: &mut Double<D>,
    members: &Members<D>,
    node: u8,
    asked: Option<u32>,
    own: &mut String,
) -> Result<(), Memory> {
    let slots = members.slots.as_slice();
    match change_node(double, slots, node, asked, begin_of(&members.net))? {
        Some(shard) => push_fault(own, node, shard),
        None => spell_placement(own, &members.net.state.place),
    }
}

// ---- words

fn keep_rules<D: Disk>(
    alloc: Global,
    double: &mut Double<D>,
    rules: &Rules,
    own: &mut String,
) -> Result<(), Memory> {
    ask_clock(alloc, double, rules)?;
    push_clock(alloc, double, rules)?;
    Ok(own.push_str("ok")?)
}

fn stop_node<D: Disk>(
    double: &mut Double<D>,
    slots: &[Slot],
    node: u8,
    own: &mut String,
) -> Result<(), Memory> {
    change_node(double, slots, node, None, Change::Stop)?;
    Ok(own.push_str("ok")?)
}

// What befalls nodes, late writes and the rules. A node that isn't there, or stands otherwise, was refused as a whole.
fn keep_change<D: Disk>(
    alloc: Global,
    double: &mut Double<D>,
    members: &Members<D>,
    act: &Act,
    told: &str,
    own: &mut String,
) -> Result<(), Memory> {
    let is_made = !told.starts_with('?') && !told.starts_with('=');
    let slots = members.slots.as_slice();
    match act {
        Act::Deliver => deliver(alloc, double, &members.net, own),
        Act::Restart { node, pick } if is_made => {
            restart_node(double, slots, node_of(node), *pick, own)
        }
        Act::Bootstrap { node, shard } if is_made => {
            begin_node(double, members, node_of(node), *shard, own)
        }
        Act::Stop { node } if is_made => stop_node(double, slots, node_of(node), own),
        Act::Tick => sweep(
            alloc,
            double,
            slots,
            Job::Tick,
            &members.net.state.rules,
            own,
        ),
        Act::Flush => sweep(
            alloc,
            double,
            slots,
            Job::Flush,
            &members.net.state.rules,
            own,
        ),
        Act::Status => status(double, slots, own),
        Act::Now { .. } | Act::Namespace { .. } if told == "ok" => {
            keep_rules(alloc, double, &members.net.state.rules, own)
        }
        _ => Ok(own.push_str(told)?),
    }
}

/// Keeps the events of a word that was answered so, and spells what the double has for its answer: the same, where the word made no
/// event.
pub fn keep<D: Disk>(
    alloc: Global,
    double: &mut Double<D>,
    members: &Members<D>,
    number: u64,
    act: &Act,
    told: &str,
    own: &mut String,
) -> Result<(), Memory> {
    let net = &members.net;
    let is_kept = keep_write(alloc, double, net, number, act, own)?
        || keep_read(alloc, double, net, number, act, own)?;
    if is_kept {
        return Ok(());
    }
    keep_change(alloc, double, members, act, told, own)
}
