//! What calls of clients and late writes add to the events, and what they are answered: by the rules, the placement and the fates that
//! the cluster goes by, and by the replies of the double.
use cluster_core::Event;
use cluster_members::of_replica_exchange::CallId;
use cluster_members::of_session_net::{Net, fate_to};
use cluster_words::{letter_of_node, spell_found};
use m3_model::{Duplicate, Fate, Memory, Pick, Point, ReadLevel, WriteLevel};
use m3_outside::Disk;
use net_plan::LateWrite;
use quorum_count::{majority, needed_read, needed_write};
use replica_doubles::{Double, NODES, Range, Sending, space_of};
use series_id::shard_of;
use std::alloc::Global;
use std::mem::replace;

// A message that isn't delivered has no answer, by the letter of its reason.
const CUT: Option<char> = Some('x');

fn fate_of<D: Disk>(net: &Net<D>, sending: Sending, node: u8) -> Fate {
    let call = CallId {
        client: 0,
        number: sending.number,
    };
    fate_to(&net.fates, call, node)
}

fn shard_in<D: Disk>(net: &Net<D>, id: &str) -> u32 {
    shard_of(id, net.state.seed, net.state.place.shards.len() as u32)
}

fn sending_to<D: Disk>(net: &Net<D>, number: u64, shard: u32) -> Sending {
    Sending {
        number,
        shard,
        version: net.state.place.version,
    }
}

// ---- writes

fn hold_back<D: Disk>(
    alloc: Global,
    double: &mut Double<D>,
    sending: Sending,
    node: u8,
    point: &Point,
) -> Result<(), Memory> {
    let point = point.copy(alloc)?;
    double.late.push(LateWrite {
        client: 0,
        number: sending.number,
        node,
        shard: sending.shard,
        version: sending.version,
        point,
    })?;
    Ok(())
}

// Of a message that is delivered twice the first answer is heard.
fn send_put<D: Disk>(
    alloc: Global,
    double: &mut Double<D>,
    net: &Net<D>,
    sending: Sending,
    node: u8,
    point: &Point,
) -> Result<(), Memory> {
    let rules = &net.state.rules;
    match fate_of(net, sending, node) {
        Fate::Lose => double.heard.add(node, CUT),
        Fate::Late => {
            hold_back(alloc, double, sending, node, point)?;
            double.heard.add(node, CUT)
        }
        Fate::Deliver => {
            double.put(alloc, sending, node, rules, point)?;
            double.hear(node)
        }
        Fate::Twice => {
            double.put(alloc, sending, node, rules, point)?;
            double.hear(node)?;
            double.put(alloc, sending, node, rules, point)
        }
    }
}

fn push_send<D: Disk>(
    alloc: Global,
    double: &mut Double<D>,
    sending: Sending,
    point: &Point,
) -> Result<(), Memory> {
    double.push(Event::Send {
        version: sending.version,
        shard: sending.shard,
        point: point.copy(alloc)?,
    })
}

/// A write: its Send, the messages, and an Ack where enough nodes answered.
pub fn write<D: Disk>(
    alloc: Global,
    double: &mut Double<D>,
    net: &Net<D>,
    number: u64,
    point: &Point,
    level: WriteLevel,
    out: &mut String,
) -> Result<(), Memory> {
    let sending = sending_to(net, number, shard_in(net, point.id.as_str()));
    let send = double.events.len() as u64;
    push_send(alloc, double, sending, point)?;
    double.heard.begin_shard(alloc);
    for node in 0..NODES {
        send_put(alloc, double, net, sending, node, point)?;
    }
    let needed = needed_write(level, net.state.place.rf);
    if double.heard.is_below(needed) {
        return double.heard.spell_short(needed, sending.shard, out);
    }
    out.push_str(double.heard.answered.as_str())?;
    let nodes = double.heard.nodes(alloc)?;
    double.push(Event::Ack { send, nodes })
}

fn deliver_one<D: Disk>(
    alloc: Global,
    double: &mut Double<D>,
    net: &Net<D>,
    late: &LateWrite,
    out: &mut String,
) -> Result<(), Memory> {
    let sending = Sending {
        number: late.number,
        shard: late.shard,
        version: late.version,
    };
    double.put(alloc, sending, late.node, &net.state.rules, &late.point)?;
    out.push(letter_of_node(late.node))?;
    Ok(out.push(double.refusal().unwrap_or('+'))?)
}

fn deliver_all<D: Disk>(
    alloc: Global,
    double: &mut Double<D>,
    net: &Net<D>,
    late: &[LateWrite],
    out: &mut String,
) -> Result<(), Memory> {
    for one in late {
        deliver_one(alloc, double, net, one, out)?;
    }
    Ok(())
}

/// All late writes are delivered.
pub fn deliver<D: Disk>(
    alloc: Global,
    double: &mut Double<D>,
    net: &Net<D>,
    out: &mut String,
) -> Result<(), Memory> {
    let late = replace(&mut double.late, Vec::new(alloc));
    let said = deliver_all(alloc, double, net, late.as_slice(), out);
    drop(late);
    said
}

// ---- reads

fn send_read<D: Disk>(
    alloc: Global,
    double: &mut Double<D>,
    net: &Net<D>,
    sending: Sending,
    node: u8,
    pick: &Pick,
    range: Range,
) -> Result<(), Memory> {
    let rules = &net.state.rules;
    let fate = fate_of(net, sending, node);
    if fate == Fate::Lose || fate == Fate::Late {
        return double.heard.add(node, CUT);
    }
    double.read(alloc, sending, node, rules, pick, range)?;
    double.hear(node)?;
    double.join_found(space_of(pick))?;
    if fate == Fate::Twice {
        double.read(alloc, sending, node, rules, pick, range)?;
    }
    Ok(())
}

fn push_start<D: Disk>(
    alloc: Global,
    double: &mut Double<D>,
    net: &Net<D>,
    sending: Sending,
    pick: &Pick,
    range: Range,
) -> Result<(), Memory> {
    double.push(Event::FetchStart {
        version: sending.version,
        shard: sending.shard,
        rules: net.state.rules.copy(alloc)?,
        pick: pick.copy(alloc)?,
        from: range.from,
        to: range.to,
    })
}

// The FetchDone of the FetchStart at this position.
fn push_done<D: Disk>(
    alloc: Global,
    double: &mut Double<D>,
    start: u64,
    ns: u8,
    to: u64,
) -> Result<(), Memory> {
    let nodes = double.heard.nodes(alloc)?;
    let series = double.heard.found_below(alloc, ns, to)?;
    double.push(Event::FetchDone {
        start,
        nodes,
        series,
    })
}

// The read of one shard, and whether enough nodes answered.
fn read_shard<D: Disk>(
    alloc: Global,
    double: &mut Double<D>,
    net: &Net<D>,
    sending: Sending,
    pick: &Pick,
    range: Range,
    needed: u32,
) -> Result<bool, Memory> {
    let start = double.events.len() as u64;
    push_start(alloc, double, net, sending, pick, range)?;
    double.heard.begin_shard(alloc);
    for node in 0..NODES {
        send_read(alloc, double, net, sending, node, pick, range)?;
    }
    if double.heard.is_below(needed) {
        return Ok(false);
    }
    push_done(alloc, double, start, space_of(pick), range.to)?;
    Ok(true)
}

// Whether the read asks the shard: that of its identifier, or each where matchers pick.
fn is_asked<D: Disk>(net: &Net<D>, pick: &Pick, shard: u32) -> bool {
    match pick {
        Pick::One { id, .. } => shard_in(net, id.as_str()) == shard,
        Pick::Match { .. } => true,
    }
}

fn spell_all<D: Disk>(
    alloc: Global,
    double: &Double<D>,
    ns: u8,
    to: u64,
    is_short: bool,
    out: &mut String,
) -> Result<(), Memory> {
    let series = double.heard.all_below(alloc, ns, to)?;
    let said = spell_found(out, series.as_slice(), is_short);
    drop(series);
    said
}

/// A read: of each shard that is asked its FetchStart, the messages, and a FetchDone, up to one of which too few answered.
pub fn read<D: Disk>(
    alloc: Global,
    double: &mut Double<D>,
    net: &Net<D>,
    number: u64,
    pick: &Pick,
    range: Range,
    level: ReadLevel,
    out: &mut String,
) -> Result<(), Memory> {
    let needed = needed_read(level, net.state.place.rf);
    let most = majority(net.state.place.rf);
    let mut is_whole = true;
    double.heard.begin_call(alloc);
    for shard in 0..net.state.place.shards.len() as u32 {
        if !is_asked(net, pick, shard) {
            continue;
        }
        let sending = sending_to(net, number, shard);
        if !read_shard(alloc, double, net, sending, pick, range, needed)? {
            return double.heard.spell_short(needed, shard, out);
        }
        is_whole = is_whole && !double.heard.is_below(most);
    }
    let is_short = level == ReadLevel::Unstrict && !is_whole;
    spell_all(alloc, double, space_of(pick), range.to, is_short, out)
}
