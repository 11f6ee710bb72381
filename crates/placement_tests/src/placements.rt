use m3_model::{Assignment, Instance, Memory, Placement, Seq, ShardState, Text};
use placement_core::{counted, former, is_lawful, members};
use placement_steps::is_step;
use std::alloc::Global;
use std::test::Fail;

fn digit(byte: u8) -> u8 {
    byte & 15
}

// A node, its state, its tenure, and a source where there is one: `3I20`.
fn assignment(word: &str) -> Option<Assignment> {
    let (node, state, tenure, source) = match word.as_bytes() {
        [node, state, tenure] => (*node, *state, *tenure, None),
        [node, state, tenure, source] => (*node, *state, *tenure, Some(digit(*source))),
        _ => return None,
    };
    Some(Assignment {
        node: digit(node),
        tenure: digit(tenure) as u64,
        state: match state {
            b'I' => ShardState::Initializing,
            b'L' => ShardState::Leaving,
            _ => ShardState::Available,
        },
        source,
    })
}

fn shard(alloc: Global, text: &str) -> Result<Seq<Assignment>, Memory> {
    let mut all = Vec::new(alloc);
    for word in text.split(' ') {
        if let Some(assigned) = assignment(word) {
            all.push(assigned)?;
        }
    }
    Ok(Seq::from_vec(all))
}

// A name, with its isolation group where that isn't named the same: `a` or `d=a`; `!a` isn't listed.
fn instances(alloc: Global, names: &str) -> Result<Seq<Instance>, Memory> {
    let mut all = Vec::new(alloc);
    for word in names.split(' ') {
        let (listed, word) = match word.strip_prefix('!') {
            Some(word) => (false, word),
            None => (true, word),
        };
        let (name, group) = word.split_once('=').unwrap_or((word, word));
        all.push(Instance {
            name: Text::from_str(alloc, name)?,
            group: Text::from_str(alloc, group)?,
            listed,
            drained: false,
        })?;
    }
    Ok(Seq::from_vec(all))
}

// Version and `rf`, names and shards: `12|a b c|0A1 1A1/1A1 2A1`.
fn placement(alloc: Global, text: &str) -> Result<Placement, Memory> {
    let (numbers, rest) = text.split_once('|').unwrap_or(("", ""));
    let (names, shards) = rest.split_once('|').unwrap_or(("", ""));
    let (version, rf) = match numbers.as_bytes() {
        [version, rf] => (digit(*version), digit(*rf)),
        _ => (0, 0),
    };
    let mut all = Vec::new(alloc);
    for one in shards.split('/') {
        all.push(shard(alloc, one)?)?;
    }
    Ok(Placement {
        version: version as u64,
        rf: rf as u32,
        instances: instances(alloc, names)?,
        shards: Seq::from_vec(all),
    })
}

fn done_list(alloc: Global, text: &str) -> Result<Vec<(u32, u8)>, Memory> {
    let mut all = Vec::new(alloc);
    for word in text.split(' ') {
        if let [shard, node] = word.as_bytes() {
            all.push((digit(*shard) as u32, digit(*node)))?;
        }
    }
    Ok(all)
}

// Whether it is a step, the old placement, the next one, and the done list.
const STEPS: &str = "yes>12|a b c d|0A1 1A1/1A1 2A1>22|a b c d|0A1 1A1/1A1 2A1>
yes>12|a b c d|0A1 1A1/1A1 2A1>22|a b c d e|0L1 1A1 2I20/1A1 2A1>
yes>12|a b c d|0A1 1A1/1A1 2A1>22|a b c d|0L1 1A1 2I20/1L1 2A1 3I21>
no>12|a b c d|0A1 1A1/1A1 2A1>12|a b c d|0A1 1A1/1A1 2A1>
no>12|a b c d|0A1 1A1/1A1 2A1>32|a b c d|0A1 1A1/1A1 2A1>
no>12|a b c d|0A1 1A1/1A1 2A1>23|a b c d|0A1 1A1/1A1 2A1>
no>12|a b c d|0A1 1A1/1A1 2A1>22|a x c d|0A1 1A1/1A1 2A1>
no>12|a b c d|0A1 1A1/1A1 2A1>22|a b c|0A1 1A1/1A1 2A1>
no>12|a b c d|0A1 1A1/1A1 2A1>22|a b c d|0A1 1A1>
no>12|a b c d|0A1 1A1/1A1 2A1>22|a b c d|0A1 1A1/1A1 2A1/0A1 1A1>
no>12|a b c d|0A1 1A1/1A1 2A1>22|a b c d|0A2 1A1/1A1 2A1>
no>12|a b c d|0A1 1A1/1A1 2A1>22|a b c d|0A1 2A1/1A1 2A1>
no>12|a b c d|0A1 1A1/1A1 2A1>22|a b c d|1A1 0A1/1A1 2A1>
no>12|a b c d|0A1 1A1/1A1 2A1>22|a b c d|0L1 1A1 2I10/1A1 2A1>
no>12|a b c d|0A1 1A1/1A1 2A1>22|a b c d|2I20 0L1 1A1/1A1 2A1>
no>12|a b c d|0A1 1A1/1A1 2A1>22|a b c d|0L1 1A1 1I20/1A1 2A1>
no>12|a b c d|0A1 1A1/1A1 2A1>22|a b c d|0L1 1A1 2I2/1A1 2A1>
no>12|a b c d|0A1 1A1/1A1 2A1>22|a b c d|0L1 1A1 2I21/1A1 2A1>
no>12|a b c d|0A1 1A1/1A1 2A1>22|a b c d|0L1 1L1 2I20 3I21/1A1 2A1>
yes>22|a b c d|0L1 1A1 2I20/1L1 2A1 3I21>32|a b c d|1A1 2A2/1L1 2A1 3I21>02
yes>22|a b c d|0L1 1A1 2I20/1L1 2A1 3I21>32|a b c d|1A1 2A2/2A1 3A2>02 13
yes>22|a b c d|0L1 1A1 2I20/1L1 2A1 3I21>32|a b c d|0A1 1A1/1L1 2A1 3I21>
yes>22|a b c d|0L1 1A1 2I20/1L1 2A1 3I21>32|a b c d|0A1 1A1/2A1 3A2>13
no>22|a b c d|0L1 1A1 2I20/1L1 2A1 3I21>32|a b c d|1A1 2A2/1L1 2A1 3I21>
no>22|a b c d|0L1 1A1 2I20/1L1 2A1 3I21>32|a b c d|1A1 2A2/1L1 2A1 3I21>03
no>22|a b c d|0L1 1A1 2I20/1L1 2A1 3I21>32|a b c d|1A1 2A2/2A1 3A2>13 02
no>22|a b c d|0L1 1A1 2I20/1L1 2A1 3I21>32|a b c d|1A1 2A2/2A1 3A2>02 02 13
no>22|a b c d|0L1 1A1 2I20/1L1 2A1 3I21>32|a b c d|1A1 2A2/2A1 3A2>02 13 22
no>22|a b c d|0L1 1A1 2I20/1L1 2A1 3I21>32|a b c d|0A1 1A1/1L1 2A1 3I21>02
no>22|a b c d|0L1 1A1 2I20/1L1 2A1 3I21>32|a b c d|0L1 1L1 2I20 3I31/1L1 2A1 3I21>
no>22|a b c d|0L1 1A1 2I20/1L1 2A1 3I21>32|a b c d|2A2 1A1/1L1 2A1 3I21>02
no>22|a b c d|0L1 1A1 2I20/1L1 2A1 3I21>32|a b c d|1A1 2A20/1L1 2A1 3I21>02";

fn is_step_to(alloc: Global, old: &Placement, next: &str, done: &str) -> Result<bool, Memory> {
    let done = done_list(alloc, done)?;
    let next = placement(alloc, next)?;
    Ok(is_step(old, &next, &done))
}

fn is_listed_step(alloc: Global, row: &str) -> Result<bool, Memory> {
    let (old, rest) = row.split_once('>').unwrap_or(("", ""));
    let (next, done) = rest.split_once('>').unwrap_or(("", ""));
    let old = placement(alloc, old)?;
    is_step_to(alloc, &old, next, done)
}

#[test]
fn steps_are_told(rt: HostRuntime) -> Result<(), Fail> {
    let alloc = rt.alloc();
    for row in STEPS.lines() {
        let (want, rest) = row.split_once('>').unwrap_or(("", ""));
        assert_eq!(rt; is_listed_step(alloc, rest)?, want == "yes", "{row}");
    }
    Ok(())
}

// The placement, then its counted nodes, its members and its former nodes.
const REPLICAS: &str = "12|d a c b|0A1 1A1>10>10>
22|d a c b|0L1 1A1 2I20>1>120>10
12|node10 node2 node1|2A1 1A1 0A1>201>201>";

fn spelled(nodes: &[u8], want: &str) -> bool {
    nodes.len() == want.len()
        && nodes
            .iter()
            .zip(want.as_bytes())
            .all(|(node, byte)| *node == digit(*byte))
}

fn are_members(members: &[Assignment], want: &str) -> bool {
    members.len() == want.len()
        && members
            .iter()
            .zip(want.as_bytes())
            .all(|(member, byte)| member.node == digit(*byte))
}

fn has_replicas(alloc: Global, place: &Placement, wanted: &str) -> Result<bool, Memory> {
    let (want_counted, rest) = wanted.split_once('>').unwrap_or(("", ""));
    let (want_members, want_former) = rest.split_once('>').unwrap_or(("", ""));
    if place.shards.len() == 0 {
        return Ok(false);
    }
    let counted_are = spelled(counted(alloc, place, 0)?.as_slice(), want_counted);
    let members_are = are_members(members(alloc, place, 0)?.as_slice(), want_members);
    let former_are = spelled(former(alloc, place, 0)?.as_slice(), want_former);
    Ok(counted_are && members_are && former_are)
}

fn replicas_are(alloc: Global, row: &str) -> Result<bool, Memory> {
    let (place, wanted) = row.split_once('>').unwrap_or(("", ""));
    let place = placement(alloc, place)?;
    has_replicas(alloc, &place, wanted)
}

#[test]
fn replicas_stand_by_name(rt: HostRuntime) -> Result<(), Fail> {
    let alloc = rt.alloc();
    for row in REPLICAS.lines() {
        assert!(rt; replicas_are(alloc, row)?, "{row}");
    }
    Ok(())
}

// Whether it is lawful, and the placement.
const LAWFUL: &str = "yes>13|a b c|0A1 1A1 2A1
yes>13|a b c|0A1 1A1 2A1/2A1 0A1 1A1
yes>23|a b c d|0L1 1A1 2A1 3I20
yes>23|a b c d=a|0L1 1A1 2A1 3I20
yes>23|a b c d|0L1 1A1 2A1 3I20/3I21 0A1 1L1 2A1
no>23|a b c d=b|0L1 1A1 2A1 3I20
no>13|a b=a c|0A1 1A1 2A1
no>13|a b !c|0A1 1A1 2A1
no>13|a b c a|0A1 1A1 2A1
no>13|a b|0A1 1A1 2A1
no>13|a b c.|0A1 1A1 2A1
no>13|a b c|0A1 1A1
no>13|a b c d|0A1 1A1 2A1 3A1
no>13|a b c|0A1 1A1 1A1
no>13|a b c|0A1 1A1 2A2
no>13|a b c|0A1 1A1 2A11
no>10|a b c|
no>16|a b c d e f|0A1 1A1 2A1 3A1 4A1 5A1
no>23|a b c d|0A1 1A1 2A1 3I20
no>23|a b c d|0L1 1A1 2A1 3I21
no>23|a b c d|0L1 1L1 2A1 3I20
no>23|a b c d|0L1 1A1 3I20
no>23|a b c d|0L1 1A1 2A1
no>13|a b c|0A1 1A1 2A1/0A1 1A1";

fn is_lawful_row(alloc: Global, place: &str) -> Result<bool, Memory> {
    Ok(is_lawful(&placement(alloc, place)?))
}

#[test]
fn lawful_placements_are_told(rt: HostRuntime) -> Result<(), Fail> {
    let alloc = rt.alloc();
    for row in LAWFUL.lines() {
        let (want, place) = row.split_once('>').unwrap_or(("", ""));
        assert_eq!(rt; is_lawful_row(alloc, place)?, want == "yes", "{row}");
    }
    Ok(())
}
