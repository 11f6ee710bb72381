ghost use Rattle.std.specs.Prelude.{◌≡◌, ◌≤◌, [], ◌∷◌, ◌++◌, IfOk, OnOk, IsTrue};
ghost use Rattle.m3_model.specs.Names.{is_name};
ghost use Rattle.placement_core.specs.Lawful.{IsLawful};

use first_placement::initial::initial;
use m3_model::{Assignment, Memory, Placement, Seq, ShardState, Text};
use placement_moves::{add, drain, replace};
use placement_plan::{PlaceErr, cancel, remove};
use std::alloc::{AllocError, Global};
use std::test::Fail;

fn push_node(
    alloc: Global,
    nodes: &mut Vec<(Text, Text)>,
    name: &str,
    group: &str,
) -> Result<(), Memory>
    ensures { OnOk result (nodes.new.items ≡ nodes.old.items ++ (name.now, group.now) ∷ []) }
{
    let name = Text::from_str(alloc, name)?;
    nodes.push((name, Text::from_str(alloc, group)?))?;
    Ok(())
}

pub(crate) fn three_nodes(alloc: Global) -> Result<Seq<(Text, Text)>, Memory>
    ensures { IfOk result (λ nodes. nodes ≡ (97 ∷ [], 49 ∷ []) ∷ (98 ∷ [], 50 ∷ []) ∷ (99 ∷ [], 51 ∷ []) ∷ []) }
{
    let mut nodes = Vec::new(alloc);
    push_node(alloc, &mut nodes, "a", "1")?;
    push_node(alloc, &mut nodes, "b", "2")?;
    push_node(alloc, &mut nodes, "c", "3")?;
    Ok(Seq::from_vec(nodes))
}

// The word, where it is one of those that rows use as names.
pub(crate) fn name(word: Option<&str>) -> &'static str
    ensures { IsTrue (is_name result.now) }
{
    match word.unwrap_or("") {
        "a" => "a",
        "b" => "b",
        "c" => "c",
        "d" => "d",
        "f" => "f",
        "g" => "g",
        "h" => "h",
        "i" => "i",
        "j" => "j",
        "k" => "k",
        "l" => "l",
        "m" => "m",
        "n" => "n",
        "o" => "o",
        "p" => "p",
        "q" => "q",
        "1" => "1",
        "2" => "2",
        "4" => "4",
        _ => "e",
    }
}

fn planned(alloc: Global, place: &Placement, words: &str) -> Result<Placement, PlaceErr>
    requires { IsLawful place.now }
    ensures { IfOk result IsLawful }
{
    let mut words = words.split(' ');
    let call = words.next().unwrap_or("");
    let node = name(words.next());
    let second = name(words.next());
    match call {
        "add" => add(alloc, place, node, second),
        "drain" => drain(alloc, place, node),
        "cancel" => cancel(alloc, place, node),
        "replace" => replace(alloc, place, node, second, name(words.next())),
        _ => remove(alloc, place, node),
    }
}

// The placement after the calls, or the first refusal.
fn after_calls(alloc: Global, rf: u32, shards: u32, calls: &str) -> Result<Placement, PlaceErr>
    requires rf { (1 ≤ rf) × (rf ≤ 5) }
    requires shards { (1 ≤ shards) × (shards ≤ 64) }
{
    let nodes = three_nodes(alloc)?;
    let mut place = initial(alloc, rf, shards, nodes)?;
    for words in calls.split('|') {
        if !words.is_empty() {
            place = planned(alloc, &place, words)?;
        }
    }
    Ok(place)
}

fn spell_assignment(out: &mut String, assignment: &Assignment) -> Result<(), AllocError> {
    let state = match assignment.state {
        ShardState::Initializing => "I",
        ShardState::Available => "A",
        ShardState::Leaving => "L",
    };
    let node = assignment.node;
    let tenure = assignment.tenure;
    write!(out, " {node}{state}{tenure}")?;
    if let Some(from) = assignment.source {
        write!(out, "<{from}")?;
    }
    Ok(())
}

// Version, nodes (drained ones with `-`, ones that aren't listed with `!`), and shards.
pub(crate) fn spell(alloc: Global, place: &Placement) -> Result<String, AllocError> {
    let mut out = String::new(alloc);
    let version = place.version;
    write!(out, "{version}")?;
    for node in place.instances.as_slice() {
        let name = node.name.as_str();
        let group = node.group.as_str();
        write!(out, " {name}{group}")?;
        if node.drained {
            out.push_str("-")?;
        }
        if !node.listed {
            out.push_str("!")?;
        }
    }
    for shard in place.shards.as_slice() {
        out.push_str(" /")?;
        for assignment in shard.as_slice() {
            spell_assignment(&mut out, assignment)?;
        }
    }
    Ok(out)
}

fn spell_refusal(alloc: Global, refusal: PlaceErr) -> Result<String, AllocError> {
    match refusal {
        PlaceErr::Busy { shard, node } => format!(in alloc; "busy {shard} {node}"),
        PlaceErr::Group { shard } => format!(in alloc; "group {shard}"),
        PlaceErr::Unknown => format!(in alloc; "unknown"),
        PlaceErr::Exists => format!(in alloc; "exists"),
        PlaceErr::Limit { limit } => format!(in alloc; "limit {limit}"),
        PlaceErr::Memory => format!(in alloc; "memory"),
    }
}

// `rf` and the number of shards, the calls, and the placement that they lead to.
const ROWS: &str = "31>>1 a1 b2 c3 / 0A1 1A1 2A1
12>>1 a1 b2 c3 / 0A1 / 1A1
51>>group 0
31>replace a d 1>2 a1- b2 c3 d1 / 0L1 1A1 2A1 3I2<0
31>add d 4>2 a1 b2 c3 d4 / 0A1 1A1 2A1
31>add d 4|drain c>3 a1 b2 c3- d4 / 0A1 1A1 2L1 3I3<2
31>replace a d 1|drain b>busy 0 3
31>replace a d 1|cancel d>3 a1 b2 c3 d1 / 0A1 1A1 2A1
31>replace a d 1|cancel d|replace b e 2>4 a1 b2- c3 d1 e2 / 0A1 1L1 2A1 4I4<1
31>drain c>group 0
31>replace c d 1>group 0
31>remove a>busy 0 0
31>add a 4>exists
31>drain d>unknown
31>replace a b 1>exists
31>add d 4|remove d|add d 2>4 a1 b2 c3 d2 / 0A1 1A1 2A1
14>drain a>2 a1- b2 c3 / 0L1 1I2<0 / 1A1 / 2A1 / 0L1 2I2<0
16>add d 4>2 a1 b2 c3 d4 / 0L1 3I2<0 / 1A1 / 2A1 / 0A1 / 1A1 / 2A1";

fn outcome(alloc: Global, row: &str) -> Result<String, AllocError> {
    let (numbers, calls) = row.split_once('>').unwrap_or(("", ""));
    let (rf, shards) = match numbers.as_bytes() {
        [rf, shards] => (*rf as u32 & 7, *shards as u32 & 7),
        _ => (0, 0),
    };
    if rf < 1 || rf > 5 || shards < 1 {
        return format!(in alloc; "no row");
    }
    match after_calls(alloc, rf, shards, calls) {
        Ok(place) => spell(alloc, &place),
        Err(refusal) => spell_refusal(alloc, refusal),
    }
}

#[test]
fn plans_are_those_of_the_rules(rt: HostRuntime) -> Result<(), Fail> {
    let alloc = rt.alloc();
    for row in ROWS.lines() {
        let (given, want) = row.rsplit_once('>').unwrap_or(("", ""));
        let got = outcome(alloc, given)?;
        assert!(rt; got.as_str() == want, "{row}: {got}");
    }
    Ok(())
}

// Calls after which 16 names are known.
pub(crate) const SIXTEEN: &str =
    "add d 4|add e 4|add f 4|add g 4|add h 4|add i 4|add j 4|add k 4|add l 4|add m 4|add n 4|add o 4|add p 4";

// Calls where 16 names are known, and what the last of them is refused.
const FULL_ROWS: &str = "add q 4>limit 16
remove p|add q 4>limit 16
replace a q 1>limit 16
replace q q 1>unknown
replace a p 1>exists
add p 4>exists
replace b q 2|cancel a>limit 16
remove p|add p 4|remove p|replace a p 1|drain a>busy 0 15";

#[test]
fn names_past_the_limit_are_refused(rt: HostRuntime) -> Result<(), Fail> {
    let alloc = rt.alloc();
    for row in FULL_ROWS.lines() {
        let (calls, want) = row.rsplit_once('>').unwrap_or(("", ""));
        let given = format!(in alloc; "11>{SIXTEEN}|{calls}")?;
        let got = outcome(alloc, given.as_str())?;
        assert!(rt; got.as_str() == want, "{row}: {got}");
    }
    Ok(())
}
