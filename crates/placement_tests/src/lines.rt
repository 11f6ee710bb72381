ghost use Rattle.std.specs.Prelude.{◌≡◌, ◌≤◌, true, IfOk};
ghost use Rattle.m3_model.specs.Limits.{MeetsLimits};
ghost use Rattle.placement_core.specs.Lawful.{IsLawful};
ghost use Rattle.placement_acts.specs.Acts.{is_step_act};

use crate::plans::{SIXTEEN, name, spell, three_nodes};
use m3_model::{Act, Answer, Memory, Placement, Text};
use placement_lines::{initial_placement, next_placement};
use std::alloc::{AllocError, Global};
use std::test::Fail;

// The act that the words ask for.
fn act_of(alloc: Global, words: &str) -> Result<Act, Memory>
    ensures step { IfOk result (λ a. is_step_act a ≡ true) }
    ensures limits { IfOk result MeetsLimits }
{
    let mut words = words.split(' ');
    let call = words.next().unwrap_or("");
    let node = Text::from_str(alloc, name(words.next()))?;
    let second = Text::from_str(alloc, name(words.next()))?;
    let group = Text::from_str(alloc, name(words.next()))?;
    match call {
        "add" => Ok(Act::Add {
            node,
            group: second,
        }),
        "drain" => Ok(Act::Drain { node }),
        "cancel" => Ok(Act::Cancel { node }),
        "replace" => Ok(Act::Replace {
            node,
            by: second,
            group,
        }),
        _ => Ok(Act::Remove { node }),
    }
}

// The first placement, of three nodes.
fn first(alloc: Global, rf: u32, shards: u32) -> Result<Placement, Answer>
    requires rf { (1 ≤ rf) × (rf ≤ 5) }
    requires shards { (1 ≤ shards) × (shards ≤ 64) }
    ensures { IfOk result IsLawful }
{
    let Ok(nodes) = three_nodes(alloc) else {
        return Err(Answer::Memory);
    };
    initial_placement(alloc, rf, shards, 7, nodes)
}

// The placement after the lines, or the first refusal. So many versions are kept at first, and one more after each line.
fn after_lines(
    alloc: Global,
    rf: u32,
    shards: u32,
    kept_first: usize,
    lines: &str,
) -> Result<Placement, Answer>
    requires rf { (1 ≤ rf) × (rf ≤ 5) }
    requires shards { (1 ≤ shards) × (shards ≤ 64) }
{
    let mut kept = kept_first;
    let mut place = first(alloc, rf, shards)?;
    for words in lines.split('|') {
        if !words.is_empty() {
            let Ok(act) = act_of(alloc, words) else {
                return Err(Answer::Memory);
            };
            place = next_placement(alloc, &place, kept, &act)?;
            kept = kept.saturating_add(1);
        }
    }
    Ok(place)
}

fn spell_refusal(alloc: Global, refusal: Answer) -> Result<String, AllocError> {
    match refusal {
        Answer::Order => format!(in alloc; "order"),
        Answer::Unknown { name } => {
            let name = name.as_str();
            format!(in alloc; "unknown {name}")
        }
        Answer::Limit { limit } => format!(in alloc; "limit {limit}"),
        Answer::Busy { node, shard } => {
            let node = node.as_str();
            format!(in alloc; "busy {node} {shard}")
        }
        Answer::Group { shard } => format!(in alloc; "group {shard}"),
        _ => format!(in alloc; "another refusal"),
    }
}

// How many versions are kept before the lines of a row: `:` one, `*` 1,023, and `+` 1,011.
fn kept_by(mark: u8) -> usize {
    match mark {
        b'*' => 1_023,
        b'+' => 1_011,
        _ => 1,
    }
}

// `rf`, the number of shards and a mark of kept versions, the lines, and what they lead to.
const ROWS: &str = "31:>1 a1 b2 c3 / 0A1 1A1 2A1
12:>1 a1 b2 c3 / 0A1 / 1A1
51:>group 0
31:replace a d 1>2 a1- b2 c3 d1 / 0L1 1A1 2A1 3I2<0
31:add d 4|drain c>3 a1 b2 c3- d4 / 0A1 1A1 2L1 3I3<2
31:replace a d 1|drain b>busy d 0
31:replace a d 1|replace b e 2>busy d 0
31:replace a d 1|cancel d>3 a1 b2 c3 d1 / 0A1 1A1 2A1
31:replace a d 1|cancel d|replace b e 2>4 a1 b2- c3 d1 e2 / 0A1 1L1 2A1 4I4<1
31:cancel b>2 a1 b2 c3 / 0A1 1A1 2A1
31:drain c>group 0
31:replace c d 1>group 0
31:remove a>busy a 0
31:add d 4|remove d|add d 2>4 a1 b2 c3 d2 / 0A1 1A1 2A1
31:add a 4>order
31:replace a b 1>order
31:replace f b 1>order
31:add f 4>2 a1 b2 c3 f4 / 0A1 1A1 2A1
31:drain f>unknown f
31:cancel f>unknown f
31:remove f>unknown f
31:replace f d 1>unknown f
31:add d 4|remove d|drain d>unknown d
31*add d 4>2 a1 b2 c3 d4 / 0A1 1A1 2A1
31*add d 4|add e 4>limit 1024
31*cancel a|cancel a>limit 1024
31*add d 4|remove d>limit 1024
31*add d 4|drain c>limit 1024
31*replace a d 1|drain b>limit 1024
31*replace a d 1|remove b>limit 1024
31*add d 4|replace c e 1>limit 1024
31*add d 4|drain f>unknown f
31*add d 4|replace f e 1>unknown f
31*add d 4|add a 1>order
31*add d 4|replace f a 1>order";

fn outcome(alloc: Global, row: &str) -> Result<String, AllocError> {
    let (rf, shards, kept) = match row.as_bytes() {
        [rf, shards, mark, ..] => (*rf as u32 & 7, *shards as u32 & 7, kept_by(*mark)),
        _ => (0, 0, 0),
    };
    if rf < 1 || rf > 5 || shards < 1 {
        return format!(in alloc; "no row");
    }
    let lines = row.get(3..).unwrap_or("");
    match after_lines(alloc, rf, shards, kept, lines) {
        Ok(place) => spell(alloc, &place),
        Err(refusal) => spell_refusal(alloc, refusal),
    }
}

#[test]
fn lines_lead_to_placements(rt: HostRuntime) -> Result<(), Fail> {
    let alloc = rt.alloc();
    for row in ROWS.lines() {
        let (given, want) = row.rsplit_once('>').unwrap_or(("", ""));
        let got = outcome(alloc, given)?;
        assert!(rt; got.as_str() == want, "{row}: {got}");
    }
    Ok(())
}

// Lines where 16 names are known and 1,024 versions are kept, and what the last of them is refused.
const FULL_ROWS: &str = "add q 4>limit 16
replace a q 1>limit 16
replace q q 1>unknown q
replace a p 1>order
add p 4>order
drain q>unknown q
remove p>limit 1024
drain a>limit 1024
cancel a>limit 1024";

#[test]
fn names_are_counted_before_versions(rt: HostRuntime) -> Result<(), Fail> {
    let alloc = rt.alloc();
    for row in FULL_ROWS.lines() {
        let (line, want) = row.rsplit_once('>').unwrap_or(("", ""));
        let given = format!(in alloc; "11+{SIXTEEN}|{line}")?;
        let got = outcome(alloc, given.as_str())?;
        assert!(rt; got.as_str() == want, "{row}: {got}");
    }
    Ok(())
}
