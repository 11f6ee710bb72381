//! The lists in requests: nodes, matchers and fates.
ghost use Rattle.std.specs.Prelude.{◌≡◌, ◌≢◌, ℕ, List, [], ◌∷◌, ◌++◌, IfOk, OnOk, IsTrue};
ghost use Rattle.m3_model.specs.Ascends.{Ascends};
ghost use Rattle.m3_model.specs.Limits.{AreMatchers, IsFate, IsFateOfSameMessage, MeetsLimits};
ghost use Rattle.m3_model.specs.Members.{IsIn};
ghost use Rattle.m3_model.specs.declared.act.Act.TheVariants as act;
ghost use Rattle.m3_model.specs.declared.act.Fate.{Fate as Outcome};

use crate::words::name;
use m3_model::limits::MOST_FATES;
use m3_model::{Fate, Matcher, Memory, Seq, Text};
use std::alloc::Global;

fn push_node(
    alloc: Global,
    nodes: &mut Vec<(Text, Text)>,
    name: &str,
    group: &str,
) -> Result<(), Memory>
    ensures { OnOk result (nodes.new.items ≡ nodes.old.items ++ (name.now, group.now) ∷ []) }
{
    let name = Text::from_str(alloc, name)?;
    nodes.push((name, Text::from_str(alloc, group)?))?;
    Ok(())
}

/// The nodes a, b and c, each in a group of its own.
pub fn three_nodes(alloc: Global) -> Result<Seq<(Text, Text)>, Memory>
    ensures { IfOk result (λ nodes. nodes ≡ (97 ∷ [], 49 ∷ []) ∷ (98 ∷ [], 50 ∷ []) ∷ (99 ∷ [], 51 ∷ []) ∷ []) }
{
    let mut nodes = Vec::new(alloc);
    push_node(alloc, &mut nodes, "a", "1")?;
    push_node(alloc, &mut nodes, "b", "2")?;
    push_node(alloc, &mut nodes, "c", "3")?;
    Ok(Seq::from_vec(nodes))
}

/// That the tag `dc` is x, or isn't.
pub fn one_matcher(alloc: Global, equal: bool) -> Result<Seq<Matcher>, Memory>
    ensures { IfOk result AreMatchers }
{
    let mut wanted = Vec::new(alloc);
    wanted.push(Matcher {
        name: Text::from_str(alloc, "dc")?,
        equal,
        value: Text::from_str(alloc, "x")?,
    })?;
    Ok(Seq::from_vec(wanted))
}

fn fate_of(letter: u8) -> Fate
    ensures { result ≢ Fate.Deliver }
{
    match letter {
        b'L' => Fate::Lose,
        b'T' => Fate::Twice,
        _ => Fate::Late,
    }
}

// A client below 8, the number of its call, a node and a fate, as `00bL`.
fn fate(alloc: Global, letters: [u8; 4]) -> Result<(u32, u64, Text, Fate), Memory>
    ensures { IfOk result IsFate }
{
    let [client, call, node, letter] = letters;
    let node = name(alloc, node)?;
    Ok((
        (client & 7) as u32,
        (call & 15) as u64,
        node,
        fate_of(letter),
    ))
}

// Whether none of the fates is of this message.
fn is_apart(one: &(u32, u64, Text, Fate), others: &[(u32, u64, Text, Fate)]) -> bool
    ensures { IsTrue result → (other : ℕ × ℕ × List ℕ × Outcome) → IsIn others.now other → ¬ IsFateOfSameMessage one.now other }
{
    match others.split_first() {
        None => true,
        Some((other, rest)) => {
            (one.0 != other.0 || one.1 != other.1 || one.2 != other.2) && is_apart(one, rest)
        }
    }
}

fn are_apart(fates: &[(u32, u64, Text, Fate)]) -> bool
    ensures { IsTrue result → Ascends (λ a b. ¬ IsFateOfSameMessage a b) fates.now }
{
    match fates.split_first() {
        None => true,
        Some((one, rest)) => is_apart(one, rest) && are_apart(rest),
    }
}

// The fates of a text, as `00bL,01cT`; `Memory` also where two are of one message.

fn all_fates(alloc: Global, list: &str) -> Result<Vec<(u32, u64, Text, Fate)>, Memory>
    ensures { IfOk result (λ made. (one : ℕ × ℕ × List ℕ × Outcome) → IsIn made.items one → IsFate one) }
{
    let mut made = Vec::new(alloc);
    for word in list.split(',') {
        if let [client, call, node, letter] = word.as_bytes() {
            made.push(fate(alloc, [*client, *call, *node, *letter])?)?;
        }
    }
    Ok(made)
}

/// The fates of a text, as `00bL,01cT`: clients below 8, numbers of calls below 10, nodes, and L, T or B for lost, twice
/// and late. A text with two fates of one message is refused.
pub fn fates(alloc: Global, list: &str) -> Result<Seq<(u32, u64, Text, Fate)>, Memory>
    ensures { IfOk result (λ made. MeetsLimits (act.Fates made)) }
{
    let made = all_fates(alloc, list)?;
    if made.len() > MOST_FATES || !are_apart(made.as_slice()) {
        return Err(Memory);
    }
    Ok(Seq::from_vec(made))
}
