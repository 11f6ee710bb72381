//! The pairs of one identifier in two lists, merged.
ghost use Rattle.std.specs.Prelude.{◌≡◌, ◌++◌, ◌≤◌, ◌⊎◌, true, length, IfOk, MatchOption};
ghost use Rattle.m3_model.specs.Ascends.{Ascends};
ghost use Rattle.series_merge.specs.Pairs.{IsEarlier, IsMergeOfPairs, IsNext, first_pair};

use m3_model::{Memory, Seq};
use std::alloc::Global;
use std::cmp::Ordering;

// The pair that comes next of two lists, and how many pairs it takes of each.
#[derive(Clone, Copy)]
struct First {
    pair: (u64, i64),
    of_one: usize,
    of_other: usize,
}

// The earlier of two pairs, and of two at one time the higher.
fn first_of(one: (u64, i64), other: (u64, i64)) -> First
    ensures { result ≡ first_pair one other }
{
    match one.0.cmp(&other.0) {
        Ordering::Less => First {
            pair: one,
            of_one: 1,
            of_other: 0,
        },
        Ordering::Greater => First {
            pair: other,
            of_one: 0,
            of_other: 1,
        },
        Ordering::Equal => First {
            pair: (one.0, other.1.max(one.1)),
            of_one: 1,
            of_other: 1,
        },
    }
}

// The pair that comes next from these positions on, unless one of the lists ends there.
fn next_of(one: &[(u64, i64)], i: usize, other: &[(u64, i64)], j: usize) -> Option<First>
    ensures { MatchOption result ((length one.now ≤ i) ⊎ (length other.now ≤ j)) (IsNext one.now other.now i j) }
{
    if i >= one.len() || j >= other.len() {
        return None;
    }
    Some(first_of(one[i], other[j]))
}

// The pairs of both lists by time, and of two at one time the higher.
fn merge_pairs(
    alloc: Global,
    one: &[(u64, i64)],
    other: &[(u64, i64)],
) -> Result<Seq<(u64, i64)>, Memory>
    ensures { Ascends IsEarlier one.now → Ascends IsEarlier other.now → IfOk result (IsMergeOfPairs one.now other.now) }
{
    let mut pairs = Vec::with_capacity(alloc, one.len().saturating_add(other.len()))?;
    let mut i = 0;
    let mut j = 0;
    while let Some(first) = next_of(one, i, other, j) {
        pairs.push(first.pair)?;
        i += first.of_one;
        j += first.of_other;
    }
    pairs.extend_from_slice(&one[i..])?;
    pairs.extend_from_slice(&other[j..])?;
    Ok(Seq::from_vec(pairs))
}

// Whether the one list ends before the other begins.
fn ends_before(one: &[(u64, i64)], other: &[(u64, i64)]) -> bool
    ensures { result ≡ true → Ascends IsEarlier one.now → Ascends IsEarlier other.now → Ascends IsEarlier (one.now ++ other.now) }
{
    match (one.last(), other.first()) {
        (Some(last), Some(first)) => last.0 < first.0,
        _ => false,
    }
}

// The pairs of the one list, and behind them those of the other.
fn append(one: Seq<(u64, i64)>, other: &[(u64, i64)]) -> Result<Seq<(u64, i64)>, Memory>
    ensures { IfOk result (λ pairs. pairs ≡ one ++ other.now) }
{
    let mut pairs = one.into_vec();
    pairs.extend_from_slice(other)?;
    Ok(Seq::from_vec(pairs))
}

// The pairs of both lists by time, and of two at one time the higher. Where the one list ends before the other begins
// it is an append.
pub(crate) fn join_pairs(
    alloc: Global,
    one: Seq<(u64, i64)>,
    other: Seq<(u64, i64)>,
) -> Result<Seq<(u64, i64)>, Memory>
    ensures { Ascends IsEarlier one → Ascends IsEarlier other → IfOk result (IsMergeOfPairs one other) }
{
    if ends_before(one.as_slice(), other.as_slice()) {
        append(one, other.as_slice())
    } else if ends_before(other.as_slice(), one.as_slice()) {
        append(other, one.as_slice())
    } else {
        merge_pairs(alloc, one.as_slice(), other.as_slice())
    }
}
