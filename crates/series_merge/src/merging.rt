//! Two lists of series, merged.
ghost use Rattle.std.specs.Prelude.{◌≡◌, ◌<◌, ◌+◌, List, [], ◌∷◌, ◌++◌, length, true, false, IfOk, OnOk};
ghost use Rattle.m3_model.specs.Reads.{IsOrdered};
ghost use Rattle.m3_model.specs.declared.point.Series.{Series as Found};
ghost use Rattle.series_merge.specs.Merges.{IsMergeOf};
ghost use Rattle.series_merge.specs.Runs.{IsPartOfMerge, IsJoinedSeries, which_next};

use crate::pairs::join_pairs;
use crate::same::are_same;
use m3_model::{Memory, Seq, Series};
use std::alloc::Global;
use std::cmp::Ordering;
use std::collections::VecDeque;

// Two lists while they are merged: what is left of each, and what is done.
#[derive(Drop)]
struct Merging {
    one: VecDeque<Series>,
    other: VecDeque<Series>,
    done: Vec<Series>,
}

// Of which list the next series is: `Less` of the one, `Greater` of the other, `Equal` of both.
fn next_of(one: &VecDeque<Series>, other: &VecDeque<Series>) -> Option<Ordering>
    ensures { result ≡ which_next one.now.items other.now.items }
{
    match (one.front(), other.front()) {
        (Some(a), Some(b)) => Some(a.id.cmp(&b.id)),
        (Some(_), None) => Some(Ordering::Less),
        (None, Some(_)) => Some(Ordering::Greater),
        (None, None) => None,
    }
}

// The series with the pairs of both, which have one identifier.
fn join_series(alloc: Global, one: Series, other: Series) -> Result<Series, Memory>
    ensures { IfOk result (IsJoinedSeries one other) }
{
    let Series { id, points } = one;
    let Series {
        id: same,
        points: others,
    } = other;
    drop(same);
    let points = join_pairs(alloc, points, others)?;
    Ok(Series { id, points })
}

// Moves the first series of a list to those that are done.
fn move_first(from: &mut VecDeque<Series>, done: &mut Vec<Series>) -> Result<(), Memory>
    ensures { (x : Found) (xs : List Found) → from.old.items ≡ x ∷ xs → OnOk result ((from.new.items ≡ xs) × (done.new.items ≡ done.old.items ++ x ∷ [])) }
{
    let Some(series) = from.pop_front() else {
        return Ok(());
    };
    done.push(series)?;
    Ok(())
}

// Joins the first series of both lists, and moves it to those that are done.
fn join_first(
    alloc: Global,
    one: &mut VecDeque<Series>,
    other: &mut VecDeque<Series>,
    done: &mut Vec<Series>,
) -> Result<(), Memory>
    ensures { (x y : Found) (xs ys : List Found) → one.old.items ≡ x ∷ xs → other.old.items ≡ y ∷ ys
        → OnOk result ((one.new.items ≡ xs) × (other.new.items ≡ ys) × ((z : Found) × IsJoinedSeries x y z × (done.new.items ≡ done.old.items ++ z ∷ []))) }
{
    let Some(a) = one.pop_front() else {
        return Ok(());
    };
    let Some(b) = other.pop_front() else {
        return Ok(());
    };
    let both = join_series(alloc, a, b)?;
    done.push(both)?;
    Ok(())
}

impl Merging {
    // Moves the next series to those that are done, joined where both lists have it, and says whether there was one.
    fn step(&mut self, alloc: Global) -> Result<bool, Memory>
        ensures part { (one other : List Found) → IsPartOfMerge one other self.old.done.items self.old.one.items self.old.other.items
            → OnOk result (IsPartOfMerge one other self.new.done.items self.new.one.items self.new.other.items) }
        ensures goes_on { IfOk result (λ more. more ≡ true → length self.new.one.items + length self.new.other.items < length self.old.one.items + length self.old.other.items) }
        ensures ends { IfOk result (λ more. more ≡ false → (self.new.one.items ≡ []) × (self.new.other.items ≡ [])) }
    {
        match next_of(&self.one, &self.other) {
            None => Ok(false),
            Some(Ordering::Less) => {
                move_first(&mut self.one, &mut self.done)?;
                Ok(true)
            }
            Some(Ordering::Greater) => {
                move_first(&mut self.other, &mut self.done)?;
                Ok(true)
            }
            Some(Ordering::Equal) => {
                join_first(alloc, &mut self.one, &mut self.other, &mut self.done)?;
                Ok(true)
            }
        }
    }
}

// Merges two lists, series by series.
fn merge_all(alloc: Global, one: Seq<Series>, other: Seq<Series>) -> Result<Seq<Series>, Memory>
    requires one { IsOrdered one }
    requires other { IsOrdered other }
    ensures { IfOk result (IsMergeOf one other) }
{
    let done = Vec::with_capacity(alloc, one.len().saturating_add(other.len()))?;
    let mut merging = Merging {
        one: VecDeque::from_vec(one.into_vec()),
        other: VecDeque::from_vec(other.into_vec()),
        done,
    };
    'steps: while merging.step(alloc)? {}
    let Merging { one, other, done } = merging;
    drop(one);
    drop(other);
    Ok(Seq::from_vec(done))
}

// The one of two equal lists.
fn kept(one: Seq<Series>, other: Seq<Series>) -> Seq<Series>
    requires same { one ≡ other }
    requires one { IsOrdered one }
    ensures { IsMergeOf one other result }
{
    drop(other);
    one
}

/// The series of both lists in one: each identifier once, with the pairs of both by time, and of two pairs at one time
/// the higher. Identifiers ascend strictly by bytes in each list, times ascend strictly in each series, and no series is
/// empty; the same is so of the result.
///
/// Costs in proportion to the series, the bytes of their identifiers, and the pairs of the series that both lists have:
/// each two neighbours are compared once, no identifier is copied, and a series of one list alone is moved.
///
/// # Errors
///
/// Want of memory.
pub fn merge(alloc: Global, one: Seq<Series>, other: Seq<Series>) -> Result<Seq<Series>, Memory>
    requires one { IsOrdered one }
    requires other { IsOrdered other }
    ensures { IfOk result (IsMergeOf one other) }
{
    if one.len() == 0 {
        return Ok(other);
    }
    if other.len() == 0 {
        return Ok(one);
    }
    if are_same(one.as_slice(), other.as_slice()) {
        return Ok(kept(one, other));
    }
    merge_all(alloc, one, other)
}
