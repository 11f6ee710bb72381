//! The first points of two contents, merged.
ghost use Rattle.std.specs.Prelude.{◌≡◌, ◌<◌, ◌+◌, List, [], ◌∷◌, ◌++◌, ℕ, length, true, false, Option, IfOk, OnOk};
ghost use Rattle.m3_model.specs.Contents.{Contents, key_of};
ghost use Rattle.m3_model.specs.Keys.{key_cmp};
ghost use Rattle.m3_model.specs.declared.point.Key.{Key};
ghost use Rattle.m3_model.specs.declared.point.Point.{Point as Held};
ghost use Rattle.first_points.specs.Firsts.{AreFirst};
ghost use Rattle.first_points.specs.Merges.{IsJoinOf, IsPartOfFirsts, higher_point, which_next};

use m3_model::{Memory, Point, Seq};
use std::alloc::Global;
use std::cmp::Ordering;
use std::collections::VecDeque;

// Two lists while they are merged: what is left of each, and what is done.
#[derive(Drop)]
struct Merging {
    one: VecDeque<Point>,
    other: VecDeque<Point>,
    done: Vec<Point>,
}

// The order of two points by their keys.
fn order(one: &Point, other: &Point) -> Ordering
    ensures { result ≡ key_cmp (key_of one.now) (key_of other.now) }
{
    let id = one.id.cmp(&other.id);
    one.ns.cmp(&other.ns).then(id.then(one.t.cmp(&other.t)))
}

// Of which list the next point is: `Less` of the one, `Greater` of the other, `Equal` of both.
fn next_of(one: &VecDeque<Point>, other: &VecDeque<Point>) -> Option<Ordering>
    ensures { result ≡ which_next one.now.items other.now.items }
{
    match (one.front(), other.front()) {
        (Some(a), Some(b)) => Some(order(a, b)),
        (Some(_), None) => Some(Ordering::Less),
        (None, Some(_)) => Some(Ordering::Greater),
        (None, None) => None,
    }
}

// Of two points at one key the higher.
fn higher_of(one: Point, other: Point) -> Point
    ensures { result ≡ higher_point one other }
{
    let Point { ns, id, t, v } = one;
    Point {
        ns,
        id,
        t,
        v: if v < other.v { other.v } else { v },
    }
}

// Moves the first point of a list to those that are done.
fn move_first(from: &mut VecDeque<Point>, done: &mut Vec<Point>) -> Result<(), Memory>
    ensures { (x : Held) (xs : List Held) → from.old.items ≡ x ∷ xs → OnOk result ((from.new.items ≡ xs) × (done.new.items ≡ done.old.items ++ x ∷ [])) }
{
    let Some(point) = from.pop_front() else {
        return Ok(());
    };
    done.push(point)?;
    Ok(())
}

// Moves the first points of both lists, which stand at one key, to those that are done: the higher one.
fn join_first(
    one: &mut VecDeque<Point>,
    other: &mut VecDeque<Point>,
    done: &mut Vec<Point>,
) -> Result<(), Memory>
    ensures { (x y : Held) (xs ys : List Held) → one.old.items ≡ x ∷ xs → other.old.items ≡ y ∷ ys → OnOk result ((one.new.items ≡ xs) × (other.new.items ≡ ys) × (done.new.items ≡ done.old.items ++ higher_point x y ∷ [])) }
{
    let Some(a) = one.pop_front() else {
        return Ok(());
    };
    let Some(b) = other.pop_front() else {
        return Ok(());
    };
    done.push(higher_of(a, b))?;
    Ok(())
}

impl Merging {
    // Moves the next point to those that are done, joined where both lists have its key. Says whether it did: not where as many as
    // the limit are done, or nothing is left.
    fn step(&mut self, limit: usize) -> Result<bool, Memory>
        ensures part { (c d both : Contents) (after : Option Key) → IsJoinOf c d both → IsPartOfFirsts c d both after limit self.old.done.items self.old.one.items self.old.other.items
            → OnOk result (IsPartOfFirsts c d both after limit self.new.done.items self.new.one.items self.new.other.items) }
        ensures goes_on { IfOk result (λ more. more ≡ true → length self.new.one.items + length self.new.other.items < length self.old.one.items + length self.old.other.items) }
        ensures ends { IfOk result (λ more. more ≡ false → (c d both : Contents) (after : Option Key) → IsJoinOf c d both → IsPartOfFirsts c d both after limit self.old.done.items self.old.one.items self.old.other.items → AreFirst both after limit self.new.done.items) }
    {
        if self.done.len() >= limit {
            return Ok(false);
        }
        match next_of(&self.one, &self.other) {
            None => Ok(false),
            Some(Ordering::Less) => {
                move_first(&mut self.one, &mut self.done)?;
                Ok(true)
            }
            Some(Ordering::Greater) => {
                move_first(&mut self.other, &mut self.done)?;
                Ok(true)
            }
            Some(Ordering::Equal) => {
                join_first(&mut self.one, &mut self.other, &mut self.done)?;
                Ok(true)
            }
        }
    }
}

/// The first points of the join of two contents, from those of each: so many, or all. Costs in proportion to the limit, and moves
/// each point.
///
/// # Errors
///
/// Want of memory.
pub fn first_of_both(
    alloc: Global,
    one: Seq<Point>,
    other: Seq<Point>,
    limit: usize,
) -> Result<Seq<Point>, Memory>
    ensures { IfOk result (λ points. (c d both : Contents) (after : Option Key) → IsJoinOf c d both → AreFirst c after limit one → AreFirst d after limit other → AreFirst both after limit points) }
{
    let mut merging = Merging {
        one: VecDeque::from_vec(one.into_vec()),
        other: VecDeque::from_vec(other.into_vec()),
        done: Vec::new(alloc),
    };
    'steps: while merging.step(limit)? {}
    let Merging { one, other, done } = merging;
    drop(one);
    drop(other);
    Ok(Seq::from_vec(done))
}
