//! What rules, picks and lists say of a point.
ghost use Rattle.std.specs.Prelude.{◌≡◌, ◌≢◌, ◌≤◌, ◌<◌, ◌+◌, ◌++◌, ◌↔◌, ℕ, List, [], ◌∷◌, IsTrue, IfOk, OnOk, map, nat_le};
ghost use Rattle.m3_model.specs.Members.{IsIn};
ghost use Rattle.m3_model.specs.Reads.{Matches, points_in, space_picked, Covers};
ghost use Rattle.m3_model.specs.Rules.{InWindow, HasExpired};
ghost use Rattle.cluster_core.specs.Answers.{HoldsOf, IsWantedUnexpired};
ghost use Rattle.cluster_core.specs.Replicas.{IsGone};

use cluster_core::ReplicaState;
use equality::Same;
use m3_model::{Duplicate, Matcher, Memory, Pick, Point, Rules, Series, Text};
use series_id::has_tag;
use std::alloc::Global;

/// Whether so much time has passed since the start.
pub fn has_passed(start: u64, long: u64, now: u64) -> bool
    ensures { result ≡ nat_le (start + long) now }
{
    start <= now && long <= now - start
}

/// Whether the point has expired; one of an unknown namespace has not.
pub fn has_expired(rules: &Rules, point: &Point) -> bool
    ensures { IsTrue result ↔ HasExpired rules.entry.now point.now }
{
    match rules.spaces.as_slice().get(point.ns as usize) {
        None => false,
        Some(space) => has_passed(point.t, space.retention, rules.now),
    }
}

/// Whether the point is in the window of its namespace, where there is one.
pub fn in_window(rules: &Rules, point: &Point) -> bool
    ensures { IsTrue result ↔ InWindow rules.entry.now point.now }
{
    match rules.spaces.as_slice().get(point.ns as usize) {
        None => false,
        Some(space) => {
            !has_passed(point.t, space.past, rules.now)
                && !has_passed(rules.now, space.future, point.t)
        }
    }
}

/// Whether the point has expired by the rules of a tick of the replica.
pub fn is_gone(r: &ReplicaState, point: &Point) -> bool
    ensures { IsTrue result ↔ IsGone r.now point.now }
{
    r.ticks
        .as_slice()
        .iter()
        .any(|rules| has_expired(rules, point))
}

// Whether the matcher holds of the identifier's tags.
fn holds(id: &Text, matcher: &Matcher) -> bool
    ensures { IsTrue result ↔ HoldsOf id.now matcher.now }
{
    has_tag(id.as_str(), matcher.name.as_str(), matcher.value.as_str()) == matcher.equal
}

/// Whether the pick has the point.
pub fn matches(pick: &Pick, point: &Point) -> bool
    ensures { IsTrue result ↔ Matches pick.now point.now }
{
    match pick {
        Pick::One { ns, id } => point.ns == *ns && point.id.is_same(id),
        Pick::Match { ns, wanted } => {
            point.ns == *ns && wanted.as_slice().iter().all(|m| holds(&point.id, m))
        }
    }
}

/// Whether a read asks for the point, and it hasn't expired.
pub fn is_wanted(rules: &Rules, pick: &Pick, from: u64, to: u64, point: &Point) -> bool
    ensures { IsTrue result ↔ IsWantedUnexpired rules.entry.now pick.now from to point.now }
{
    matches(pick, point) && from <= point.t && point.t < to && !has_expired(rules, point)
}

/// Whether the point is one of these.
pub fn has_point(points: &[Point], point: &Point) -> bool
    ensures { IsTrue result ↔ IsIn points.now point.now }
{
    points.iter().any(|p| p.is_same(point))
}

// Whether it is at the point's key, with at least its value.
fn reaches(one: &Point, point: &Point) -> bool
    ensures { IsTrue result ↔ Covers (one.now ∷ []) point.now }
{
    one.ns == point.ns && one.t == point.t && point.v <= one.v && one.id.is_same(&point.id)
}

/// Whether the points have the point's key with at least its value.
pub fn covers(points: &[Point], point: &Point) -> bool
    ensures { IsTrue result ↔ Covers points.now point.now }
{
    points.iter().any(|p| reaches(p, point))
}

/// The namespace that a pick names.
pub fn space_picked(pick: &Pick) -> u8
    ensures { result ≡ space_picked pick.now }
{
    match pick {
        Pick::One { ns, .. } => *ns,
        Pick::Match { ns, .. } => *ns,
    }
}

fn add_points(alloc: Global, points: &mut Vec<Point>, ns: u8, series: &Series) -> Result<(), Memory>
    ensures { OnOk result (points.new.items ≡ points.old.items ++ map (λ x. record { ns = ns; id = series.now.id; t = x.0; v = x.1 }) series.now.points) }
{
    for (t, v) in series.points.as_slice() {
        points.push(Point {
            ns,
            id: series.id.copy(alloc)?,
            t: *t,
            v: *v,
        })?;
    }
    Ok(())
}

/// The points of an answer.
pub fn points_in(alloc: Global, ns: u8, series: &[Series]) -> Result<Vec<Point>, Memory>
    ensures { IfOk result (λ points. points.items ≡ points_in ns series.now) }
{
    let mut points = Vec::new(alloc);
    for one in series {
        add_points(alloc, &mut points, ns, one)?;
    }
    Ok(points)
}
