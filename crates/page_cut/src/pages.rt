ghost use Rattle.std.specs.Prelude.{◌≡◌, ◌≤◌, ◌↔◌, drop, length, IfOk, IsTrue};
ghost use Rattle.std.specs.Option.{option_copied};
ghost use Rattle.std.specs.Ordering.{is_lt};
ghost use Rattle.m3_model.specs.Ascends.{Ascends};
ghost use Rattle.m3_model.specs.Contents.{key_of};
ghost use Rattle.m3_model.specs.Keys.{key_cmp};
ghost use Rattle.page_cut.specs.Pages.{IsBefore, is_below_first, in_order, points_past, page_of};

use m3_model::{Duplicate, Key, Memory, Page, Point, Seq};
use std::alloc::Global;

// Whether the one point's key is below the other's.
fn is_before(one: &Point, other: &Point) -> bool
    ensures { result ≡ is_lt (key_cmp (key_of one.now) (key_of other.now)) }
{
    let id = one.id.cmp(&other.id);
    one.ns
        .cmp(&other.ns)
        .then(id.then(one.t.cmp(&other.t)))
        .is_lt()
}

// Whether the point's key is above this one.
fn is_above(point: &Point, key: &Key) -> bool
    ensures { result ≡ is_lt (key_cmp key.now (key_of point.now)) }
{
    let id = key.id.cmp(&point.id);
    let order = key.ns.cmp(&point.ns).then(id.then(key.t.cmp(&point.t)));
    order.is_lt()
}

// Whether the list begins with a point above this one, or is empty.
fn is_below_first(point: &Point, later: &[Point]) -> bool
    ensures { result ≡ is_below_first point.now later.now }
{
    match later {
        [next, ..] => is_before(point, next),
        [] => true,
    }
}

/// Whether the points ascend strictly by key, as `cut` wants them. Takes no memory, and time in proportion to the points.
pub fn ascend(points: &Seq<Point>) -> bool
    ensures { IsTrue result ↔ Ascends IsBefore points.now }
{
    in_order(points.as_slice())
}

fn in_order(points: &[Point]) -> bool
    ensures { result ≡ in_order points.now }
{
    let mut rest = points;
    while let [first, later @ ..] = rest {
        if !is_below_first(first, later) {
            return false;
        }
        rest = later;
    }
    true
}

// The position of the first point above the key, where there is one; without a key, the first position.
fn position_after(points: &[Point], after: Option<&Key>) -> usize
    requires { Ascends IsBefore points.now }
    ensures bound { result ≤ length points.now }
    ensures past { drop result points.now ≡ points_past (option_copied after.entry) points.now }
{
    match after {
        None => 0,
        Some(key) => points.partition_point(|point| !is_above(point, key)),
    }
}

// The points, copied.
fn copied(alloc: Global, points: &[Point]) -> Result<Seq<Point>, Memory>
    ensures { IfOk result (λ copies. copies ≡ points.now) }
{
    let mut copies = Vec::with_capacity(alloc, points.len())?;
    for point in points {
        copies.push(point.copy(alloc)?)?;
    }
    Ok(Seq::from_vec(copies))
}

// The point's key, copied.
fn key_copied(alloc: Global, point: &Point) -> Result<Key, Memory>
    ensures { IfOk result (λ key. key ≡ key_of point.now) }
{
    Ok(Key {
        ns: point.ns,
        id: point.id.copy(alloc)?,
        t: point.t,
    })
}

/// The page of the first points above the key, or of the first points where there is no key: at most `limit` of them,
/// which is at least 1. The points ascend strictly by key. The page goes on from the key of its last point exactly where
/// points follow it; else it is the last page.
///
/// Costs a logarithmic search in the points, and time and memory in proportion to the page.
///
/// # Errors
///
/// Want of memory.
pub fn cut(
    alloc: Global,
    points: &Seq<Point>,
    after: Option<&Key>,
    limit: usize,
) -> Result<Page, Memory>
    requires limit { 1 ≤ limit }
    requires ascend { Ascends IsBefore points.now }
    ensures { IfOk result (λ page. page ≡ page_of points.now limit (option_copied after.entry)) }
{
    let list = points.as_slice();
    let rest = &list[position_after(list, after)..];
    if rest.len() <= limit {
        let points = copied(alloc, rest)?;
        return Ok(Page { points, next: None });
    }
    let next = key_copied(alloc, &rest[limit - 1])?;
    let points = copied(alloc, &rest[..limit])?;
    let next = Some(next);
    Ok(Page { points, next })
}
