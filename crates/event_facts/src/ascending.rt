//! Whether lists are in their order.
ghost use Rattle.std.specs.Prelude.{◌≡◌, ◌≢◌, ◌<◌, ◌↔◌, IsTrue};
ghost use Rattle.std.specs.List.{All};
ghost use Rattle.m3_model.specs.Ascends.{Ascends};
ghost use Rattle.m3_model.specs.Contents.{key_of};
ghost use Rattle.m3_model.specs.Reads.{IsOrdered};
ghost use Rattle.m3_model.specs.Tags as tags;
ghost use Rattle.cluster_core.specs.Answers.{IsKeyBelow};

use m3_model::{Key, Point, Series};
use placement_core::{Order, ascend};
use std::cmp::Ordering;

/// The nodes of a list differ.
pub struct Distinct;

impl Order<u8> for Distinct {
    ghost before = { λ one other. one ≢ other };

    fn is_before(first: &u8, later: &u8) -> bool {
        *first != *later
    }
}

/// The points of a series ascend by time.
struct ByTime;

impl Order<(u64, i64)> for ByTime {
    ghost before = { λ one other. one.0 < other.0 };

    fn is_before(first: &(u64, i64), later: &(u64, i64)) -> bool {
        first.0 < later.0
    }
}

/// The series of an answer ascend by identifier.
struct ById;

impl Order<Series> for ById {
    ghost before = { λ one other. tags.IsBelow one.id other.id };

    fn is_before(first: &Series, later: &Series) -> bool {
        first.id.cmp(&later.id) == Ordering::Less
    }
}

/// The points of a page ascend by key.
pub struct ByKey;

impl Order<Point> for ByKey {
    ghost before = { λ one other. IsKeyBelow (key_of one) (key_of other) };

    fn is_before(first: &Point, later: &Point) -> bool {
        let order = first
            .ns
            .cmp(&later.ns)
            .then(first.id.cmp(&later.id).then(first.t.cmp(&later.t)));
        order == Ordering::Less
    }
}

/// Whether the key is below the point's.
pub fn is_below(key: &Key, point: &Point) -> bool
    ensures { IsTrue result ↔ IsKeyBelow key.now (key_of point.now) }
{
    let order = key
        .ns
        .cmp(&point.ns)
        .then(key.id.cmp(&point.id).then(key.t.cmp(&point.t)));
    order == Ordering::Less
}

/// Whether identifiers and times ascend, and no series is empty.
pub fn is_ordered(series: &[Series]) -> bool
    ensures { IsTrue result ↔ IsOrdered series.now }
{
    ascend::<Series, ById>(series)
        && series.iter().all(|one| ascend::<(u64, i64), ByTime>(one.points.as_slice())
            && one.points.len() > 0)
}
