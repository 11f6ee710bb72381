//! Which points may be merged.
ghost use Rattle.std.specs.Prelude.{◌↔◌, IsTrue};
ghost use Rattle.listed_volumes.specs.wire_bytes.Entries.{AllBounded, IsBounded};
ghost use Rattle.joined_reads.specs.Beside.{AreMergeable};

use m3_model::Point;
use m3_model::limits::{MOST_ID_BYTES, MOST_NAMESPACES, MOST_PAGE_POINTS, TIME_END};

// Whether each value of the point lies within its bounds.
fn is_bounded(point: &Point) -> bool
    ensures { IsTrue result ↔ IsBounded point.now }
{
    let id = point.id.as_str().len();
    // Each value may be merged: it is read for the bounds of its type alone.
    let _value = point.v;
    usize::from(point.ns) < MOST_NAMESPACES && 1 <= id && id <= MOST_ID_BYTES && point.t < TIME_END
}

// Whether that is so of each point.
fn are_bounded(points: &[Point]) -> bool
    ensures { IsTrue result ↔ AllBounded points.now }
{
    match points.split_first() {
        Some((first, later)) => is_bounded(first) && are_bounded(later),
        None => true,
    }
}

/// Whether these are points as a page has them: no more than one may have, each within its bounds. Takes no memory.
pub fn are_mergeable(points: &[Point]) -> bool
    ensures { IsTrue result ↔ AreMergeable points.now }
{
    points.len() <= MOST_PAGE_POINTS && are_bounded(points)
}
