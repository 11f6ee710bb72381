ghost use Rattle.std.specs.Prelude.{◌↔◌, IsTrue};
ghost use Rattle.fileset_check.specs.wire_bytes.Entries.{AllBounded, IsBounded};
ghost use Rattle.fileset_check.specs.wire_bytes.Snapshots.{IsSnapshot};
ghost use Rattle.snapshot_files.specs.Snaps.{seen};

use crate::order::is_ascending;
use crate::snap::Snap;
use fileset_check::of_m3_model::Point;
use fileset_check::of_m3_model::limits::{MOST_ID_BYTES, MOST_NAMESPACES, NUMBER_END, TIME_END};

// Above all numbers of points that a snapshot may have.
const COUNT_END: usize = 1 << 32;

// Whether each value of the point lies within its bounds.
fn is_bounded(point: &Point) -> bool
    ensures { IsTrue result ↔ IsBounded point.now }
{
    let id = point.id.as_str().len();
    // Each value may be saved: it is read for the bounds of its type alone.
    let _value = point.v;
    usize::from(point.ns) < MOST_NAMESPACES && 1 <= id && id <= MOST_ID_BYTES && point.t < TIME_END
}

// Whether that is so of each point.
fn are_bounded(points: &[Point]) -> bool
    ensures { IsTrue result ↔ AllBounded points.now }
{
    for point in points {
        if !is_bounded(point) {
            return false;
        }
    }
    true
}

/// Whether this may be saved: its number, the number of its points and each value of these lie within their bounds, and the points
/// ascend by key, no two having one. Takes no memory.
pub fn is_snapshot(snap: &Snap) -> bool
    ensures { IsTrue result ↔ IsSnapshot (seen snap.now) }
{
    // Each value of these fields may be saved: they are read for the bounds of their types alone.
    let _tenure = snap.tenure;
    let _fence = snap.fence;
    let _first = snap.first;
    let points = snap.points.as_slice();
    snap.number < NUMBER_END
        && points.len() < COUNT_END
        && are_bounded(points)
        && is_ascending(points)
}
