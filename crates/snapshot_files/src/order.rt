ghost use Rattle.std.specs.Prelude.{◌↔◌, IsTrue};
ghost use Rattle.fileset_check.specs.m3_model.Ascends.{Ascends};
ghost use Rattle.snapshot_files.specs.Snaps.{IsBefore};

use fileset_check::of_m3_model::Point;
use std::cmp::Ordering;

// Whether the key of the one is below that of the other.
fn is_before(one: &Point, other: &Point) -> bool
    ensures { IsTrue result ↔ IsBefore one.now other.now }
{
    let order = one
        .ns
        .cmp(&other.ns)
        .then(one.id.cmp(&other.id).then(one.t.cmp(&other.t)));
    order == Ordering::Less
}

/// Whether the points ascend by key, no two having one. Each is looked at twice.
pub(crate) fn is_ascending(points: &[Point]) -> bool
    ensures { IsTrue result ↔ Ascends IsBefore points.now }
{
    for i in 1..points.len() {
        if !is_before(&points[i - 1], &points[i]) {
            return false;
        }
    }
    true
}
