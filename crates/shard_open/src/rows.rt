//! Points of a volume's series.
ghost use Rattle.std.specs.Prelude.{◌≡◌, ◌++◌, OnOk};
ghost use Rattle.snapshot_files.specs.wire_bytes.Volumes.{points_of_row, points_of_rows};

use m3_model::{Duplicate, Memory, Point, Series};
use std::alloc::Global;

// Appends the points of the series, which is of this namespace.
fn append_row(alloc: Global, ns: u8, row: &Series, points: &mut Vec<Point>) -> Result<(), Memory>
    ensures { OnOk result (points.new.items ≡ points.old.items ++ points_of_row ns row.now) }
{
    for pair in row.points.as_slice() {
        let (t, v) = *pair;
        let id = row.id.copy(alloc)?;
        points.push(Point { ns, id, t, v })?;
    }
    Ok(())
}

/// Appends the points of the series, which are of this namespace, in order.
///
/// # Errors
///
/// Want of memory, after which the first few of them are appended.
pub fn append_rows(
    alloc: Global,
    ns: u8,
    rows: &[Series],
    points: &mut Vec<Point>,
) -> Result<(), Memory>
    ensures { OnOk result (points.new.items ≡ points.old.items ++ points_of_rows ns rows.now) }
{
    for row in rows {
        append_row(alloc, ns, row, points)?;
    }
    Ok(())
}
