ghost use Rattle.std.specs.Prelude.{◌≡◌, ◌<◌, ◌^◌, ◌++◌, length, IfOk, OnOk};
ghost use Rattle.fileset_check.specs.wire_bytes.Entries.{AllBounded, points_bytes};
ghost use Rattle.fileset_check.specs.wire_bytes.Snapshots.{IsSnapshot, snapshot_bytes};
ghost use Rattle.snapshot_files.specs.Snaps.{head_bytes, seen};

use crate::snap::Snap;
use fileset_check::of_m3_model::{Memory, Point, Seq};
use fileset_check::of_wire_bytes::{put_number, put_point};
use std::alloc::Global;

/// The first byte of a snapshot's data.
pub(crate) const FORMAT: u64 = 1;

// What stands before the points.
fn head_of(alloc: Global, snap: &Snap) -> Result<Vec<u8>, Memory>
    requires { length snap.now.points < 2 ^ 32 }
    ensures { IfOk result (λ out. out.items ≡ head_bytes snap.now.number snap.now.tenure snap.now.fence snap.now.first (length snap.now.points)) }
{
    let mut out = Vec::new(alloc);
    put_number(&mut out, 1, FORMAT)?;
    put_number(&mut out, 8, snap.number)?;
    put_number(&mut out, 8, snap.tenure)?;
    put_number(&mut out, 8, snap.fence)?;
    put_number(&mut out, 8, snap.first)?;
    put_number(&mut out, 4, snap.points.len() as u64)?;
    Ok(out)
}

// Appends the points, one after another.
fn put_points(out: &mut Vec<u8>, points: &[Point]) -> Result<(), Memory>
    requires { AllBounded points.now }
    ensures { OnOk result (out.new.items ≡ out.old.items ++ points_bytes points.now) }
{
    for point in points {
        put_point(
            out,
            point.ns,
            point.id.as_str().as_bytes(),
            point.t,
            point.v,
        )?;
    }
    Ok(())
}

/// The bytes of the snapshot's data.
pub(crate) fn bytes_of(alloc: Global, snap: &Snap) -> Result<Seq<u8>, Memory>
    requires { IsSnapshot (seen snap.now) }
    ensures { IfOk result (λ bytes. bytes ≡ snapshot_bytes (seen snap.now)) }
{
    let mut out = head_of(alloc, snap)?;
    put_points(&mut out, snap.points.as_slice())?;
    Ok(Seq::from_vec(out))
}
