ghost use Rattle.std.specs.Prelude.{◌≡◌, ◌↔◌, ◌<◌, ◌≤◌, ◌^◌, length, IfOk, IfErr, IsTrue, Ok as Right};
ghost use Rattle.fileset_check.specs.m3_model.Ascends.{Ascends};
ghost use Rattle.fileset_check.specs.wire_bytes.Fields.{Stands};
ghost use Rattle.fileset_check.specs.wire_bytes.Entries.{IsBounded, PointsStand, bytes_of_point};
ghost use Rattle.fileset_check.specs.shard_files.Damage.{IsBody};
ghost use Rattle.fileset_check.specs.shard_files.Entries.{HasPoint, HavePoints};
ghost use Rattle.snapshot_files.specs.Bodies.{IsReadAs, Refuses, head_in};
ghost use Rattle.snapshot_files.specs.Snaps.{IsBefore, head_bytes};

use crate::bytes::FORMAT;
use crate::order::is_ascending;
use crate::snap::Snap;
use fileset_check::of_fileset_read::RowErr;
use fileset_check::of_m3_model::limits::NUMBER_END;
use fileset_check::of_m3_model::{Point, Seq, Text};
use fileset_check::of_wire_bytes::{WireErr, get_between, get_number, get_point};
use std::alloc::Global;

// What stands before the points, and how many bytes that has.
#[derive(Clone, Copy)]
struct Head {
    tenure: u64,
    fence: u64,
    first: u64,
    count: u64,
}

const HEAD_BYTES: usize = 37;

// What stands before the points of the snapshot of this number.
fn read_head(number: u64, bytes: &[u8]) -> Result<Head, WireErr>
    ensures ok { IfOk result (λ h. Stands (head_bytes number h.tenure h.fence h.first h.count) bytes.now 0 37) }
    ensures few { IfOk result (λ h. h.count < 2 ^ 32) }
    ensures whole { (b : IsBody number bytes.now) → result ≡ Right (head_in b.snapshot) }
{
    get_between(bytes, 0, 1, FORMAT, FORMAT)?;
    get_between(bytes, 1, 8, number, number)?;
    let tenure = get_number(bytes, 9, 8)?;
    let fence = get_number(bytes, 17, 8)?;
    let first = get_number(bytes, 25, 8)?;
    let count = get_number(bytes, 33, 4)?;
    Ok(Head {
        tenure,
        fence,
        first,
        count,
    })
}

// The point at the offset, and the offset behind it.
fn read_point(alloc: Global, bytes: &[u8], at: usize) -> Result<(Point, usize), RowErr>
    ensures ok { IfOk result (λ r. IsBounded r.0 × Stands (bytes_of_point r.0) bytes.now at r.1) }
    ensures err { IfErr result (Refuses (HasPoint bytes.now at)) }
{
    let found = get_point(bytes, at)?;
    let id = str::from_utf8(&bytes[found.id_from..found.id_to]).unwrap();
    let point = Point {
        ns: found.ns,
        id: Text::from_str(alloc, id)?,
        t: found.t,
        v: found.v,
    };
    Ok((point, found.next))
}

// So many points, from the offset on, and the offset behind them.
fn read_points(
    alloc: Global,
    bytes: &[u8],
    from: usize,
    count: usize,
) -> Result<(Seq<Point>, usize), RowErr>
    requires { from ≤ length bytes.now }
    ensures ok { IfOk result (λ r. (length r.0 ≡ count) × PointsStand r.0 bytes.now from r.1) }
    ensures err { IfErr result (Refuses (HavePoints count bytes.now from)) }
{
    let mut points = Vec::new(alloc);
    let mut offset = from;
    for _i in 0..count {
        let (point, next) = read_point(alloc, bytes, offset)?;
        points.push(point)?;
        offset = next;
    }
    Ok((Seq::from_vec(points), offset))
}

// Whether the points ascend, and the offset behind them is the end.
fn fill(points: &[Point], next: usize, end: usize) -> bool
    ensures { IsTrue result ↔ ((next ≡ end) × Ascends IsBefore points.now) }
{
    next == end && is_ascending(points)
}

/// The snapshot of this number whose data the bytes are.
///
/// # Errors
///
/// Want of memory. That they are the data of no such snapshot.
pub(crate) fn read_body(alloc: Global, number: u64, bytes: &[u8]) -> Result<Snap, RowErr>
    ensures ok { IfOk result (IsReadAs number bytes.now) }
    ensures err { IfErr result (Refuses (IsBody number bytes.now)) }
{
    if NUMBER_END <= number {
        return Err(RowErr::Form);
    }
    let head = read_head(number, bytes)?;
    let (points, next) = read_points(alloc, bytes, HEAD_BYTES, head.count as usize)?;
    if !fill(points.as_slice(), next, bytes.len()) {
        return Err(RowErr::Form);
    }
    Ok(Snap {
        number,
        tenure: head.tenure,
        fence: head.fence,
        first: head.first,
        points,
    })
}
