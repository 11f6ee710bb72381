ghost use Rattle.std.specs.Prelude.{◌≡◌, ℕ, ◌+◌, ◌<◌, ◌≤◌, ◌^◌, List, length, IfOk, IfErr, Ok as Right, Err as Wrong};
ghost use Rattle.byteorder.specs.Endian.{big_bytes};
ghost use Rattle.wire_bytes.specs.Fields.{Stands, IsFault};
ghost use Rattle.wire_bytes.specs.Points.{APoint};
ghost use Rattle.wire_bytes.specs.Entries.{AnEntry, EntryStands, PointsStand};
ghost use Rattle.wire_bytes.specs.Bodies.{SomePoints, SomeCounted};
ghost use Rattle.m3_model.specs.declared.limits.TheConstants.{MOST_PAGE_POINTS};
ghost use Rattle.m3_model.specs.declared.point.Point.{Point as APointOf};
ghost use Rattle.wire_bytes.specs.declared.wire_err.WireErr.{WireErr as Fault};
ghost use Rattle.wire_bytes.specs.declared.entry_read.EntryAt.{EntryAt as Found};

use crate::entries::{FENCE, POINTS, TENURE};
use crate::numbers::{get_between, get_number};
use crate::points::get_point;
use crate::wire_err::WireErr;
use m3_model::limits::MOST_PAGE_POINTS;

/// An entry that stands in some bytes. `next` is the offset behind it.
#[derive(Clone, Copy, Debug, PartialEq, Eq)]
pub enum EntryAt {
    /// So many points, one after another from `from` on, as `get_point` reads them.
    Points {
        count: usize,
        from: usize,
        next: usize,
    },
    Fence {
        fence: u64,
        next: usize,
    },
    Tenure {
        tenure: u64,
        next: usize,
    },
}

// The offset behind so many points.
fn behind_points(bytes: &[u8], from: usize, count: usize) -> Result<usize, WireErr>
    requires { from ≤ length bytes.now }
    ensures ok { IfOk result (λ next. (ps : List APointOf) × (length ps ≡ count) × PointsStand ps bytes.now from next) }
    ensures err { IfErr result (λ e. IsFault (SomePoints count) bytes.now from e) }
{
    let mut offset = from;
    for _i in 0..count {
        offset = get_point(bytes, offset)?.next;
    }
    Ok(offset)
}

// The points behind their count, which stands at the offset.
fn read_points(bytes: &[u8], at: usize) -> Result<(usize, usize), WireErr>
    ensures ok { IfOk result (λ r. (1 ≤ r.0) × (r.0 ≤ MOST_PAGE_POINTS) × ((ps : List APointOf) × (length ps ≡ r.0) × Stands (big_bytes 2 r.0) bytes.now at (at + 2) × PointsStand ps bytes.now (at + 2) r.1)) }
    ensures err { IfErr result (λ e. IsFault SomeCounted bytes.now at e) }
{
    let count = get_between(bytes, at, 2, 1, MOST_PAGE_POINTS as u64)? as usize;
    let next = behind_points(bytes, at + 2, count)?;
    Ok((count, next))
}

// The entry at the offset.
fn read_entry(bytes: &[u8], at: usize) -> Result<EntryAt, WireErr>
    ensures ok { IfOk result (λ e. EntryStands bytes.now at e) }
    ensures err { IfErr result (λ e. IsFault AnEntry bytes.now at e) }
{
    let tag = get_between(bytes, at, 1, POINTS, TENURE)?;
    if tag == POINTS {
        let (count, next) = read_points(bytes, at + 1)?;
        return Ok(EntryAt::Points {
            count,
            from: at + 3,
            next,
        });
    }
    let number = get_number(bytes, at + 1, 8)?;
    let next = at + 9;
    if tag == FENCE {
        return Ok(EntryAt::Fence {
            fence: number,
            next,
        });
    }
    Ok(EntryAt::Tenure {
        tenure: number,
        next,
    })
}

/// The entry at the offset. Takes no memory.
///
/// # Errors
///
/// `Short` where the bytes end within the entry, and `Bad` at the first byte with which no entry goes on.
pub fn get_entry(bytes: &[u8], at: usize) -> Result<EntryAt, WireErr>
    ensures ok { IfOk result (λ e. EntryStands bytes.now at e) }
    ensures err { IfErr result (λ e. IsFault AnEntry bytes.now at e) }
    ensures whole { (e : Found) → EntryStands bytes.now at e → result ≡ Right e }
    ensures fault { (e : Fault) → IsFault AnEntry bytes.now at e → result ≡ Wrong e }
{
    read_entry(bytes, at)
}
