ghost use Rattle.std.specs.Prelude.{◌≡◌, ◌<◌, ◌≤◌, ◌++◌, map, OnOk, OnErr};
ghost use Rattle.byteorder.specs.Endian.{big_bytes};
ghost use Rattle.wire_bytes.specs.Fields.{Extends};
ghost use Rattle.wire_bytes.specs.Entries.{AllBounded, ArePoints, points_bytes, points_entry, fence_entry, tenure_entry};

use crate::numbers::put_number;
use crate::points::put_point;
use m3_model::{Memory, Point};

// The first bytes of entries.
pub(crate) const POINTS: u64 = 1;

pub(crate) const FENCE: u64 = 2;

pub(crate) const TENURE: u64 = 3;

// Appends the points; some of their bytes where memory is wanted.
fn push_points(out: &mut Vec<u8>, points: &[&Point]) -> Result<(), Memory>
    requires { AllBounded (map (λ p. p.now) points.now) }
    ensures ok { OnOk result (out.new.items ≡ out.old.items ++ points_bytes (map (λ p. p.now) points.now)) }
    ensures err { OnErr result (Extends out.old.items out.new.items) }
{
    for point in points {
        put_point(
            out,
            point.ns,
            point.id.as_str().as_bytes(),
            point.t,
            point.v,
        )?;
    }
    Ok(())
}

// Appends an entry of points; some of its bytes where memory is wanted.
fn push_points_entry(out: &mut Vec<u8>, points: &[&Point]) -> Result<(), Memory>
    requires { ArePoints (map (λ p. p.now) points.now) }
    ensures ok { OnOk result (out.new.items ≡ out.old.items ++ points_entry (map (λ p. p.now) points.now)) }
    ensures err { OnErr result (Extends out.old.items out.new.items) }
{
    put_number(out, 1, POINTS)?;
    put_number(out, 2, points.len() as u64)?;
    push_points(out, points)
}

// Appends a first byte and a number; some of their bytes where memory is wanted.
fn push_tagged(out: &mut Vec<u8>, tag: u64, number: u64) -> Result<(), Memory>
    requires { tag < 256 }
    ensures ok { OnOk result (out.new.items ≡ out.old.items ++ (big_bytes 1 tag ++ big_bytes 8 number)) }
    ensures err { OnErr result (Extends out.old.items out.new.items) }
{
    put_number(out, 1, tag)?;
    put_number(out, 8, number)
}

/// Appends the entry of these points: 1, their count in two bytes, and the points as `put_point` appends them. There are 1
/// to 64, each within the bounds of a point.
///
/// # Errors
///
/// Want of memory; nothing is appended then.
pub fn put_points(out: &mut Vec<u8>, points: &[&Point]) -> Result<(), Memory>
    requires { ArePoints (map (λ p. p.now) points.now) }
    ensures ok { OnOk result (out.new.items ≡ out.old.items ++ points_entry (map (λ p. p.now) points.now)) }
    ensures err { OnErr result (out.new.items ≡ out.old.items) }
{
    let len = out.len();
    let done = push_points_entry(out, points);
    if done.is_err() {
        out.truncate(len);
    }
    done
}

// Appends a first byte and a number.
fn put_tagged(out: &mut Vec<u8>, tag: u64, number: u64) -> Result<(), Memory>
    requires { tag < 256 }
    ensures ok { OnOk result (out.new.items ≡ out.old.items ++ (big_bytes 1 tag ++ big_bytes 8 number)) }
    ensures err { OnErr result (out.new.items ≡ out.old.items) }
{
    let len = out.len();
    let done = push_tagged(out, tag, number);
    if done.is_err() {
        out.truncate(len);
    }
    done
}

/// Appends the entry of this fence: 2, and the fence in eight bytes.
///
/// # Errors
///
/// Want of memory; nothing is appended then.
pub fn put_fence(out: &mut Vec<u8>, fence: u64) -> Result<(), Memory>
    ensures ok { OnOk result (out.new.items ≡ out.old.items ++ fence_entry fence) }
    ensures err { OnErr result (out.new.items ≡ out.old.items) }
{
    put_tagged(out, FENCE, fence)
}

/// Appends the entry of this tenure: 3, and the tenure in eight bytes.
///
/// # Errors
///
/// Want of memory; nothing is appended then.
pub fn put_tenure(out: &mut Vec<u8>, tenure: u64) -> Result<(), Memory>
    ensures ok { OnOk result (out.new.items ≡ out.old.items ++ tenure_entry tenure) }
    ensures err { OnErr result (out.new.items ≡ out.old.items) }
{
    put_tagged(out, TENURE, tenure)
}
