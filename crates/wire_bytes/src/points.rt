ghost use Rattle.std.specs.Prelude.{◌≡◌, ℕ, ◌+◌, ◌<◌, ◌≤◌, ◌^◌, ◌++◌, List, ℤ, length, OnOk, OnErr, IfOk, IfErr, IsUtf8, Ok as Right, Err as Wrong};
ghost use Rattle.wire_bytes.specs.Fields.{Stands, IsFault, Extends};
ghost use Rattle.wire_bytes.specs.Points.{IsPoint, point_bytes, APoint, PointStands};
ghost use Rattle.wire_bytes.specs.declared.wire_err.WireErr.{WireErr as Fault};
ghost use Rattle.wire_bytes.specs.declared.points.PointAt.{PointAt as Found};

use crate::numbers::{get_between, get_number, put_number};
use crate::texts::find_text;
use crate::wire_err::WireErr;
use m3_model::Memory;
use m3_model::limits::{MOST_ID_BYTES, MOST_NAMESPACES, TIME_END};

/// A point that stands in some bytes: its identifier is the bytes from `id_from` to `id_to`, and `next` is the offset
/// behind the point.
#[derive(Clone, Copy, Debug, PartialEq, Eq)]
pub struct PointAt {
    pub ns: u8,
    pub id_from: usize,
    pub id_to: usize,
    pub t: u64,
    pub v: i64,
    pub next: usize,
}

// Appends the fields of a point; some of its bytes where memory is wanted.
fn push_point(out: &mut Vec<u8>, ns: u8, id: &[u8], t: u64, v: i64) -> Result<(), Memory>
    requires { IsPoint ns id.now t v }
    ensures ok { OnOk result (out.new.items ≡ out.old.items ++ point_bytes ns id.now t v) }
    ensures err { OnErr result (Extends out.old.items out.new.items) }
{
    put_number(out, 1, u64::from(ns))?;
    put_number(out, 2, id.len() as u64)?;
    out.extend_from_slice(id)?;
    put_number(out, 8, t)?;
    put_number(out, 8, v.cast_unsigned())
}

/// Appends the point: its namespace in one byte, the length of its identifier in two, the identifier, its time and its
/// value in eight bytes each, the highest byte first. The namespace is below 8, the identifier is UTF-8 of 1 to 512 bytes,
/// and the time is below 2^62.
///
/// # Errors
///
/// Want of memory; nothing is appended then.
pub fn put_point(out: &mut Vec<u8>, ns: u8, id: &[u8], t: u64, v: i64) -> Result<(), Memory>
    requires { IsPoint ns id.now t v }
    ensures ok { OnOk result (out.new.items ≡ out.old.items ++ point_bytes ns id.now t v) }
    ensures err { OnErr result (out.new.items ≡ out.old.items) }
{
    let len = out.len();
    let done = push_point(out, ns, id, t, v);
    if done.is_err() {
        out.truncate(len);
    }
    done
}

// The point at the offset.
fn read_point(bytes: &[u8], at: usize) -> Result<PointAt, WireErr>
    ensures ok { IfOk result (λ p. PointStands bytes.now at p) }
    ensures err { IfErr result (λ e. IsFault APoint bytes.now at e) }
{
    let ns = get_between(bytes, at, 1, 0, MOST_NAMESPACES as u64 - 1)?;
    let len = get_between(bytes, at + 1, 2, 1, MOST_ID_BYTES as u64)?;
    let id_from = at + 3;
    find_text(bytes, id_from, len as usize)?;
    let id_to = id_from + len as usize;
    let t = get_between(bytes, id_to, 8, 0, TIME_END - 1)?;
    let v = get_number(bytes, id_to + 8, 8)?;
    Ok(PointAt {
        ns: ns as u8,
        id_from,
        id_to,
        t,
        v: v.cast_signed(),
        next: id_to + 16,
    })
}

/// The point at the offset. Takes no memory.
///
/// # Errors
///
/// `Short` where the bytes end within the point, and `Bad` at the first byte with which no point goes on.
pub fn get_point(bytes: &[u8], at: usize) -> Result<PointAt, WireErr>
    ensures ok { IfOk result (λ p. PointStands bytes.now at p) }
    ensures err { IfErr result (λ e. IsFault APoint bytes.now at e) }
    ensures whole { (p : Found) → PointStands bytes.now at p → result ≡ Right p }
    ensures fault { (e : Fault) → IsFault APoint bytes.now at e → result ≡ Wrong e }
{
    read_point(bytes, at)
}
