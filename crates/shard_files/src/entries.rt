ghost use Rattle.std.specs.Prelude.{◌≡◌, ℕ, ◌≤◌, List, length, IfOk, IfErr};
ghost use Rattle.commit_log.specs.wire_bytes.Fields.{Stands};
ghost use Rattle.commit_log.specs.wire_bytes.Entries.{IsBounded, bytes_of_point, PointsStand, EntryStands};
ghost use Rattle.shard_files.specs.Entries.{IsEntry, HasPoint, HavePoints, MayBreak, end_of};

use commit_log::of_m3_model::{Memory, Point, Seq, Text};
use commit_log::of_wire_bytes::{EntryAt, WireErr, get_entry, get_point};
use std::alloc::{AllocFailed, Global};
use thiserror::Error;

/// An entry of a replica's log.
#[derive(Drop)]
pub enum LogEntry {
    /// 1 to 64 points.
    Points { points: Seq<Point> },
    /// The fence rose to this one.
    Fence { fence: u64 },
    /// The replica began with this tenure.
    Tenure { tenure: u64 },
}

/// Why some bytes aren't read as an entry, or a segment as entries.
#[derive(Clone, Copy, Debug, PartialEq, Eq, Error)]
pub enum EntryErr {
    /// Want of memory.
    #[error("out of memory")]
    Memory,
    /// They are none: some entry, or some segment of entries, begins with the bytes before the offset `at`, and none goes on
    /// with the byte there, or there is none.
    #[error("no entry goes on with the byte at {at}")]
    Form { at: usize },
}

impl From<Memory> for EntryErr {
    ghost use Rattle.std.specs.Prelude.{◌≡◌};
    ghost use Rattle.shard_files.specs.declared.entries.EntryErr.TheVariants as refused;

    ghost from_gives = { λ _ e. e ≡ refused.Memory };

    fn from(_: Memory) -> EntryErr {
        EntryErr::Memory
    }
}

impl<T: Drop> From<AllocFailed<T>> for EntryErr {
    ghost use Rattle.std.specs.Prelude.{◌≡◌};
    ghost use Rattle.shard_files.specs.declared.entries.EntryErr.TheVariants as refused;

    ghost from_gives = { λ _ e. e ≡ refused.Memory };

    fn from(_: AllocFailed<T>) -> EntryErr {
        EntryErr::Memory
    }
}

// The point at the offset, and the offset behind it.
fn read_point(alloc: Global, bytes: &[u8], at: usize) -> Result<(Point, usize), Memory>
    requires { HasPoint bytes.now at }
    ensures { IfOk result (λ r. IsBounded r.0 × Stands (bytes_of_point r.0) bytes.now at r.1) }
{
    let found = get_point(bytes, at).unwrap();
    let id = str::from_utf8(&bytes[found.id_from..found.id_to]).unwrap();
    let point = Point {
        ns: found.ns,
        id: Text::from_str(alloc, id)?,
        t: found.t,
        v: found.v,
    };
    Ok((point, found.next))
}

// So many points, from the offset on.
fn read_points(alloc: Global, bytes: &[u8], from: usize, count: usize) -> Result<Seq<Point>, Memory>
    requires { HavePoints count bytes.now from }
    ensures { IfOk result (λ points. (next : ℕ) × (length points ≡ count) × PointsStand points bytes.now from next) }
{
    let mut points = Vec::new(alloc);
    let mut offset = from;
    for _i in 0..count {
        let (point, next) = read_point(alloc, bytes, offset)?;
        points.push(point)?;
        offset = next;
    }
    Ok(Seq::from_vec(points))
}

// The offset behind the entry.
fn end_of(found: EntryAt) -> usize
    ensures { result ≡ end_of found }
{
    match found {
        EntryAt::Points { next, .. } => next,
        EntryAt::Fence { next, .. } => next,
        EntryAt::Tenure { next, .. } => next,
    }
}

// The entry that the whole chunk is.
fn find_entry(chunk: &[u8]) -> Result<EntryAt, EntryErr>
    ensures ok { IfOk result (λ e. EntryStands chunk.now 0 e × (end_of e ≡ length chunk.now)) }
    ensures err { IfErr result (MayBreak chunk.now) }
{
    match get_entry(chunk, 0) {
        Ok(found) => {
            let at = end_of(found);
            if at < chunk.len() {
                return Err(EntryErr::Form { at });
            }
            Ok(found)
        }
        Err(WireErr::Short) => Err(EntryErr::Form { at: chunk.len() }),
        Err(WireErr::Bad { at }) => Err(EntryErr::Form { at }),
    }
}

/// The entry that the whole chunk is, with nothing behind it.
///
/// # Errors
///
/// Want of memory. Where the chunk is no entry, the first offset at which it breaks, which is its length where an entry goes
/// on beyond it.
pub fn read_entry(alloc: Global, chunk: &[u8]) -> Result<LogEntry, EntryErr>
    ensures ok { IfOk result (λ e. IsEntry chunk.now e) }
    ensures err { IfErr result (MayBreak chunk.now) }
{
    match find_entry(chunk)? {
        EntryAt::Points { count, from, .. } => {
            let points = read_points(alloc, chunk, from, count)?;
            Ok(LogEntry::Points { points })
        }
        EntryAt::Fence { fence, .. } => Ok(LogEntry::Fence { fence }),
        EntryAt::Tenure { tenure, .. } => Ok(LogEntry::Tenure { tenure }),
    }
}
