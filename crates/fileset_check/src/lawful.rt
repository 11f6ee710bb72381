ghost use Rattle.std.specs.Prelude.{◌↔◌, ◌≤◌, ◌^◌, [], IsTrue};
ghost use Rattle.fileset_read.specs.wire_bytes.Volumes.{IsHead, IsVolume};
ghost use Rattle.fileset_read.specs.volume_bytes.Heads.{head_of};
ghost use Rattle.fileset_check.specs.Lawful.{AreRows, AreTimes, IsRowIn};

use fileset_read::of_m3_model::Series;
use fileset_read::of_m3_model::limits::{
    DURATION_END, MOST_ID_BYTES, MOST_NAMESPACES, NUMBER_END, TIME_END,
};
use fileset_read::of_volume_bytes::Head;
use std::cmp::Ordering;

// Above all numbers of series that a volume may have, and of points that one of these may have.
const COUNT_END: usize = 1 << 28;

// Above the bytes that a series may have in the data.
const ROW_END: usize = 1 << 32;

// Whether the times ascend, from `start` on and below `end`.
fn are_times(pairs: &[(u64, i64)], start: u64, end: u64) -> bool
    requires { end ≤ 2 ^ 63 }
    ensures { IsTrue result ↔ AreTimes start end pairs.now }
{
    let mut least = start;
    for pair in pairs {
        let (t, _value) = *pair;
        if t < least || end <= t {
            return false;
        }
        least = t + 1;
    }
    true
}

// Whether the series may stand in a block from `start` on and below `end`.
fn is_row(row: &Series, start: u64, end: u64) -> bool
    requires { end ≤ 2 ^ 63 }
    ensures { IsTrue result ↔ IsRowIn start end row.now }
{
    let id = row.id.as_str().len();
    let count = row.points.len();
    1 <= id
        && id <= MOST_ID_BYTES
        && count < COUNT_END
        && 6 + id + 16 * count < ROW_END
        && are_times(row.points.as_slice(), start, end)
}

// Whether these may be the series of such a block: they ascend by identifier.
fn are_rows(rows: &[Series], start: u64, end: u64) -> bool
    requires { end ≤ 2 ^ 63 }
    ensures { IsTrue result ↔ AreRows start end [] rows.now }
{
    let mut last = "";
    for row in rows {
        if last.cmp(row.id.as_str()) != Ordering::Less || !is_row(row, start, end) {
            return false;
        }
        last = row.id.as_str();
    }
    true
}

// Whether each field of the head lies within its bounds.
fn is_head(head: &Head) -> bool
    ensures { IsTrue result ↔ IsHead (head_of head.now) }
{
    usize::from(head.ns) < MOST_NAMESPACES
        && head.start < TIME_END
        && 1 <= head.size
        && head.size < DURATION_END
        && head.number < NUMBER_END
}

// Whether a volume of this head may have these series.
fn has_rows(head: &Head, rows: &[Series]) -> bool
    requires { IsHead (head_of head.now) }
    ensures { IsTrue result ↔ IsVolume (head_of head.now) rows.now }
{
    if rows.len() == 0 || COUNT_END <= rows.len() {
        return false;
    }
    let end = (head.start + head.size).min(TIME_END);
    are_rows(rows, head.start, end)
}

/// Whether there may be a volume of this head with these series, in time in proportion to their bytes. Takes no memory.
pub fn is_volume(head: &Head, rows: &[Series]) -> bool
    ensures { IsTrue result ↔ IsVolume (head_of head.now) rows.now }
{
    is_head(head) && has_rows(head, rows)
}
