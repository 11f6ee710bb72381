ghost use Rattle.std.specs.Prelude.{◌≡◌, ◌↔◌, ◌+◌, ◌-◌, ◌*◌, ◌≤◌, ◌++◌, List, ℕ, ℤ, length, take, drop, flat_map, IsTrue};
ghost use Rattle.shard_files.specs.m3_model.declared.point.Series.{Series as Row};
ghost use Rattle.shard_files.specs.wire_bytes.Volumes.{data_bytes, pair_bytes};
ghost use Rattle.fileset_read.specs.Rows.{ArePairs, AreInside, AreSpelled, Gives, IsSeriesOf, IsSpelled, RowStands};

use crate::row_at::{RowAt, find_row};
use crate::row_err::RowErr;
use shard_files::of_m3_model::{Seq, Series, Text};
use shard_files::of_wire_bytes::get_number;
use std::alloc::Global;

// So many times and values, from the offset on.
fn read_pairs(
    alloc: Global,
    bytes: &[u8],
    from: usize,
    count: usize,
) -> Result<Seq<(u64, i64)>, RowErr>
    requires { from + 16 * count ≤ length bytes.now }
    ensures { (xs : List (ℕ × ℤ)) (rest : List ℕ) → ArePairs xs → length xs ≡ count → drop from bytes.now ≡ flat_map pair_bytes xs ++ rest → Gives result (λ pairs. pairs ≡ xs) }
{
    let mut pairs = Vec::new(alloc);
    let mut at = from;
    for _i in 0..count {
        let t = get_number(bytes, at, 8)?;
        let v = get_number(bytes, at + 8, 8)?;
        pairs.push((t, v.cast_signed()))?;
        at += 16;
    }
    Ok(Seq::from_vec(pairs))
}

// The series of the record.
fn read_series(alloc: Global, bytes: &[u8], found: RowAt) -> Result<Series, RowErr>
    requires { AreInside bytes.now found }
    ensures { (s : Row) (rest : List ℕ) → IsSpelled s → RowStands s rest bytes.now found → Gives result (λ read. read ≡ s) }
{
    let Ok(id) = str::from_utf8(&bytes[found.id_from..found.id_to]) else {
        return Err(RowErr::Form);
    };
    let id = Text::from_str(alloc, id)?;
    let points = read_pairs(alloc, bytes, found.from, found.count)?;
    Ok(Series { id, points })
}

// Whether the series of the record has this identifier.
fn has_id(bytes: &[u8], found: RowAt, id: &str) -> bool
    requires { AreInside bytes.now found }
    ensures { IsTrue result ↔ (take (found.id_to - found.id_from) (drop found.id_from bytes.now) ≡ id.now) }
{
    &bytes[found.id_from..found.id_to] == id.as_bytes()
}

/// The series whose records the bytes are, one after another.
pub fn rows_in(alloc: Global, bytes: &[u8]) -> Result<Seq<Series>, RowErr>
    ensures { (rows : List Row) → AreSpelled rows → bytes.now ≡ data_bytes rows → Gives result (λ read. read ≡ rows) }
{
    let mut rows = Vec::new(alloc);
    let mut at = 0;
    while at < bytes.len() {
        let found = find_row(bytes, at)?;
        let row = read_series(alloc, bytes, found)?;
        rows.push(row)?;
        at = found.next;
    }
    Ok(Seq::from_vec(rows))
}

/// The series of the identifier, of those whose records the bytes are. The points of no other are read.
pub(crate) fn series_in(alloc: Global, bytes: &[u8], id: &str) -> Result<Option<Series>, RowErr>
    ensures { (rows : List Row) → AreSpelled rows → bytes.now ≡ data_bytes rows → Gives result (IsSeriesOf id.now rows) }
{
    let mut at = 0;
    while at < bytes.len() {
        let found = find_row(bytes, at)?;
        if has_id(bytes, found, id) {
            return Ok(Some(read_series(alloc, bytes, found)?));
        }
        at = found.next;
    }
    Ok(None)
}
