ghost use Rattle.std.specs.Prelude.{◌≡◌, ◌↔◌, ℕ, List, ◌++◌, length, IfOk, IsTrue};
ghost use Rattle.std.specs.Option.{option_copied};
ghost use Rattle.wire_bytes.specs.m3_model.declared.point.Series.{Series as Row};
ghost use Rattle.wire_bytes.specs.Volumes.{VolumeHead, IsVolume, data_bytes, index_from, row_bytes};
ghost use Rattle.fileset_lookup.specs.Runs.{Gives};
ghost use Rattle.fileset_lookup.specs.Extents.{AreSkipped, AreTaken, IsBeyond, IsExtent};

use crate::entries::{Spot, split_entry};
use std::cmp::Ordering;
use wire_bytes::WireErr;

/// Where the records of rows that stand one after another begin in the data of a volume, and how many bytes they have. That
/// of no rows has no bytes, and its `at` says nothing.
#[derive(Clone, Copy, Debug, PartialEq, Eq)]
pub struct Extent {
    pub at: u64,
    pub len: u64,
    /// Whether no row behind them is up to the last identifier.
    pub whole: bool,
}

// Whether the identifier is above the last one, where there is one.
fn is_beyond(id: &[u8], last: Option<&[u8]>) -> bool
    ensures { IsTrue result ↔ IsBeyond (option_copied last.entry) id.now }
{
    match last {
        Some(last) => last.cmp(id) == Ordering::Less,
        None => false,
    }
}

// How many points the series of this identifier has, by how many bytes its record has.
fn points_of(id: &[u8], spot: Spot) -> u64
    ensures { (s : Row) → s.id ≡ id.now → spot.len ≡ length (row_bytes s) → result ≡ length s.points }
{
    (u64::from(spot.len)).saturating_sub(6 + id.len() as u64) / 16
}

// The entries from the first one on whose identifier isn't below this one.
fn skip_below<'a>(index: &'a [u8], id: &[u8]) -> Result<&'a [u8], WireErr>
    ensures { (v : VolumeHead) (before rows later : List Row) → IsVolume v (before ++ (rows ++ later)) → v.format ≡ 1 → index.now ≡ index_from 1 (length (data_bytes before)) rows → Gives result (λ rest. AreSkipped id.now before rows rest.now) }
{
    let mut rest = index;
    while !rest.is_empty() {
        let (other, _, later) = split_entry(rest)?;
        if other.cmp(id) != Ordering::Less {
            return Ok(rest);
        }
        rest = later;
    }
    Ok(rest)
}

// Where the records of the first rows of these entries stand: of all up to the last identifier, or of so many that they have as many
// points as are wanted beside those of the first one.
fn take_entries(entries: &[u8], last: Option<&[u8]>, most: u64) -> Result<Extent, WireErr>
    ensures { (v : VolumeHead) (before rows later : List Row) → IsVolume v (before ++ (rows ++ later)) → v.format ≡ 1 → entries.now ≡ index_from 1 (length (data_bytes before)) rows → Gives result (AreTaken (option_copied last.entry) most before rows) }
{
    let mut taken = Extent {
        at: 0,
        len: 0,
        whole: true,
    };
    let mut points: u64 = 0;
    let mut rest = entries;
    while !rest.is_empty() {
        let (id, spot, later) = split_entry(rest)?;
        if is_beyond(id, last) {
            return Ok(taken);
        }
        if most <= points {
            return Ok(Extent {
                whole: false,
                ..taken
            });
        }
        if taken.len == 0 {
            taken.at = spot.at;
        } else {
            points = points.saturating_add(points_of(id, spot));
        }
        taken.len = taken.len.saturating_add(u64::from(spot.len));
        rest = later;
    }
    Ok(taken)
}

/// Where the records of a volume of format 1 stand in its data that are those of the identifier and of the ones above it, by the entries of
/// some of its rows, one after another: those up to the last identifier, where there is one, or the first of them that have as
/// many points as `most` beside those of the first row, and no more than these; whole where none of the former is left out. Takes
/// no memory, and time in proportion to the entries up to the last of them.
///
/// # Errors
///
/// The bytes are no such entries: they end within one.
pub fn find_extent(
    index: &[u8],
    id: &[u8],
    last: Option<&[u8]>,
    most: u64,
) -> Result<Extent, WireErr>
    ensures { (v : VolumeHead) (before rows later : List Row) → IsVolume v (before ++ (rows ++ later)) → v.format ≡ 1 → index.now ≡ index_from 1 (length (data_bytes before)) rows → Gives result (IsExtent id.now (option_copied last.entry) most before rows) }
{
    take_entries(skip_below(index, id)?, last, most)
}
