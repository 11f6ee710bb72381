ghost use Rattle.std.specs.Prelude.{◌≡◌, ◌<◌, ◌^◌, ◌++◌, List, ℕ, length, drop, IfOk};
ghost use Rattle.byteorder.specs.Endian.{big_bytes};
ghost use Rattle.wire_bytes.specs.m3_model.declared.point.Series.{Series as Row};
ghost use Rattle.wire_bytes.specs.Volumes.{VolumeHead, IsVolume, id_bytes, data_bytes, index_from};
ghost use Rattle.fileset_lookup.specs.Runs.{Gives};
ghost use Rattle.fileset_lookup.specs.Spots.{FindsSpot};

use crate::fields::{split_id, split_number};
use std::cmp::Ordering;
use wire_bytes::WireErr;

/// Where the record of a series stands in the data of a volume: its offset, and how many bytes it has.
#[derive(Clone, Copy, Debug, PartialEq, Eq)]
pub struct Spot {
    pub at: u64,
    pub len: u32,
}

// The fields of an entry behind its identifier, and what follows them.
fn split_spot(bytes: &[u8]) -> Result<(Spot, &[u8]), WireErr>
    ensures shorter { IfOk result (λ parts. length parts.1.now < length bytes.now) }
    ensures whole { (at len : ℕ) (rest : List ℕ) → at < 2 ^ 64 → len < 2 ^ 32 → bytes.now ≡ big_bytes 8 at ++ (big_bytes 4 len ++ rest) → Gives result (λ parts. (parts.0.at ≡ at) × (parts.0.len ≡ len) × (parts.1.now ≡ rest)) }
{
    let (at, behind) = split_number(bytes, 8)?;
    let (len, rest) = split_number(behind, 4)?;
    let spot = Spot {
        at,
        len: len as u32,
    };
    Ok((spot, rest))
}

/// An entry of an index: an identifier and where its series stands in the data; and what follows it.
///
/// # Errors
///
/// The bytes end within the entry.
pub(crate) fn split_entry(bytes: &[u8]) -> Result<(&[u8], Spot, &[u8]), WireErr>
    ensures shorter { IfOk result (λ parts. length parts.2.now < length bytes.now) }
    ensures whole { (id : List ℕ) (at len : ℕ) (rest : List ℕ) → length id < 2 ^ 16 → at < 2 ^ 64 → len < 2 ^ 32 → bytes.now ≡ id_bytes id ++ (big_bytes 8 at ++ (big_bytes 4 len ++ rest)) → Gives result (λ parts. (parts.0.now ≡ id) × (parts.1.at ≡ at) × (parts.1.len ≡ len) × (parts.2.now ≡ rest)) }
{
    let (id, behind) = split_id(bytes)?;
    let (spot, rest) = split_spot(behind)?;
    Ok((id, spot, rest))
}

// What follows the first `at` bytes, and nothing where there are fewer.
fn rest_at(bytes: &[u8], at: u64) -> &[u8]
    ensures { result.now ≡ drop at bytes.now }
{
    match bytes.get(at as usize..) {
        Some(rest) => rest,
        None => &[],
    }
}

/// Where the series of the identifier stands in the data of a volume of format 1, by the entries of an index from this offset on. They
/// are those of some rows of the volume, one after another: of a piece that `span` gives, or of an index from an offset that
/// `from_summary` gives. None exactly where no entry from there on has the identifier. Takes no memory, and time in proportion to
/// the entries up to the first that isn't below the identifier.
///
/// # Errors
///
/// The bytes from there on are no such entries: they end within one.
pub fn find(index: &[u8], at: u64, id: &[u8]) -> Result<Option<Spot>, WireErr>
    ensures { (v : VolumeHead) (before rows later : List Row) → IsVolume v (before ++ (rows ++ later)) → v.format ≡ 1 → drop at index.now ≡ index_from 1 (length (data_bytes before)) rows → Gives result (FindsSpot id.now before rows) }
{
    let mut rest = rest_at(index, at);
    while !rest.is_empty() {
        let (other, spot, later) = split_entry(rest)?;
        match id.cmp(other) {
            Ordering::Less => return Ok(None),
            Ordering::Equal => return Ok(Some(spot)),
            Ordering::Greater => rest = later,
        }
    }
    Ok(None)
}
