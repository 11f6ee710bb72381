ghost use Rattle.std.specs.Prelude.{◌≡◌, ◌<◌, ◌^◌, ◌++◌, List, ℕ, length, IfOk};
ghost use Rattle.byteorder.specs.Endian.{big_bytes};
ghost use Rattle.wire_bytes.specs.m3_model.declared.point.Series.{Series as Row};
ghost use Rattle.wire_bytes.specs.Volumes.{VolumeHead, IsVolume, id_bytes, summaries_bytes};
ghost use Rattle.fileset_lookup.specs.Runs.{Gives, FindsPiece, FindsStart, piece_from};

use crate::fields::{split_id, split_number};
use std::cmp::Ordering;
use wire_bytes::WireErr;

/// A piece of an index: from one offset to another, or to its end.
#[derive(Clone, Copy, Debug, PartialEq, Eq)]
pub struct Piece {
    pub from: u64,
    pub to: Option<u64>,
}

// A summary: an identifier and the offset of its entry in the index; and what follows it.
fn split_summary(bytes: &[u8]) -> Result<(&[u8], u64, &[u8]), WireErr>
    ensures shorter { IfOk result (λ parts. length parts.2.now < length bytes.now) }
    ensures whole { (id : List ℕ) (at : ℕ) (rest : List ℕ) → length id < 2 ^ 16 → at < 2 ^ 64 → bytes.now ≡ (id_bytes id ++ big_bytes 8 at) ++ rest → Gives result (λ parts. (parts.0.now ≡ id) × (parts.1 ≡ at) × (parts.2.now ≡ rest)) }
{
    let (id, behind) = split_id(bytes)?;
    let (at, rest) = split_number(behind, 8)?;
    Ok((id, at, rest))
}

// The piece from one offset to the other, where there is the first.
fn piece_from(from: Option<u64>, to: Option<u64>) -> Option<Piece>
    ensures { result ≡ piece_from from to }
{
    Some(Piece { from: from?, to })
}

/// Where the entry of the identifier stands in the index of a volume of these summaries, if the volume has it: the piece of the
/// index from the offset that the last summary not above the identifier keeps to the offset in the next one, or to the end where
/// there is none. It has 16 entries at most. None exactly where each summary is above the identifier; the volume doesn't have it
/// then. Takes no memory, and time in proportion to the summaries up to the first that is above.
///
/// # Errors
///
/// The bytes are no summaries of a volume: they end within one.
pub fn span(summaries: &[u8], id: &[u8]) -> Result<Option<Piece>, WireErr>
    ensures { (v : VolumeHead) (rows : List Row) → IsVolume v rows → summaries.now ≡ summaries_bytes v.format rows → Gives result (FindsPiece v.format id.now rows) }
{
    let mut rest = summaries;
    let mut last = None;
    while !rest.is_empty() {
        let (other, at, later) = split_summary(rest)?;
        if id.cmp(other) == Ordering::Less {
            return Ok(piece_from(last, Some(at)));
        }
        last = Some(at);
        rest = later;
    }
    Ok(piece_from(last, None))
}

/// From where in the index of a volume of these summaries a search for the identifier begins: the offset that the last summary not
/// above the identifier keeps. None exactly where each summary is above it; the volume doesn't have it then. Takes no memory.
///
/// # Errors
///
/// The bytes are no summaries of a volume: they end within one.
pub fn from_summary(summaries: &[u8], id: &[u8]) -> Result<Option<u64>, WireErr>
    ensures { (v : VolumeHead) (rows : List Row) → IsVolume v rows → summaries.now ≡ summaries_bytes v.format rows → Gives result (FindsStart v.format id.now rows) }
{
    match span(summaries, id)? {
        Some(piece) => Ok(Some(piece.from)),
        None => Ok(None),
    }
}
