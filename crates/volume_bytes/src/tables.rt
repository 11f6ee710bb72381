ghost use Rattle.std.specs.Prelude.{◌≡◌, ◌+◌, ◌<◌, ◌≤◌, ◌^◌, ◌∷◌, ◌++◌, List, length, IfOk, OnOk};
ghost use Rattle.wire_bytes.specs.m3_model.declared.limits.TheConstants.{MOST_ID_BYTES};
ghost use Rattle.wire_bytes.specs.m3_model.declared.point.Series.{Series as Row};
ghost use Rattle.wire_bytes.specs.Volumes.{count_of, id_bytes, index_entry, row_bytes, summaries_from};
ghost use Rattle.volume_bytes.specs.Heads.{FitsFields, AllFit};
ghost use Rattle.volume_bytes.specs.Tables.{AreTables};

use crate::rows::{push_id, push_row};
use std::alloc::Global;
use wire_bytes::of_m3_model::{Memory, Seq, Series};
use wire_bytes::put_number;

/// The bytes of the files that follow rows in their order.
#[derive(Drop)]
pub struct Tables {
    /// The series one after another.
    pub data: Seq<u8>,
    /// Where each of them stands in the data.
    pub index: Seq<u8>,
    /// Where every sixteenth stands in the index.
    pub summaries: Seq<u8>,
    /// How many points all series have.
    pub points: u64,
}

// How many series come from one in the summaries to the next.
const STEP: u32 = 16;

// Appends the summary of a series whose entry in the index begins at this offset, where none comes before it. Gives how many
// series then come before the next summary.
fn push_summary(out: &mut Vec<u8>, before: u32, id: &str, offset: usize) -> Result<u32, Memory>
    requires long { length id.now ≤ MOST_ID_BYTES }
    ensures { IfOk result (λ n. (row : Row) → row.id ≡ id.now → (rest : List Row) → out.new.items ++ summaries_from 1 n (offset + length (index_entry 1 0 row)) rest ≡ out.old.items ++ summaries_from 1 before offset (row ∷ rest)) }
{
    if before > 0 {
        return Ok(before - 1);
    }
    push_id(out, id)?;
    put_number(out, 8, offset as u64)?;
    Ok(STEP - 1)
}

// Appends a series to the data and its entry to the index.
fn push_series(body: &mut Vec<u8>, index: &mut Vec<u8>, row: &Series) -> Result<(), Memory>
    requires { FitsFields row.now }
    ensures body { OnOk result (body.new.items ≡ body.old.items ++ row_bytes row.now) }
    ensures index { OnOk result (index.new.items ≡ index.old.items ++ index_entry 1 (length body.old.items) row.now) }
{
    let at = body.len();
    push_row(body, row)?;
    push_id(index, row.id.as_str())?;
    put_number(index, 8, at as u64)?;
    put_number(index, 4, (body.len() - at) as u64)
}

/// The tables of these rows, in time in proportion to their bytes. Each series fits the fields of its record, and so does the
/// number of all points.
pub fn tables_of(alloc: Global, rows: &[Series]) -> Result<Tables, Memory>
    requires fits { AllFit rows.now }
    requires counted { count_of rows.now < 2 ^ 64 }
    ensures { IfOk result (AreTables rows.now) }
{
    let mut data = Vec::new(alloc);
    let mut index = Vec::new(alloc);
    let mut summaries = Vec::new(alloc);
    let mut points = 0;
    let mut before = 0;
    for row in rows {
        before = push_summary(&mut summaries, before, row.id.as_str(), index.len())?;
        push_series(&mut data, &mut index, row)?;
        points += row.points.len() as u64;
    }
    Ok(Tables {
        data: Seq::from_vec(data),
        index: Seq::from_vec(index),
        summaries: Seq::from_vec(summaries),
        points,
    })
}
