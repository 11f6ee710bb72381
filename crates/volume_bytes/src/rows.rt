ghost use Rattle.std.specs.Prelude.{◌≡◌, ◌+◌, ◌*◌, ◌<◌, ◌≤◌, ◌^◌, ◌++◌, flat_map, length, All, OnOk, FitsSigned};
ghost use Rattle.std.specs.Int.{w64};
ghost use Rattle.wire_bytes.specs.m3_model.declared.limits.TheConstants.{MOST_ID_BYTES};
ghost use Rattle.wire_bytes.specs.Volumes.{IsRow, id_bytes, pair_bytes, row_bytes};

use wire_bytes::of_m3_model::{Memory, Series};
use wire_bytes::put_number;

// Each of these appends some of its bytes where memory is wanted.

// Appends an identifier behind its length.
pub(crate) fn push_id(out: &mut Vec<u8>, id: &str) -> Result<(), Memory>
    requires { length id.now ≤ MOST_ID_BYTES }
    ensures { OnOk result (out.new.items ≡ out.old.items ++ id_bytes id.now) }
{
    put_number(out, 2, id.len() as u64)?;
    out.extend_from_slice(id.as_bytes())?;
    Ok(())
}

// Appends times and values.
fn push_pairs(out: &mut Vec<u8>, pairs: &[(u64, i64)]) -> Result<(), Memory>
    requires { All (λ x. FitsSigned w64 x.1) pairs.now }
    ensures { OnOk result (out.new.items ≡ out.old.items ++ flat_map pair_bytes pairs.now) }
{
    for pair in pairs {
        put_number(out, 8, pair.0)?;
        put_number(out, 8, pair.1.cast_unsigned())?;
    }
    Ok(())
}

// Appends a series as it stands in the data.
pub(crate) fn push_row(out: &mut Vec<u8>, row: &Series) -> Result<(), Memory>
    requires long { length row.now.id ≤ MOST_ID_BYTES }
    requires counted { length row.now.points < 2 ^ 32 }
    requires values { All (λ x. FitsSigned w64 x.1) row.now.points }
    ensures { OnOk result (out.new.items ≡ out.old.items ++ row_bytes row.now) }
{
    push_id(out, row.id.as_str())?;
    put_number(out, 4, row.points.len() as u64)?;
    push_pairs(out, row.points.as_slice())
}
