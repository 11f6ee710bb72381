ghost use Rattle.std.specs.Prelude.{◌≡◌, ◌<◌, ◌≤◌, ◌++◌, List, ℕ, length, drop, IfOk};
ghost use Rattle.shard_files.specs.m3_model.declared.point.Series.{Series as Row};
ghost use Rattle.shard_files.specs.wire_bytes.Volumes.{row_bytes};
ghost use Rattle.fileset_read.specs.Rows.{AreInside, FindsRow, IsSpelled};

use shard_files::of_wire_bytes::{WireErr, get_number};

/// The record of a series in the data of a volume: its identifier is the bytes from `id_from` to `id_to`, `count` times with
/// their values stand from `from` on, and `next` is the offset behind them.
#[derive(Clone, Copy)]
pub(crate) struct RowAt {
    pub id_from: usize,
    pub id_to: usize,
    pub count: usize,
    pub from: usize,
    pub next: usize,
}

// How many bytes a time and its value have.
const PAIR_BYTES: usize = 16;

/// Where the parts of the record at the offset stand. Takes no memory.
///
/// # Errors
///
/// The bytes end within the record.
pub(crate) fn find_row(bytes: &[u8], at: usize) -> Result<RowAt, WireErr>
    requires { at ≤ length bytes.now }
    ensures inside { IfOk result (AreInside bytes.now) }
    ensures past { IfOk result (λ r. at < r.next) }
    ensures whole { (s : Row) (rest : List ℕ) → IsSpelled s → drop at bytes.now ≡ row_bytes s ++ rest → FindsRow result s rest bytes.now }
{
    let id_from = at + 2;
    let id_to = id_from + get_number(bytes, at, 2)? as usize;
    let from = id_to + 4;
    let count = get_number(bytes, id_to, 4)? as usize;
    let next = from + PAIR_BYTES * count;
    if bytes.len() < next {
        return Err(WireErr::Short);
    }
    Ok(RowAt {
        id_from,
        id_to,
        count,
        from,
        next,
    })
}
