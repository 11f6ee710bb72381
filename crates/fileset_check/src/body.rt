ghost use Rattle.std.specs.Prelude.{IfOk, IfErr};
ghost use Rattle.fileset_read.specs.volume_bytes.Heads.{head_of};
ghost use Rattle.fileset_check.specs.PartFiles.{IsBody, MayBeNoData};

use crate::lawful::is_volume;
use fileset_read::of_m3_model::{Seq, Series};
use fileset_read::of_volume_bytes::{Head, Tables, tables_of};
use fileset_read::{RowErr, rows_in};
use std::alloc::Global;

/// The series of a volume, and the bytes that they give.
#[derive(Drop)]
pub(crate) struct Body {
    pub rows: Seq<Series>,
    pub tables: Tables,
}

/// The series that a volume of this head has whose data the bytes are.
///
/// # Errors
///
/// Want of memory. That the bytes are the data of no volume of this head.
pub(crate) fn read_body(alloc: Global, head: &Head, bytes: &[u8]) -> Result<Body, RowErr>
    ensures ok { IfOk result (IsBody (head_of head.now) bytes.now) }
    ensures err { IfErr result (MayBeNoData (head_of head.now) bytes.now) }
{
    let rows = rows_in(alloc, bytes)?;
    if !is_volume(head, rows.as_slice()) {
        return Err(RowErr::Form);
    }
    let tables = tables_of(alloc, rows.as_slice())?;
    if tables.data.as_slice() != bytes {
        return Err(RowErr::Form);
    }
    Ok(Body { rows, tables })
}
