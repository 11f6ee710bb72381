ghost use Rattle.std.specs.Prelude.{◌≡◌, ◌↔◌, IfOk, IfErr, IfNone, IfSome, IsTrue};
ghost use Rattle.fileset_read.specs.wire_bytes.Fields.{StopsAt};
ghost use Rattle.fileset_read.specs.shard_files.Damage.{IsSomeInfo};
ghost use Rattle.fileset_check.specs.Numbers.{info_fields};
ghost use Rattle.fileset_check.specs.PartFiles.{HasHead};
ghost use Rattle.fileset_check.specs.Told.{HeadStops, IsInside};

use crate::numbers::{Field, field_of, number_stop};
use fileset_read::of_m3_model::limits::{DURATION_END, MOST_NAMESPACES, NUMBER_END, TIME_END};
use fileset_read::of_m3_outside::FileName;
use fileset_read::of_volume_bytes::Head;
use fileset_read::of_wire_bytes::get_number;

// The format of the volumes that are read.
const FORMAT: u64 = 1;

// Above the numbers of series that fit their field.
const SERIES_END: u64 = 1 << 32;

// The offset of the block's size in the info.
const SIZE: usize = 10;

// Whether a volume may have the numbers of this name.
fn is_inside(of: FileName) -> bool
    ensures { IsTrue result ↔ IsInside of.ns of.block of.number }
{
    usize::from(of.ns) < MOST_NAMESPACES && of.block < TIME_END && of.number < NUMBER_END
}

// The fields of the info of a volume of this name.
fn info_fields(of: FileName) -> [Field; 7]
    ensures { result ≡ info_fields of.ns of.block of.number }
{
    let ns = u64::from(of.ns);
    [
        field_of(1, FORMAT, FORMAT),
        field_of(1, ns, ns),
        field_of(8, of.block, of.block),
        field_of(8, 1, DURATION_END - 1),
        field_of(8, of.number, of.number),
        field_of(4, 1, SERIES_END - 1),
        field_of(8, 0, u64::MAX),
    ]
}

// The offset at which the bytes stop to be the info of a volume of this name; none where they are such.
fn info_stop(of: FileName, bytes: &[u8]) -> Option<usize>
    requires { IsInside of.ns of.block of.number }
    ensures none { IfNone result (IsSomeInfo of.ns of.block of.number bytes.now) }
    ensures some { IfSome result (StopsAt (IsSomeInfo of.ns of.block of.number) bytes.now) }
{
    number_stop(&info_fields(of), bytes)
}

/// The head that the info of the volume has of which this is a file. Takes no memory.
///
/// # Errors
///
/// The offset at which the bytes stop to be the info of a volume of this name: 0 where no volume has the name.
pub(crate) fn read_head(of: FileName, bytes: &[u8]) -> Result<Head, usize>
    ensures ok { IfOk result (HasHead of bytes.now) }
    ensures err { IfErr result (HeadStops of.ns of.block of.number bytes.now) }
{
    if !is_inside(of) {
        return Err(0);
    }
    match info_stop(of, bytes) {
        Some(at) => Err(at),
        None => Ok(Head {
            ns: of.ns,
            start: of.block,
            size: get_number(bytes, SIZE, 8).unwrap_or(0),
            number: of.number,
        }),
    }
}
