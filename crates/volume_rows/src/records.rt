ghost use Rattle.std.specs.Prelude.{◌≡◌, true, IfOk, IfErr, IsErrOf};
ghost use Rattle.fileset_read.specs.m3_model.Members.{IsIn};
ghost use Rattle.fileset_read.specs.m3_model.declared.point.Series.{Series as Row};
ghost use Rattle.fileset_read.specs.m3_outside.DiskState.{DiskState, Told};
ghost use Rattle.fileset_read.specs.m3_outside.DiskCalls.{LeavesFiles};
ghost use Rattle.fileset_read.specs.wire_bytes.Volumes.{row_bytes};
ghost use Rattle.fileset_read.specs.volume_bytes.Heads.{head_of};
ghost use Rattle.fileset_read.specs.Rows.{Gives, IsSpelled};
ghost use Rattle.fileset_read.specs.Volumes.{IsThere, IsUndamaged, in_file};
ghost use Rattle.fileset_read.specs.declared.file_err.FileErr.TheVariants as failures;
ghost use Rattle.volume_rows.specs.Stretches.{HasRecord, OfVolume};

use crate::parts::{DATA, part_name, read_stretch};
use fileset_lookup::Spot;
use fileset_read::of_m3_model::Series;
use fileset_read::of_m3_outside::{Disk, FileName};
use fileset_read::of_volume_bytes::Head;
use fileset_read::{FileErr, RowErr, rows_in};
use std::alloc::Global;

// The series of the identifier, whose record the bytes are.
fn row_in(alloc: Global, bytes: &[u8], id: &str) -> Result<Series, RowErr>
    ensures whole { (s : Row) → IsSpelled s → s.id ≡ id.now → bytes.now ≡ row_bytes s → Gives result (λ read. read ≡ s) }
    ensures named { IfOk result (λ s. s.id ≡ id.now) }
{
    let mut rows = rows_in(alloc, bytes)?.into_vec();
    let Some(row) = rows.pop() else {
        return Err(RowErr::Form);
    };
    if !rows.is_empty() || !row.id.equals(id) {
        return Err(RowErr::Form);
    }
    Ok(row)
}

/// The same of the file.
pub(crate) fn in_file(e: RowErr, file: FileName) -> FileErr
    ensures { result ≡ in_file file e }
{
    match e {
        RowErr::Memory => FileErr::Memory,
        RowErr::Form => FileErr::Form { file },
    }
}

/// The series of the identifier in a volume that counts, whose record stands there in its data. That record is read.
///
/// # Errors
///
/// A fault, by which the disk's count rose in this call. Want of memory. Damage only where the disk doesn't tell what it holds.
/// In any case the files, and what a stop leaves of them, are as they were.
pub(crate) fn read_row<D: Disk>(
    alloc: Global,
    disk: &mut D,
    head: &Head,
    spot: Spot,
    id: &str,
) -> Result<Series, FileErr>
    requires there { Told (D.state disk.old) (IsThere (head_of head.now)) }
    requires record_there { Told (D.state disk.old) (OfVolume (head_of head.now) (λ rows. HasRecord id.now rows spot)) }
    ensures leaves { LeavesFiles (IsErrOf result failures.Disk) (D.state disk.old) (D.state disk.new) }
    ensures ok { (D.state disk.old).tells ≡ true → IfOk result (λ found. OfVolume (head_of head.now) (λ rows. IsIn rows found) (D.state disk.old).files) }
    ensures named { IfOk result (λ found. found.id ≡ id.now) }
    ensures sound { (D.state disk.old).tells ≡ true → IfErr result IsUndamaged }
{
    let file = part_name(DATA, head);
    let bytes = read_stretch(alloc, disk, file, spot.at, u64::from(spot.len))?;
    match row_in(alloc, bytes.as_slice(), id) {
        Ok(series) => Ok(series),
        Err(e) => Err(in_file(e, file)),
    }
}
