ghost use Rattle.std.specs.Prelude.{◌≡◌, true, List, ℕ, Some, IfOk, IfErr, IsErrOf};
ghost use Rattle.std.specs.FinMap.{get};
ghost use Rattle.shard_files.specs.m3_model.declared.point.Series.{Series as Row};
ghost use Rattle.shard_files.specs.m3_outside.Causes.{CountsFaults};
ghost use Rattle.shard_files.specs.m3_outside.DiskState.{DiskState, Told};
ghost use Rattle.shard_files.specs.m3_outside.DiskCalls.{LeavesFiles};
ghost use Rattle.shard_files.specs.wire_bytes.Volumes.{Data};
ghost use Rattle.shard_files.specs.Parts.{VolumeHolds, part_of};
ghost use Rattle.volume_bytes.specs.Heads.{head_of};
ghost use Rattle.fileset_read.specs.Rows.{IsSeriesOf};
ghost use Rattle.fileset_read.specs.Volumes.{IsThere, IsUndamaged, in_file};
ghost use Rattle.fileset_read.specs.declared.file_err.FileErr.TheVariants as failures;

use crate::file::read_file;
use crate::file_err::FileErr;
use crate::row_err::RowErr;
use crate::series::{rows_in, series_in};
use shard_files::of_m3_model::{Seq, Series};
use shard_files::of_m3_outside::{Disk, FileName};
use std::alloc::Global;
use volume_bytes::Head;

// The file that has the data of the volume.
fn data_name(head: &Head) -> FileName
    ensures { result ≡ part_of Data (head_of head.now) }
{
    FileName {
        kind: 4,
        ns: head.ns,
        block: head.start,
        number: head.number,
    }
}

// The same of the file.
fn in_file(e: RowErr, file: FileName) -> FileErr
    ensures { result ≡ in_file file e }
{
    match e {
        RowErr::Memory => FileErr::Memory,
        RowErr::Form => FileErr::Form { file },
    }
}

// The data of a volume.
fn read_data<D: Disk>(alloc: Global, disk: &mut D, file: FileName) -> Result<Seq<u8>, FileErr>
    ensures leaves { LeavesFiles (IsErrOf result failures.Disk) (D.state disk.old) (D.state disk.new) }
    ensures ok { (D.state disk.old).tells ≡ true → IfOk result (λ bytes. get (D.state disk.old).files file ≡ Some bytes) }
    ensures there { (D.state disk.old).tells ≡ true → (bytes : List ℕ) → get (D.state disk.old).files file ≡ Some bytes → IfErr result IsUndamaged }
{
    match read_file(alloc, disk, file)? {
        None => Err(FileErr::Form { file }),
        Some(bytes) => Ok(bytes),
    }
}

/// All series of a volume that counts, ascending by identifier. Its data alone is read, in one piece.
///
/// # Errors
///
/// A fault, by which the disk's count rose in this call. Want of memory. Damage only where the disk doesn't tell what it holds.
/// In any case the files, and what a stop leaves of them, are as they were.
pub fn rows<D: Disk>(alloc: Global, disk: &mut D, head: &Head) -> Result<Seq<Series>, FileErr>
    requires { Told (D.state disk.old) (IsThere (head_of head.now)) }
    ensures leaves { LeavesFiles (IsErrOf result failures.Disk) (D.state disk.old) (D.state disk.new) }
    ensures ok { (D.state disk.old).tells ≡ true → IfOk result (λ found. VolumeHolds (head_of head.now) found (D.state disk.old).files) }
    ensures sound { (D.state disk.old).tells ≡ true → IfErr result IsUndamaged }
    ensures faults { CountsFaults (IsErrOf result failures.Disk) (D.state disk.old).faults (D.state disk.new).faults }
{
    let file = data_name(head);
    let bytes = read_data(alloc, disk, file)?;
    match rows_in(alloc, bytes.as_slice()) {
        Ok(rows) => Ok(rows),
        Err(e) => Err(in_file(e, file)),
    }
}

/// The series of an identifier in a volume that counts, and none where the volume has none. Its data alone is read, in one
/// piece, and the points of no other series are taken from it.
///
/// # Errors
///
/// A fault, by which the disk's count rose in this call. Want of memory. Damage only where the disk doesn't tell what it holds.
/// In any case the files, and what a stop leaves of them, are as they were.
pub fn row<D: Disk>(
    alloc: Global,
    disk: &mut D,
    head: &Head,
    id: &str,
) -> Result<Option<Series>, FileErr>
    requires { Told (D.state disk.old) (IsThere (head_of head.now)) }
    ensures leaves { LeavesFiles (IsErrOf result failures.Disk) (D.state disk.old) (D.state disk.new) }
    ensures ok { (D.state disk.old).tells ≡ true → IfOk result (λ found. (rows : List Row) → VolumeHolds (head_of head.now) rows (D.state disk.old).files → IsSeriesOf id.now rows found) }
    ensures sound { (D.state disk.old).tells ≡ true → IfErr result IsUndamaged }
    ensures faults { CountsFaults (IsErrOf result failures.Disk) (D.state disk.old).faults (D.state disk.new).faults }
{
    let file = data_name(head);
    let bytes = read_data(alloc, disk, file)?;
    match series_in(alloc, bytes.as_slice(), id) {
        Ok(series) => Ok(series),
        Err(e) => Err(in_file(e, file)),
    }
}
