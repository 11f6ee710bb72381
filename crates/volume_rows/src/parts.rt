ghost use Rattle.std.specs.Prelude.{◌≡◌, true, ℕ, List, length, take, drop, Some, IfOk, IfErr, IsErrOf, option_map};
ghost use Rattle.std.specs.FinMap.{get};
ghost use Rattle.fileset_read.specs.m3_outside.DiskState.{DiskState, Told};
ghost use Rattle.fileset_read.specs.m3_outside.DiskCalls.{LeavesFiles};
ghost use Rattle.fileset_read.specs.m3_outside.Files.{IsInside};
ghost use Rattle.fileset_read.specs.m3_outside.declared.disk_err.DiskErr.TheVariants.{Failed as DiskFailed};
ghost use Rattle.fileset_read.specs.wire_bytes.Volumes.{Part};
ghost use Rattle.fileset_read.specs.shard_files.Parts.{kind_of, part_of};
ghost use Rattle.fileset_read.specs.volume_bytes.Heads.{head_of};
ghost use Rattle.fileset_read.specs.Volumes.{IsUndamaged};
ghost use Rattle.fileset_read.specs.declared.file_err.FileErr.TheVariants as failures;

use fileset_read::of_m3_model::Seq;
use fileset_read::of_m3_outside::{Disk, DiskErr, FileName};
use fileset_read::of_volume_bytes::Head;
use fileset_read::{FileErr, read_file};
use std::alloc::Global;

// The kinds of the files of a volume that are read here.
pub(crate) const SUMMARIES: u8 = 2;

pub(crate) const INDEX: u8 = 3;

pub(crate) const DATA: u8 = 4;

pub(crate) const BLOOM: u8 = 5;

/// The file of this kind of the volume.
pub(crate) fn part_name(kind: u8, head: &Head) -> FileName
    ensures { (part : Part) → kind ≡ kind_of part → result ≡ part_of part (head_of head.now) }
{
    FileName {
        kind,
        ns: head.ns,
        block: head.start,
        number: head.number,
    }
}

/// So many bytes of a file, from this offset on.
///
/// # Errors
///
/// A fault, by which the disk's count rose in this call. Want of memory. After either the files, and what a stop leaves of
/// them, are as they were.
pub(crate) fn read_stretch<D: Disk>(
    alloc: Global,
    disk: &mut D,
    file: FileName,
    at: u64,
    len: u64,
) -> Result<Seq<u8>, DiskErr>
    requires { Told (D.state disk.old) (IsInside file at len) }
    ensures leaves { LeavesFiles (IsErrOf result DiskFailed) (D.state disk.old) (D.state disk.new) }
    ensures ok { (D.state disk.old).tells ≡ true → IfOk result (λ bytes. (whole : List ℕ) → get (D.state disk.old).files file ≡ Some whole → bytes ≡ take len (drop at whole)) }
{
    let mut bytes = vec![in alloc; 0u8; len as usize]?;
    disk.read(file, at, &mut bytes)?;
    Ok(Seq::from_vec(bytes))
}

/// The bytes of a file of a volume that is there.
///
/// # Errors
///
/// A fault, by which the disk's count rose in this call. Want of memory. Damage only where there is no such file. In any case the
/// files, and what a stop leaves of them, are as they were.
pub(crate) fn read_part<D: Disk>(
    alloc: Global,
    disk: &mut D,
    file: FileName,
) -> Result<Seq<u8>, FileErr>
    ensures leaves { LeavesFiles (IsErrOf result failures.Disk) (D.state disk.old) (D.state disk.new) }
    ensures ok { (D.state disk.old).tells ≡ true → IfOk result (λ bytes. get (D.state disk.old).files file ≡ Some bytes) }
    ensures there { (D.state disk.old).tells ≡ true → (bytes : List ℕ) → get (D.state disk.old).files file ≡ Some bytes → IfErr result IsUndamaged }
{
    match read_file(alloc, disk, file)? {
        None => Err(FileErr::Form { file }),
        Some(bytes) => Ok(bytes),
    }
}

// The size of a file, and none where there is no such file.
fn size_of<D: Disk>(disk: &mut D, file: FileName) -> Result<Option<u64>, DiskErr>
    ensures leaves { LeavesFiles (IsErrOf result DiskFailed) (D.state disk.old) (D.state disk.new) }
    ensures ok { (D.state disk.old).tells ≡ true → IfOk result (λ size. size ≡ option_map length (get (D.state disk.old).files file)) }
{
    Ok(disk.size(file)?)
}

/// How many bytes a file of a volume that is there has.
///
/// # Errors
///
/// A fault, by which the disk's count rose in this call. Damage only where there is no such file. In any case the files, and what
/// a stop leaves of them, are as they were.
pub(crate) fn part_len<D: Disk>(disk: &mut D, file: FileName) -> Result<u64, FileErr>
    ensures leaves { LeavesFiles (IsErrOf result failures.Disk) (D.state disk.old) (D.state disk.new) }
    ensures ok { (D.state disk.old).tells ≡ true → IfOk result (λ len. option_map length (get (D.state disk.old).files file) ≡ Some len) }
    ensures there { (D.state disk.old).tells ≡ true → (bytes : List ℕ) → get (D.state disk.old).files file ≡ Some bytes → IfErr result IsUndamaged }
{
    match size_of(disk, file)? {
        None => Err(FileErr::Form { file }),
        Some(len) => Ok(len),
    }
}
