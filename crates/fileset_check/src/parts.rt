ghost use Rattle.std.specs.Prelude.{◌≡◌, ◌≤◌, true, IfOk, IsErrOf, length, is_some};
ghost use Rattle.fileset_read.specs.m3_outside.DiskState.{DiskState};
ghost use Rattle.fileset_read.specs.m3_outside.DiskCalls.{LeavesFiles};
ghost use Rattle.fileset_read.specs.m3_outside.declared.disk_err.DiskErr.TheVariants.{Failed as DiskFailed};
ghost use Rattle.fileset_check.specs.PartFiles.{AreParts, bytes_in, file_of, part_in};

use fileset_read::of_m3_model::Seq;
use fileset_read::of_m3_outside::{Disk, DiskErr, FileName};
use fileset_read::read_file;
use std::alloc::Global;

/// The name of the file of this kind of the volume of which this is a file.
pub(crate) fn file_of(kind: u8, of: FileName) -> FileName
    ensures { result ≡ file_of kind of }
{
    FileName {
        kind,
        ns: of.ns,
        block: of.block,
        number: of.number,
    }
}

/// Whether the file of this kind is there, of files by kind from 1 on.
pub(crate) fn is_there(parts: &[Option<Seq<u8>>], kind: u8) -> bool
    requires low { 1 ≤ kind }
    requires high { kind ≤ length parts.now }
    ensures { result ≡ is_some (part_in parts.now kind) }
{
    parts[usize::from(kind) - 1].is_some()
}

/// The bytes of the file of this kind, and none where it isn't there.
pub(crate) fn bytes_in(parts: &[Option<Seq<u8>>], kind: u8) -> &[u8]
    requires low { 1 ≤ kind }
    requires high { kind ≤ length parts.now }
    ensures { result.now ≡ bytes_in parts.now kind }
{
    match &parts[usize::from(kind) - 1] {
        Some(bytes) => bytes.as_slice(),
        None => &[],
    }
}

/// All files of the volume of which this is one, by kind from 1 on, each in one piece; none in place of one that isn't there.
///
/// # Errors
///
/// A fault, by which the disk's count rose in this call. Want of memory. After either the files, and what a stop leaves of
/// them, are as they were.
pub(crate) fn read_parts<D: Disk>(
    alloc: Global,
    disk: &mut D,
    of: FileName,
) -> Result<Vec<Option<Seq<u8>>>, DiskErr>
    ensures leaves { LeavesFiles (IsErrOf result DiskFailed) (D.state disk.old) (D.state disk.new) }
    ensures ok { (D.state disk.old).tells ≡ true → IfOk result (λ parts. AreParts of (D.state disk.old).files parts.items) }
    ensures all { IfOk result (λ parts. length parts.items ≡ 7) }
{
    let mut parts = Vec::new(alloc);
    for kind in 1..8u8 {
        let file = read_file(alloc, disk, file_of(kind, of))?;
        parts.push(file)?;
    }
    Ok(parts)
}
