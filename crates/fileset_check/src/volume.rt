ghost use Rattle.std.specs.Prelude.{◌≡◌, true, length, IfOk, IfErr, IsErrOf};
ghost use Rattle.fileset_read.specs.m3_outside.Causes.{CountsFaults};
ghost use Rattle.fileset_read.specs.m3_outside.Files.{Files};
ghost use Rattle.fileset_read.specs.m3_outside.DiskState.{DiskState};
ghost use Rattle.fileset_read.specs.m3_outside.DiskCalls.{LeavesFiles};
ghost use Rattle.fileset_read.specs.volume_bytes.Heads.{head_of};
ghost use Rattle.fileset_check.specs.PartFiles.{AreParts, HasHead, IsBody, bytes_in, file_of};
ghost use Rattle.fileset_check.specs.Told.{BreaksHead, IsUnfit, MayTell, Says, VolumeTells};
ghost use Rattle.fileset_check.specs.Whole.{IsListed};
ghost use Rattle.fileset_check.specs.declared.check_err.CheckErr.TheVariants as failures;

use crate::body::{Body, read_body};
use crate::check_err::CheckErr;
use crate::digests::check_digests;
use crate::due::check_derived;
use crate::head::read_head;
use crate::part_err::PartErr;
use crate::parts::{bytes_in, file_of, read_parts};
use fileset_read::RowErr;
use fileset_read::of_m3_model::Seq;
use fileset_read::of_m3_outside::{Disk, FileName};
use fileset_read::of_volume_bytes::Head;
use std::alloc::Global;

/// A volume that counts and is there whole: which one it is, and how many series and points it has.
#[derive(Clone, Copy, Debug, PartialEq, Eq)]
pub struct Volume {
    pub head: Head,
    pub series: u32,
    pub points: u64,
}

// The head in the info of the volume.
fn head_in(of: FileName, parts: &[Option<Seq<u8>>]) -> Result<Head, PartErr>
    requires { length parts.now ≡ 7 }
    ensures ok { IfOk result (HasHead of (bytes_in parts.now 1)) }
    ensures err { (files : Files) → AreParts of files parts.now → IfErr result (Says (BreaksHead of.ns of.block of.number files)) }
{
    match read_head(of, bytes_in(parts, 1)) {
        Ok(head) => Ok(head),
        Err(at) => Err(PartErr::Form {
            file: file_of(1, of),
            at: at as u64,
        }),
    }
}

// The series in the data of the volume.
fn body_in(
    alloc: Global,
    of: FileName,
    parts: &[Option<Seq<u8>>],
    head: &Head,
) -> Result<Body, PartErr>
    requires all { length parts.now ≡ 7 }
    requires head { HasHead of (bytes_in parts.now 1) head.now }
    ensures ok { IfOk result (IsBody (head_of head.now) (bytes_in parts.now 4)) }
    ensures err { (files : Files) → AreParts of files parts.now → IfErr result (Says (IsUnfit of.ns of.block of.number files)) }
{
    match read_body(alloc, head, bytes_in(parts, 4)) {
        Ok(body) => Ok(body),
        Err(RowErr::Memory) => Err(PartErr::Memory),
        Err(RowErr::Form) => Err(PartErr::Form {
            file: file_of(4, of),
            at: 0,
        }),
    }
}

// The volume that these files are.
fn check_parts(alloc: Global, of: FileName, parts: &[Option<Seq<u8>>]) -> Result<Volume, PartErr>
    requires { length parts.now ≡ 7 }
    ensures ok { (files : Files) → AreParts of files parts.now → IfOk result (IsListed files (file_of 7 of)) }
    ensures err { (files : Files) → AreParts of files parts.now → IfErr result (Says (VolumeTells files of)) }
{
    check_digests(of, parts)?;
    let head = head_in(of, parts)?;
    let body = body_in(alloc, of, parts, &head)?;
    check_derived(alloc, of, parts, &head, &body)?;
    Ok(Volume {
        head,
        series: body.rows.len() as u32,
        points: body.tables.points,
    })
}

/// The volume of which this is the checkpoint, or another file, checked whole: all of its seven files are there, keep to their
/// digests and are those of one volume of this name. Each of them is read once, in one piece.
///
/// # Errors
///
/// A fault, by which the disk's count rose in this call. Want of memory. The first damage: of the digests, of the info, of the
/// data, and then of what the data gives. In any case the files, and what a stop leaves of them, are as they were.
pub fn check_volume<D: Disk>(alloc: Global, disk: &mut D, of: FileName) -> Result<Volume, CheckErr>
    ensures leaves { LeavesFiles (IsErrOf result failures.Disk) (D.state disk.old) (D.state disk.new) }
    ensures ok { (D.state disk.old).tells ≡ true → IfOk result (IsListed (D.state disk.old).files (file_of 7 of)) }
    ensures err { (D.state disk.old).tells ≡ true → IfErr result (MayTell (VolumeTells (D.state disk.old).files of)) }
    ensures faults { CountsFaults (IsErrOf result failures.Disk) (D.state disk.old).faults (D.state disk.new).faults }
{
    let parts = read_parts(alloc, disk, of)?;
    Ok(check_parts(alloc, of, &parts)?)
}
