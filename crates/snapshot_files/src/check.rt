ghost use Rattle.std.specs.Prelude.{◌≡◌, ◌≤◌, [], ◌∷◌, true, length, take, drop, unwrap_or, Some, IfOk, IfErr, IfNone, IfSome, IsErrOf, OnOk};
ghost use Rattle.std.specs.FinMap.{get};
ghost use Rattle.fileset_check.specs.m3_outside.Files.{Files};
ghost use Rattle.fileset_check.specs.m3_outside.DiskState.{DiskState};
ghost use Rattle.fileset_check.specs.m3_outside.DiskCalls.{LeavesFiles};
ghost use Rattle.fileset_check.specs.m3_outside.declared.disk_err.DiskErr.TheVariants.{Failed as DiskFailed};
ghost use Rattle.fileset_check.specs.wire_bytes.Fields.{StopsAt};
ghost use Rattle.fileset_check.specs.shard_files.Damage.{BreaksDigest, BreaksForm, IsGate};
ghost use Rattle.fileset_check.specs.shard_files.Parts.{snapshot_checkpoint, snapshot_data};
ghost use Rattle.fileset_check.specs.PartFiles.{Keeps};
ghost use Rattle.fileset_check.specs.Told.{MayTell};
ghost use Rattle.fileset_check.specs.declared.check_err.CheckErr.TheVariants as failures;
ghost use Rattle.snapshot_files.specs.Bodies.{IsReadAs};
ghost use Rattle.snapshot_files.specs.Told.{AreFiles, IsThere, IsUnfit, SnapshotTells};

use crate::body::read_body;
use crate::names::{checkpoint_name, data_name};
use crate::snap::Snap;
use fileset_check::CheckErr;
use fileset_check::of_fileset_read::{RowErr, read_file};
use fileset_check::of_m3_model::Seq;
use fileset_check::of_m3_outside::{Disk, DiskErr};
use fileset_check::of_wire_bytes::digest;
use std::alloc::Global;

// An open gate.
const OPEN: u8 = 1;

// How many bytes a digest has, and how many a checkpoint: its gate and a digest.
const DIGEST_BYTES: usize = 32;

const CHECKPOINT_BYTES: usize = 33;

// The bytes of a file; none where it isn't there.
fn bytes_in(file: &Option<Seq<u8>>) -> &[u8]
    ensures { result.now ≡ unwrap_or file.now [] }
{
    match file {
        Some(bytes) => bytes.as_slice(),
        None => &[],
    }
}

// The offset at which the bytes stop to be those of a checkpoint with an open gate; none where they are such.
fn gate_stop(bytes: &[u8]) -> Option<usize>
    ensures none { IfNone result (IsGate bytes.now) }
    ensures some { IfSome result (StopsAt IsGate bytes.now) }
{
    if bytes.len() == 0 || bytes[0] != OPEN {
        return Some(0);
    }
    if bytes.len() == CHECKPOINT_BYTES {
        return None;
    }
    Some(bytes.len().min(CHECKPOINT_BYTES))
}

// The digest behind a gate.
fn digest_in(bytes: &[u8]) -> [u8; DIGEST_BYTES]
    requires { 33 ≤ length bytes.now }
    ensures { result ≡ take 32 (drop 1 bytes.now) }
{
    let mut digest = [0; DIGEST_BYTES];
    digest.copy_from_slice(&bytes[1..CHECKPOINT_BYTES]);
    digest
}

// The digest behind the open gate of the checkpoint.
fn read_gate(number: u64, gate: &Option<Seq<u8>>) -> Result<[u8; DIGEST_BYTES], CheckErr>
    ensures ok { IfOk result (λ kept. gate.now ≡ Some (1 ∷ kept)) }
    ensures long { IfOk result (λ kept. length kept ≡ 32) }
    ensures calm { ¬ (IsErrOf result failures.Disk) }
    ensures err { (files : Files) → gate.now ≡ get files (snapshot_checkpoint number) → IfErr result (MayTell (BreaksForm IsGate files (snapshot_checkpoint number))) }
{
    let bytes = bytes_in(gate);
    match gate_stop(bytes) {
        None => Ok(digest_in(bytes)),
        Some(at) => Err(CheckErr::Form {
            file: checkpoint_name(number),
            at: at as u64,
        }),
    }
}

// Tells where the data isn't there, or has another digest than is kept.
fn check_digest(
    number: u64,
    body: &Option<Seq<u8>>,
    kept: [u8; DIGEST_BYTES],
) -> Result<(), CheckErr>
    ensures ok { OnOk result (Keeps kept body.now) }
    ensures calm { ¬ (IsErrOf result failures.Disk) }
    ensures err { (files : Files) → body.now ≡ get files (snapshot_data number) → IfErr result (MayTell (BreaksDigest kept files (snapshot_data number))) }
{
    let file = data_name(number);
    if body.is_none() {
        return Err(CheckErr::Form { file, at: 0 });
    }
    let found = digest(bytes_in(body));
    if found != kept {
        return Err(CheckErr::Digest { file, kept, found });
    }
    Ok(())
}

// The snapshot whose data the bytes are.
fn body_in(alloc: Global, number: u64, bytes: &[u8]) -> Result<Snap, CheckErr>
    ensures ok { IfOk result (IsReadAs number bytes.now) }
    ensures calm { ¬ (IsErrOf result failures.Disk) }
    ensures err { IfErr result (MayTell (IsUnfit number bytes.now)) }
{
    match read_body(alloc, number, bytes) {
        Ok(snap) => Ok(snap),
        Err(RowErr::Memory) => Err(CheckErr::Memory),
        Err(RowErr::Form) => Err(CheckErr::Form {
            file: data_name(number),
            at: 0,
        }),
    }
}

// The snapshot that these files are: its checkpoint and its data.
fn check_files(
    alloc: Global,
    number: u64,
    gate: &Option<Seq<u8>>,
    body: &Option<Seq<u8>>,
) -> Result<Snap, CheckErr>
    ensures ok { (files : Files) → AreFiles number gate.now body.now files → IfOk result (IsThere number files) }
    ensures calm { ¬ (IsErrOf result failures.Disk) }
    ensures err { (files : Files) → AreFiles number gate.now body.now files → IfErr result (MayTell (SnapshotTells number files)) }
{
    let kept = read_gate(number, gate)?;
    check_digest(number, body, kept)?;
    body_in(alloc, number, bytes_in(body))
}

// Both files of a snapshot, as they were read: the checkpoint, and the data.
#[derive(Drop)]
struct BothFiles {
    gate: Option<Seq<u8>>,
    body: Option<Seq<u8>>,
}

// Reads both files of the snapshot of this number, each in one piece.
fn read_both<D: Disk>(alloc: Global, disk: &mut D, number: u64) -> Result<BothFiles, DiskErr>
    ensures leaves { LeavesFiles (IsErrOf result DiskFailed) (D.state disk.old) (D.state disk.new) }
    ensures ok { (D.state disk.old).tells ≡ true → IfOk result (λ both. AreFiles number both.gate both.body (D.state disk.old).files) }
{
    let gate = read_file(alloc, disk, checkpoint_name(number))?;
    let body = read_file(alloc, disk, data_name(number))?;
    Ok(BothFiles { gate, body })
}

/// The snapshot of this number, checked whole: both of its files are there, the data keeps to its digest, and it is that of a
/// snapshot of this number. Each file is read once, in one piece.
///
/// # Errors
///
/// A fault, by which the disk's count rose in this call. Want of memory. The first damage: of the checkpoint, of the data's
/// digest, or of the data. In any case the files, and what a stop leaves of them, are as they were.
pub(crate) fn check_snapshot<D: Disk>(
    alloc: Global,
    disk: &mut D,
    number: u64,
) -> Result<Snap, CheckErr>
    ensures leaves { LeavesFiles (IsErrOf result failures.Disk) (D.state disk.old) (D.state disk.new) }
    ensures ok { (D.state disk.old).tells ≡ true → IfOk result (IsThere number (D.state disk.old).files) }
    ensures err { (D.state disk.old).tells ≡ true → IfErr result (MayTell (SnapshotTells number (D.state disk.old).files)) }
{
    let both = read_both(alloc, disk, number)?;
    check_files(alloc, number, &both.gate, &both.body)
}
