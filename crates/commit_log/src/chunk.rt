ghost use Rattle.std.specs.Prelude.{◌≡◌, ℕ, ◌+◌, ◌≤◌, true, length, IsErr, OnOk};
ghost use Rattle.log_chunks.specs.m3_outside.Files.{Files};
ghost use Rattle.log_chunks.specs.m3_outside.Causes.{CountsFaults};
ghost use Rattle.log_chunks.specs.m3_outside.DiskState.{DiskState, Elapses, StepOf};
ghost use Rattle.commit_log.specs.Segment.{segment, MayAdd, Adds, OthersStay, IsReady, IsKept};

use byteorder::{BigEndian, ByteOrder};
use log_chunks::of_m3_outside::{Disk, Failed, FileName};
use log_chunks::{HEAD_BYTES, OPEN};

/// The file of the segment of this number.
pub(crate) fn segment_name(number: u64) -> FileName
    ensures { result ≡ segment number }
{
    FileName {
        kind: 0,
        ns: 0,
        block: 0,
        number,
    }
}

/// Puts a chunk at the offset: its length and its bytes, synced behind a closed gate, and then the gate, synced too.
pub(crate) fn put_chunk<D: Disk>(
    disk: &mut D,
    number: u64,
    at: u64,
    chunk: &[u8],
) -> Result<(), Failed>
    requires { IsReady number at (length chunk.now) (D.state disk.old) }
    ensures any_moment { (D.state disk.old).tells ≡ true → Elapses (MayAdd (segment number) chunk.now) (D.state disk.old) (D.state disk.new) }
    ensures acknowledged { (D.state disk.old).tells ≡ true → OnOk result ((c : Files) → (D.state disk.new).images c → StepOf (Adds (segment number) chunk.now) (D.state disk.old).images c) }
    ensures others { (D.state disk.old).tells ≡ true → OthersStay (segment number) (D.state disk.old).files (D.state disk.new).files }
    ensures kept { OnOk result (IsKept number (at + 5 + length chunk.now) (D.state disk.new)) }
    ensures spare { (D.state disk.old).spare ≤ (D.state disk.new).spare + 5 }
    ensures tells { (D.state disk.new).tells ≡ (D.state disk.old).tells }
    ensures faults { CountsFaults (IsErr result) (D.state disk.old).faults (D.state disk.new).faults }
{
    let name = segment_name(number);
    let mut field = [0u8; 4];
    BigEndian::write_u32(&mut field, chunk.len() as u32);
    disk.write_at(name, at + 1, &field)?;
    disk.write_at(name, at + HEAD_BYTES, chunk)?;
    disk.sync(name)?;
    disk.write_at(name, at, &[OPEN])?;
    disk.sync(name)?;
    Ok(())
}
