//! One more entry in a replica's log.
ghost use Rattle.std.specs.Prelude.{◌≡◌, ◌+◌, ◌≤◌, ℕ, List, None, max, true, length, IfOk, OnOk, IsErr, IsErrOf};
ghost use Rattle.m3_model.specs.declared.limits.TheConstants.{SEGMENT_BYTES};
ghost use Rattle.m3_outside.specs.Causes.{CountsFaults};
ghost use Rattle.m3_outside.specs.DiskState.{DiskState, Told, EachImage, Elapses, StepOf, Becomes};
ghost use Rattle.m3_outside.specs.Files.{Files};
ghost use Rattle.m3_outside.specs.declared.disk_err.DiskErr.TheVariants.{Failed as DiskFailed, Memory as WantOfMemory};
ghost use Rattle.joined_reads.specs.listed_volumes.block_buffer.Held.{InMemory};
ghost use Rattle.joined_reads.specs.listed_volumes.commit_log.LogEnd.{LogEnd, NoneFrom, LogEndStands, IsReadyFor};
ghost use Rattle.joined_reads.specs.listed_volumes.commit_log.Contents.{numbers};
ghost use Rattle.joined_reads.specs.listed_volumes.shard_files.Entries.{IsEntry};
ghost use Rattle.joined_reads.specs.listed_volumes.shard_files.Gains.{Gains, MayGain, Brings, nothing};
ghost use Rattle.joined_reads.specs.listed_volumes.shard_files.HeldEntries.{tenure_in, fence_in};
ghost use Rattle.joined_reads.specs.listed_volumes.shard_files.Parts.{KnownVolume, IsNewestNumber};
ghost use Rattle.snapshot_steps.specs.volume_steps.Known.{HoldsKnown};
ghost use Rattle.snapshot_steps.specs.Counts.{AreCounted, StayCounted};
ghost use Rattle.store_log.specs.Kept.{IsKeptOn, memory_with};
ghost use Rattle.joined_reads.specs.listed_volumes.shard_files.declared.entries.LogEntry.{LogEntry as Entry};
ghost use Rattle.joined_reads.specs.listed_volumes.shard_files.LogSteps.{gain_in};
ghost use Rattle.store_log.specs.Whole.{GainsOrNot};

use joined_reads::of_commit_log::Log;
use m3_outside::{Disk, DiskErr, Failed};

/// Begins the segment of this number, above all that are there, as the log's end.
///
/// # Errors
///
/// A fault or want of memory. The files hold what they held.
pub fn begin_log<D: Disk>(disk: &mut D, number: u64) -> Result<Log, DiskErr>
    requires { Told (D.state disk.old) (NoneFrom number) }
    ensures kept { (memory : InMemory) (known : List KnownVolume) (tenure fence : ℕ) → memory.room ≡ None → tenure ≤ fence → EachImage (D.state disk.old) (HoldsKnown memory.points known tenure fence) → IfOk result (λ log. IsKeptOn log memory known tenure fence (D.state disk.new)) }
    ensures counted { (missing snapshot : ℕ) → Told (D.state disk.old) (λ files. (length (numbers files) + missing ≡ number) × IsNewestNumber snapshot files) → IfOk result (λ log. Told (D.state disk.new) (AreCounted log missing snapshot)) }
    ensures unchanged { (D.state disk.old).tells ≡ true → IsErrOf result WantOfMemory → Becomes (λ files. files) (D.state disk.old) (D.state disk.new) }
    ensures any_moment { (D.state disk.old).tells ≡ true → Elapses (Gains nothing) (D.state disk.old) (D.state disk.new) }
    ensures tells { (D.state disk.new).tells ≡ (D.state disk.old).tells }
    ensures faults { CountsFaults (IsErrOf result DiskFailed) (D.state disk.old).faults (D.state disk.new).faults }
{
    Log::begin(disk, number)
}

/// Makes room for an entry of so many bytes.
///
/// # Errors
///
/// A fault: the files hold what they held. Want of memory: the files are as they were.
pub fn ready_entry<D: Disk>(disk: &mut D, log: &mut Log, len: u32) -> Result<(), DiskErr>
    requires short { 5 + len ≤ SEGMENT_BYTES }
    requires stands { LogEndStands log.old (D.state disk.old) }
    ensures ready { OnOk result (IsReadyFor log.new len (D.state disk.new)) }
    ensures kept { (memory : InMemory) (known : List KnownVolume) (tenure fence : ℕ) → IsKeptOn log.old memory known tenure fence (D.state disk.old) → IsKeptOn log.new memory known tenure fence (D.state disk.new) }
    ensures unchanged { (D.state disk.old).tells ≡ true → IsErrOf result WantOfMemory → Becomes (λ files. files) (D.state disk.old) (D.state disk.new) }
    ensures counts { (D.state disk.old).tells ≡ true → ¬ (IsErrOf result DiskFailed) → StayCounted log.old log.new (D.state disk.old).files (D.state disk.new).files }
    ensures stands { LogEndStands log.new (D.state disk.new) }
    ensures any_moment { (D.state disk.old).tells ≡ true → Elapses (Gains nothing) (D.state disk.old) (D.state disk.new) }
    ensures tells { (D.state disk.new).tells ≡ (D.state disk.old).tells }
    ensures faults { CountsFaults (IsErrOf result DiskFailed) (D.state disk.old).faults (D.state disk.new).faults }
{
    log.ready(disk, len)
}

/// Adds an entry, for which there is room. Takes no memory.
///
/// # Errors
///
/// A fault. The entry may be there after a stop, or not.
pub fn append_entry<D: Disk>(disk: &mut D, log: &mut Log, bytes: &[u8]) -> Result<(), Failed>
    requires ready { IsReadyFor log.old (length bytes.now) (D.state disk.old) }
    requires entry { (e : Entry) × IsEntry bytes.now e }
    ensures kept { (e : Entry) → IsEntry bytes.now e → (memory : InMemory) (known : List KnownVolume) (tenure fence : ℕ) → IsKeptOn log.old memory known tenure fence (D.state disk.old) → OnOk result (IsKeptOn log.new (memory_with e memory) known (max tenure (tenure_in e)) (max fence (fence_in e)) (D.state disk.new)) }
    ensures counts { (D.state disk.old).tells ≡ true → OnOk result (StayCounted log.old log.new (D.state disk.old).files (D.state disk.new).files) }
    ensures stands { LogEndStands log.new (D.state disk.new) }
    ensures any_moment { (e : Entry) → IsEntry bytes.now e → (D.state disk.old).tells ≡ true → Elapses (MayGain (gain_in e)) (D.state disk.old) (D.state disk.new) }
    ensures whole { (e : Entry) → IsEntry bytes.now e → (D.state disk.old).tells ≡ true → Elapses (GainsOrNot (gain_in e)) (D.state disk.old) (D.state disk.new) }
    ensures acknowledged { (e : Entry) → IsEntry bytes.now e → (D.state disk.old).tells ≡ true → OnOk result ((c : Files) → (D.state disk.new).images c → StepOf (Gains (gain_in e)) (D.state disk.old).images c) }
    ensures tells { (D.state disk.new).tells ≡ (D.state disk.old).tells }
    ensures faults { CountsFaults (IsErr result) (D.state disk.old).faults (D.state disk.new).faults }
{
    log.append(disk, bytes)
}

/// Adds an entry for which an empty segment has room.
///
/// # Errors
///
/// A fault: the entry may be there after a stop, or not. Want of memory: the files are as they were.
pub fn log_entry<D: Disk>(disk: &mut D, log: &mut Log, bytes: &[u8]) -> Result<(), DiskErr>
    requires short { 5 + length bytes.now ≤ SEGMENT_BYTES }
    requires stands { LogEndStands log.old (D.state disk.old) }
    requires entry { (e : Entry) × IsEntry bytes.now e }
    ensures kept { (e : Entry) → IsEntry bytes.now e → (memory : InMemory) (known : List KnownVolume) (tenure fence : ℕ) → IsKeptOn log.old memory known tenure fence (D.state disk.old) → OnOk result (IsKeptOn log.new (memory_with e memory) known (max tenure (tenure_in e)) (max fence (fence_in e)) (D.state disk.new)) }
    ensures memory { (memory : InMemory) (known : List KnownVolume) (tenure fence : ℕ) → IsKeptOn log.old memory known tenure fence (D.state disk.old) → IsErrOf result WantOfMemory → IsKeptOn log.new memory known tenure fence (D.state disk.new) }
    ensures unchanged { (D.state disk.old).tells ≡ true → IsErrOf result WantOfMemory → Becomes (λ files. files) (D.state disk.old) (D.state disk.new) }
    ensures counts { (D.state disk.old).tells ≡ true → ¬ (IsErrOf result DiskFailed) → StayCounted log.old log.new (D.state disk.old).files (D.state disk.new).files }
    ensures stands { LogEndStands log.new (D.state disk.new) }
    ensures brings { (e : Entry) → IsEntry bytes.now e → Brings (gain_in e) result (D.state disk.old) (D.state disk.new) }
{
    ready_entry(disk, log, bytes.len() as u32)?;
    append_entry(disk, log, bytes)?;
    Ok(())
}
