ghost use Rattle.std.specs.Prelude.{◌≡◌, ◌<◌, ◌≤◌, ◌+◌, ◌⊎◌, ℕ, List, [], ◌++◌, Some, None, map, length, string_bytes, true, IfOk, OnOk, IfErr, IsErrOf};
ghost use Rattle.std.specs.Io.KnownBytes.{IsAtEnd};
ghost use Rattle.m3_model.specs.declared.limits.TheConstants.{INPUT_END};
ghost use Rattle.m3_outside.specs.Slots.{Out};
ghost use Rattle.m3_outside.specs.declared.slot.DiskSlot.{DiskSlot};
ghost use Rattle.saved_cluster.specs.first_cluster.Depots.{meta_slot};
ghost use Rattle.saved_cluster.specs.Saved.{MayClose, MayServeSaved};
ghost use Rattle.command_words.specs.Tasks.{task_of};
ghost use Rattle.command_words.specs.declared.task.Task.TheVariants as task;
ghost use Rattle.m3_program.specs.Openings.{IsUnopened};
ghost use Rattle.m3_program.specs.Passing.{Gives, Takes, left_in, outflow};
ghost use Rattle.m3_program.specs.Streams.{TakesOn, Cuts, Finishes, HaltsLast, HasServed, IsFresh, opening_at, stage};
ghost use Rattle.m3_program.specs.Writing.{WritesUntil};
ghost use Rattle.m3_program.specs.Causes.{EndsLine, EndsStep, EndsReading, EndsScript, EndsTask};
ghost use Rattle.m3_program.specs.Runs.{Runs};
ghost use Rattle.m3_program.specs.Scripts.{Generates};
ghost use Rattle.m3_program.specs.declared.status.Status.TheVariants as status;

use crate::exchange::{Workspace, answer_line};
use crate::input::serve_piece;
use crate::output::write_all;
use crate::script::generate;
use crate::status::Status;
use command_words::{Task, WordsErr, task_of};
use m3_model::limits::INPUT_END;
use m3_outside::{Disks, Sink, Source};
use saved_cluster::SavedCluster;
use std::alloc::Global;

/// How much is taken at once.
const PIECE: usize = 65536;

/// Takes what one read gives, and writes the replies to the lines that it ends; 0 is the end of the input.
fn serve_read<S: Source, K: Sink, X: Disks>(
    alloc: Global,
    work: &mut Workspace,
    cluster: &mut SavedCluster<X::D>,
    disks: &mut X,
    line: &mut Vec<u8>,
    source: &mut S,
    out: &mut K,
    buf: &mut [u8],
) -> Result<usize, Status>
    requires may { MayServeSaved X.D.state cluster.old (X.depot disks.old).held }
    ensures ok { IfOk result (λ n. (piece text : List ℕ) × Gives (S.left source.old) (S.gave source.old) piece (S.left source.new) (S.gave source.new) × (length piece ≡ n) × (n ≤ length buf.old)
        × Takes (outflow (K.written out.old) (K.took out.old)) (outflow (K.written out.new) (K.took out.new)) text
        × TakesOn X.D.state (stage cluster.old (X.depot disks.old)) line.old.items piece text
        (stage cluster.new (X.depot disks.new)) line.new.items
        × (n ≡ 0 → 0 < length buf.old → IsAtEnd (S.left source.new))) }
    ensures ended { IfOk result (λ n. n ≡ 0 → 0 < length buf.old → S.ended source.new ≡ true) }
    ensures err { IfErr result (λ s. (piece text : List ℕ) × Gives (S.left source.old) (S.gave source.old) piece (S.left source.new) (S.gave source.new) × (length piece ≤ length buf.old)
        × WritesUntil s (outflow (K.written out.old) (K.took out.old)) text (outflow (K.written out.new) (K.took out.new))
        × Cuts X.D.state (stage cluster.old (X.depot disks.old)) line.old.items piece text
        (stage cluster.new (X.depot disks.new)) (s ≡ status.DiskFault)) }
    ensures at_fault { IsErrOf result status.ReadFault → Gives (S.left source.old) (S.gave source.old) [] (S.left source.new) (S.gave source.new) × Takes (outflow (K.written out.old) (K.took out.old)) (outflow (K.written out.new) (K.took out.new)) []
        × TakesOn X.D.state (stage cluster.old (X.depot disks.old)) line.old.items [] []
        (stage cluster.new (X.depot disks.new)) line.new.items }
    ensures may { OnOk result (MayServeSaved X.D.state cluster.new (X.depot disks.new).held) }
    ensures close { MayClose cluster.new (X.depot disks.new).held }
    ensures later { (S.faulted source.old ≤ S.faulted source.new) × (K.faulted out.old ≤ K.faulted out.new) × (K.stalled out.old ≤ K.stalled out.new) × ((X.D.state cluster.old.meta).faults ≤ (X.D.state cluster.new.meta).faults) }
    ensures cause { IfErr result (λ s. EndsStep s (S.faulted source.old) (S.faulted source.new) (K.faulted out.old) (K.faulted out.new) (K.stalled out.old) (K.stalled out.new) (X.D.state cluster.old.meta).faults (X.D.state cluster.new.meta).faults) }
{
    match source.read(buf) {
        Err(_) => Err(Status::ReadFault),
        Ok(count) => match serve_piece(alloc, work, cluster, disks, out, line, &buf[..count]) {
            Ok(()) => Ok(count),
            Err(status) => Err(status),
        },
    }
}

/// Takes a last line without a newline, and writes its reply.
fn serve_last<K: Sink, X: Disks>(
    alloc: Global,
    work: &mut Workspace,
    cluster: &mut SavedCluster<X::D>,
    disks: &mut X,
    out: &mut K,
    line: &[u8],
) -> Result<(), Status>
    requires may { MayServeSaved X.D.state cluster.old (X.depot disks.old).held }
    ensures ok { OnOk result ((text : List ℕ) × Takes (outflow (K.written out.old) (K.took out.old)) (outflow (K.written out.new) (K.took out.new)) text
        × Finishes X.D.state (stage cluster.old (X.depot disks.old)) line.now text
        (stage cluster.new (X.depot disks.new))) }
    ensures err { IfErr result (λ s. (text : List ℕ) × WritesUntil s (outflow (K.written out.old) (K.took out.old)) text (outflow (K.written out.new) (K.took out.new))
        × HaltsLast X.D.state (stage cluster.old (X.depot disks.old)) line.now text
        (stage cluster.new (X.depot disks.new)) (s ≡ status.DiskFault)) }
    ensures close { MayClose cluster.new (X.depot disks.new).held }
    ensures later { (K.faulted out.old ≤ K.faulted out.new) × (K.stalled out.old ≤ K.stalled out.new) × ((X.D.state cluster.old.meta).faults ≤ (X.D.state cluster.new.meta).faults) }
    ensures cause { IfErr result (λ s. EndsLine s (K.faulted out.old) (K.faulted out.new) (K.stalled out.old) (K.stalled out.new) (X.D.state cluster.old.meta).faults (X.D.state cluster.new.meta).faults) }
{
    if line.is_empty() {
        return Ok(());
    }
    let mut replies = Vec::new(alloc);
    match answer_line(alloc, work, cluster, disks, &mut replies, line) {
        Ok(()) => write_all(out, replies.as_slice()),
        Err(why) => Err(Status::of_lost(why)),
    }
}

/// How much may be taken at once where this much was taken.
fn room_after(taken: u64) -> usize
    requires { taken < INPUT_END }
    ensures some { 0 < result }
    ensures piece { result ≤ 65536 }
    ensures limit { taken + result ≤ INPUT_END }
{
    let left = INPUT_END - taken;
    if left < 65536 { left as usize } else { PIECE }
}

/// Reads lines, serves each and writes its reply, to the end of the input. The cluster keeps the disks that it has.
fn serve_all<S: Source, K: Sink, X: Disks>(
    alloc: Global,
    cluster: &mut SavedCluster<X::D>,
    disks: &mut X,
    source: &mut S,
    out: &mut K,
) -> Status
    requires fresh { IsFresh X.D.state (stage cluster.old (X.depot disks.old)) }
    requires may { MayServeSaved X.D.state cluster.old (X.depot disks.old).held }
    ensures told { (taken written : List ℕ) × Gives (S.left source.old) (S.gave source.old) taken (S.left source.new) (S.gave source.new) × Takes (outflow (K.written out.old) (K.took out.old)) (outflow (K.written out.new) (K.took out.new)) written
        × HasServed X.D.state (opening_at (stage cluster.old (X.depot disks.old)))
        (stage cluster.new (X.depot disks.new)) result (taken ++ left_in (S.left source.new)) (left_in (S.left source.new)) written }
    ensures ended { result ≡ status.Done → S.ended source.new ≡ true }
    ensures close { MayClose cluster.new (X.depot disks.new).held }
    ensures later { (X.D.state cluster.old.meta).faults ≤ (X.D.state cluster.new.meta).faults }
    ensures cause { EndsReading result (S.faulted source.old) (S.faulted source.new) (K.faulted out.old) (K.faulted out.new) (K.stalled out.old) (K.stalled out.new) (X.D.state cluster.old.meta).faults (X.D.state cluster.new.meta).faults }
{
    let mut work = Workspace::new(alloc);
    let mut line = Vec::new(alloc);
    let mut buf = [0u8; PIECE];
    let mut taken: u64 = 0;
    while taken < INPUT_END {
        let room = room_after(taken);
        match serve_read(
            alloc,
            &mut work,
            cluster,
            disks,
            &mut line,
            source,
            out,
            &mut buf[..room],
        ) {
            Err(status) => return status,
            Ok(0) => {
                return match serve_last(alloc, &mut work, cluster, disks, out, line.as_slice()) {
                    Ok(()) => Status::Done,
                    Err(status) => status,
                };
            }
            Ok(count) => taken += count as u64,
        }
    }
    Status::TooLong
}

/// Opens the cluster that the meta disk has, reads request lines to the input's end, and gives all disks back at the end.
fn run_lines<S: Source, K: Sink, X: Disks>(
    alloc: Global,
    source: &mut S,
    out: &mut K,
    disks: &mut X,
) -> Status
    requires none_out { (slot : DiskSlot) → ¬ ((X.depot disks.old).held slot ≡ Out) }
    ensures told { (taken written : List ℕ) × Gives (S.left source.old) (S.gave source.old) taken (S.left source.new) (S.gave source.new) × Takes (outflow (K.written out.old) (K.took out.old)) (outflow (K.written out.new) (K.took out.new)) written
        × Runs X.D.state (X.depot disks.old) (X.depot disks.new) result (taken ++ left_in (S.left source.new)) (left_in (S.left source.new)) written }
    ensures ended { result ≡ status.Done → S.ended source.new ≡ true }
    ensures none_out { (slot : DiskSlot) → ¬ ((X.depot disks.new).held slot ≡ Out) }
    ensures cause { ((source.new ≡ source.old) × (out.new ≡ out.old) × IsUnopened X.D.state (X.depot disks.old) (X.depot disks.new) result)
        ⊎ EndsReading result (S.faulted source.old) (S.faulted source.new) (K.faulted out.old) (K.faulted out.new) (K.stalled out.old) (K.stalled out.new) ((X.depot disks.old).counted meta_slot) ((X.depot disks.new).counted meta_slot) }
{
    let mut cluster = match SavedCluster::open(alloc, disks) {
        Ok(cluster) => cluster,
        Err(why) => return Status::of_opening(why),
    };
    let status = serve_all(alloc, &mut cluster, disks, source, out);
    cluster.close(disks);
    status
}

/// Opens the cluster that the meta disk has, serves the script of a number, and gives all disks back at the end.
fn run_script<K: Sink, X: Disks>(alloc: Global, out: &mut K, disks: &mut X, number: u32) -> Status
    requires none_out { (slot : DiskSlot) → ¬ ((X.depot disks.old).held slot ≡ Out) }
    ensures told { (written : List ℕ) × Takes (outflow (K.written out.old) (K.took out.old)) (outflow (K.written out.new) (K.took out.new)) written
        × Generates X.D.state (X.depot disks.old) (X.depot disks.new) number result written }
    ensures none_out { (slot : DiskSlot) → ¬ ((X.depot disks.new).held slot ≡ Out) }
    ensures cause { ((out.new ≡ out.old) × IsUnopened X.D.state (X.depot disks.old) (X.depot disks.new) result) ⊎ EndsScript result (K.faulted out.old) (K.faulted out.new) (K.stalled out.old) (K.stalled out.new) ((X.depot disks.old).counted meta_slot) ((X.depot disks.new).counted meta_slot) }
{
    let mut cluster = match SavedCluster::open(alloc, disks) {
        Ok(cluster) => cluster,
        Err(why) => return Status::of_opening(why),
    };
    let status = generate(alloc, &mut cluster, disks, out, number);
    cluster.close(disks);
    status
}

/// The program: the words say what is done. By `run` it reads request lines to the input's end, serves each in order and
/// writes each reply as a line, before it reads on. By `generate` and a number it serves the number's script, reads nothing,
/// and writes one line of summary. The cluster goes on with the last state that the meta disk has, and keeps its state there;
/// where that can't be read, nothing is served. The nodes' replicas stand over these disks, which are all given back at the end.
pub fn run<S: Source, K: Sink, X: Disks>(
    alloc: Global,
    words: &[String],
    source: &mut S,
    out: &mut K,
    disks: &mut X,
) -> Status
    requires none_out { (slot : DiskSlot) → ¬ ((X.depot disks.old).held slot ≡ Out) }
    ensures told { task_of (map string_bytes words.now) ≡ Some task.Run → (taken written : List ℕ) × Gives (S.left source.old) (S.gave source.old) taken (S.left source.new) (S.gave source.new) × Takes (outflow (K.written out.old) (K.took out.old)) (outflow (K.written out.new) (K.took out.new)) written
        × Runs X.D.state (X.depot disks.old) (X.depot disks.new) result (taken ++ left_in (S.left source.new)) (left_in (S.left source.new)) written }
    ensures ended { task_of (map string_bytes words.now) ≡ Some task.Run → result ≡ status.Done → S.ended source.new ≡ true }
    ensures generated { (number : ℕ) → task_of (map string_bytes words.now) ≡ Some (task.Generate number) → (written : List ℕ) × Takes (outflow (K.written out.old) (K.took out.old)) (outflow (K.written out.new) (K.took out.new)) written
        × Generates X.D.state (X.depot disks.old) (X.depot disks.new) number result written }
    ensures unread { (task_of (map string_bytes words.now) ≡ Some task.Run → ⊥) → source.new ≡ source.old }
    ensures idle { task_of (map string_bytes words.now) ≡ None → (out.new ≡ out.old) × (disks.new ≡ disks.old) }
    ensures none_out { (slot : DiskSlot) → ¬ ((X.depot disks.new).held slot ≡ Out) }
    ensures cause { EndsTask (task_of (map string_bytes words.now)) result ((source.new ≡ source.old) × (out.new ≡ out.old) × IsUnopened X.D.state (X.depot disks.old) (X.depot disks.new) result)
        (S.faulted source.old) (S.faulted source.new) (K.faulted out.old) (K.faulted out.new) (K.stalled out.old) (K.stalled out.new) ((X.depot disks.old).counted meta_slot) ((X.depot disks.new).counted meta_slot) }
{
    match task_of(alloc, words) {
        Ok(Task::Run) => run_lines(alloc, source, out, disks),
        Ok(Task::Generate { number }) => run_script(alloc, out, disks, number),
        Err(WordsErr::Usage) => Status::Usage,
        Err(WordsErr::Memory) => Status::Memory,
    }
}
