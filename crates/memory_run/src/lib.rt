//! A run over memory: what `run` promises, with nothing left that has to be met.
#![tactic(auto)]

ghost use Rattle.std.specs.Prelude.{◌≡◌, Some, IfOk, map, string_bytes};
ghost use Rattle.command_words.specs.Tasks.{task_of};
ghost use Rattle.command_words.specs.declared.task.Task.TheVariants as task;
ghost use Rattle.memory_run.specs.Whole.{RanOrNot};

use m3_model::Memory;
use m3_outside::{MemSink, MemSource};
use m3_program::Status;
use m3_program::run::run;
use mem_disk::MemDisks;
use std::alloc::Global;

/// Runs what the words ask for, with these bytes as its input, over empty disks in memory, and answers how it ended and what it wrote.
/// Where the words ask for a run of lines, each read among its turns keeps what was acknowledged before, each node that turned available
/// was joined by a majority, and each answer has its cause: whatever the bytes are.
///
/// # Errors
///
/// Want of memory before the run begins. Within it that is a status.
pub fn run_in_memory(
    alloc: Global,
    words: &[String],
    bytes: &[u8],
) -> Result<(Status, MemSink), Memory>
    ensures whole { IfOk result (λ ran. task_of (map string_bytes words.now) ≡ Some task.Run → RanOrNot ran.0 bytes.now ran.1.written) }
{
    let mut source = MemSource::new(alloc, bytes, &[])?;
    let mut sink = MemSink::new(alloc, &[])?;
    let mut disks = MemDisks::new(alloc)?;
    let status = run(alloc, words, &mut source, &mut sink, &mut disks);
    Ok((status, sink))
}
