//! A run of the program over the disks of a case, as its head says, and what is told of it.
ghost use Rattle.m3_trials.specs.Disks.{NoneIsOut};

use crate::disks::{TrialDisks, faults_in};
use m3_outside::{DiskSlot, Disks, Passed};
use m3_program::Status;
use m3_program::run::run;
use std::alloc::Global;
use std::cell::Cell;
use trial_lines::{
    CaseErr, TrialSink, TrialSource, check_words, has_word, line_sizes, number, numbers, value_of,
};
use wire_bytes::digest;

/// What the head of a run asks for: the numbers of the reads and of the writes that fail, the sizes of pieces that are read, how much a write
/// takes at most, whether the calls are told, and how many of the last replies are.
#[derive(Drop)]
pub struct RunPlan {
    reads: Vec<u64>,
    writes: Vec<u64>,
    sizes: Vec<u64>,
    most: usize,
    tells_calls: bool,
    last: Option<usize>,
}

// The number that a key has, where it stands there.
fn number_of(words: &str, key: &str) -> Result<Option<usize>, CaseErr> {
    match value_of(words, key) {
        Some(text) => Ok(Some(usize::try_from(number(text)?).unwrap_or(usize::MAX))),
        None => Ok(None),
    }
}

fn sizes_of(alloc: Global, words: &str, script: &[u8]) -> Result<Vec<u64>, CaseErr> {
    match value_of(words, "pieces") {
        Some("lines") => line_sizes(alloc, script),
        sizes => numbers(alloc, sizes),
    }
}

/// What the words behind `@run` ask for over this script, which loses its last newline where they ask for that.
///
/// # Errors
///
/// Want of memory, and words that ask for nothing.
pub fn plan_of(alloc: Global, words: &str, script: &mut Vec<u8>) -> Result<RunPlan, CaseErr> {
    check_words(words, "reads writes pieces most calls last open")?;
    if has_word(words, "open") {
        let _ = script.pop();
    }
    let sizes = sizes_of(alloc, words, script.as_slice())?;
    let reads = numbers(alloc, value_of(words, "reads"))?;
    let writes = numbers(alloc, value_of(words, "writes"))?;
    Ok(RunPlan {
        reads,
        writes,
        sizes,
        most: number_of(words, "most")?.unwrap_or(usize::MAX),
        tells_calls: has_word(words, "calls"),
        last: number_of(words, "last")?,
    })
}

/// How a run ended: its status, what it wrote, and its calls.
#[derive(Drop)]
pub struct Ended {
    status: Status,
    written: Vec<u8>,
    calls: u64,
}

/// Runs the program with the words over the script and the disks.
pub fn run_script(
    alloc: Global,
    words: &[String],
    plan: &RunPlan,
    script: &[u8],
    disks: &mut TrialDisks,
) -> Ended
    requires { NoneIsOut disks.old }
    ensures { NoneIsOut disks.new }
{
    let calls = Cell::new(0);
    let mut source = TrialSource {
        bytes: script,
        at: 0,
        sizes: plan.sizes.as_slice(),
        fail: plan.reads.as_slice(),
        reads: 0,
        faults: 0,
        calls: &calls,
        gave: Passed::new(),
        ended: false,
    };
    let mut sink = TrialSink {
        bytes: Vec::new(alloc),
        most: plan.most,
        fail: plan.writes.as_slice(),
        writes: 0,
        faults: 0,
        calls: &calls,
    };
    let status = run(alloc, words, &mut source, &mut sink, disks);
    Ended {
        status,
        written: sink.bytes,
        calls: calls.get(),
    }
}

// The faults of the disks in these slots, as ` c0=1`.
fn tell_faults(
    shown: &[(String, DiskSlot)],
    disks: &mut TrialDisks,
    out: &mut String,
) -> Result<(), CaseErr>
    requires { NoneIsOut disks.old }
    ensures { NoneIsOut disks.new }
{
    for (name, slot) in shown {
        let faults = faults_in(disks, *slot)?;
        write!(out, " {name}={faults}")?;
    }
    Ok(())
}

// The last so many lines of the text, or all of them.
fn tell_lines(text: &str, last: Option<usize>, out: &mut String) -> Result<(), CaseErr> {
    let Some(shown) = last else {
        return Ok(out.push_str(text)?);
    };
    let count = text.lines().count();
    for line in text.lines().skip(count.saturating_sub(shown)) {
        out.push_str(line)?;
        out.push('\n')?;
    }
    Ok(())
}

// How many bytes were written, and their digest.
fn tell_all(alloc: Global, written: &[u8], out: &mut String) -> Result<(), CaseErr> {
    let digits = hex::encode(alloc, &digest(written))?;
    write!(out, " bytes={} sha256={digits}", written.len())?;
    Ok(())
}

// What was written, as text. A last line without its newline gets one, and a line that says so.
fn tell_written(
    alloc: Global,
    written: &[u8],
    last: Option<usize>,
    out: &mut String,
) -> Result<(), CaseErr> {
    let text = String::from_utf8_lossy(alloc, written)?;
    tell_lines(text.as_str(), last, out)?;
    if !written.is_empty() && written.last() != Some(&b'\n') {
        out.push_str("\n> cut\n")?;
    }
    Ok(())
}

/// Tells how a run ended: its status, the count of all faults of disks, those of the disks in these slots, what is said on standard error, and
/// what it wrote.
pub fn tell(
    alloc: Global,
    plan: &RunPlan,
    ended: &Ended,
    shown: &[(String, DiskSlot)],
    disks: &mut TrialDisks,
    out: &mut String,
) -> Result<(), CaseErr>
    requires { NoneIsOut disks.old }
    ensures { NoneIsOut disks.new }
{
    let status = ended.status;
    let faults = disks.faults();
    write!(out, "> ended {status:?} faults={faults}")?;
    tell_faults(shown, disks, out)?;
    if plan.tells_calls {
        write!(out, " calls={}", ended.calls)?;
    }
    if plan.last.is_some() {
        tell_all(alloc, ended.written.as_slice(), out)?;
    }
    out.push('\n')?;
    if let Some(message) = status.message() {
        write!(out, "> says {message}\n")?;
    }
    tell_written(alloc, ended.written.as_slice(), plan.last, out)
}
