//! The program `m3`: its words, the standard streams, and disks in a folder or in memory go to `run`, and its status to the system.
#![tactic(auto)]

ghost use Rattle.std.specs.Prelude.{◌≡◌};
ghost use Rattle.m3_outside.specs.Slots.{Out};
ghost use Rattle.m3_outside.specs.declared.slot.DiskSlot.{DiskSlot};

use host_edge::{FileDisks, StdSink, StdSource};
use m3_outside::{DiskErr, Disks};
use m3_program::run::run;
use m3_program::{Status, WordsErr, folder};
use mem_disk::MemDisks;
use std::env;
use std::io::ErrorKind;
use std::process::ExitCode;

/// The words after the program's name. A word that isn't UTF-8 is none of a command.
fn words_given(rt: HostRuntime) -> Result<Vec<String>, Status> {
    let given = match env::args(&rt) {
        Ok(given) => given,
        Err(error) if error.kind() == ErrorKind::OutOfMemory => return Err(Status::Memory),
        Err(_) => return Err(Status::Usage),
    };
    let mut words = Vec::new(rt.alloc());
    for word in given.skip(1) {
        if words.push(word).is_err() {
            return Err(Status::Memory);
        }
    }
    Ok(words)
}

/// Runs what the words ask for, over the standard streams and these disks.
fn run_over<X: Disks>(rt: HostRuntime, words: &[String], disks: &mut X) -> Status
    requires none_out { (slot : DiskSlot) → ¬ ((X.depot disks.old).held slot ≡ Out) }
{
    let mut source = StdSource::new(rt);
    let mut sink = StdSink::new(rt);
    run(rt.alloc(), words, &mut source, &mut sink, disks)
}

/// Runs it over the disks in this folder.
fn run_in(rt: HostRuntime, words: &[String], folder: &str) -> Status {
    match FileDisks::open(rt, folder) {
        Ok(mut disks) => run_over(rt, words, &mut disks),
        Err(DiskErr::Failed) => Status::DiskFault,
        Err(DiskErr::Memory) => Status::Memory,
    }
}

/// Runs it over disks in memory, which are empty.
fn run_in_memory(rt: HostRuntime, words: &[String]) -> Status {
    match MemDisks::new(rt.alloc()) {
        Ok(mut disks) => run_over(rt, words, &mut disks),
        Err(_) => Status::Memory,
    }
}

/// Runs what the words ask for, over the disks that they choose.
fn run_words(rt: HostRuntime) -> Status {
    let words = match words_given(rt) {
        Ok(words) => words,
        Err(status) => return status,
    };
    match folder(rt.alloc(), words.as_slice()) {
        Ok(Some(folder)) => run_in(rt, words.as_slice(), folder.as_str()),
        Ok(None) => run_in_memory(rt, words.as_slice()),
        Err(WordsErr::Usage) => Status::Usage,
        Err(WordsErr::Memory) => Status::Memory,
    }
}

fn main(rt: HostRuntime) -> ExitCode {
    let status = run_words(rt);
    if let Some(message) = status.message() {
        let _ = eprintln!(rt; "{message}");
    }
    ExitCode::from(status.code())
}
