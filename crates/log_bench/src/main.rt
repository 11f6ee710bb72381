//! Appends chunks of 100 bytes to a log on a disk in memory: as many as the first word says.
#![tactic(auto)]

use commit_log::{Log, LogErr, read_all};
use m3_outside::Disk;
use mem_disk::MemDisk;
use std::alloc::Global;
use std::env;
use std::process::ExitCode;

const CHUNK: [u8; 100] = [7; 100];

// Opens the log and appends so many chunks.
fn append_chunks<D: Disk>(alloc: Global, disk: &mut D, count: u64) -> Result<(), LogErr> {
    let found = read_all(alloc, disk)?;
    let mut log = Log::begin(disk, found.next)?;
    for _ in 0..count {
        log.ready(disk, 100)?;
        log.append(disk, &CHUNK)?;
    }
    Ok(())
}

fn append_in_memory(alloc: Global, count: u64) -> Result<(), LogErr> {
    let mut disk = MemDisk::new(alloc, &[], None).map_err(|_| LogErr::Memory)?;
    append_chunks(alloc, &mut disk, count)
}

// The number that the first word says.
fn first_number(rt: HostRuntime) -> Option<u64> {
    let mut words = env::args(&rt).ok()?;
    words.nth(1)?.parse::<u64>().ok()
}

fn main(rt: HostRuntime) -> ExitCode {
    match first_number(rt) {
        None => ExitCode::from(2),
        Some(count) => match append_in_memory(rt.alloc(), count) {
            Ok(()) => ExitCode::SUCCESS,
            Err(_) => ExitCode::FAILURE,
        },
    }
}
