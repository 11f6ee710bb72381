//! Plays cases of runs of the program `m3`, which stand on the standard input, over streams and disks in memory, and tells what they come to.
//!
//! A line with `@` in front is a head, one with `#` in front a comment. A case is a head `@case` with those below it, in their order:
//!
//! | Head | What it asks for |
//! | --- | --- |
//! | `@text NAME` | Ends a case. The lines below it are a text, which scripts use |
//! | `@case NAME` | New empty disks, which never fail |
//! | `@case NAME each=0..40 picks=0,85` | The same once for each of these picks and each of these numbers, which stand in the heads below for each `?` and each `*`; `each=0..` ends with the first number with which no disk fails |
//! | `@disk c0 fail=1,4 fuse=7` | A new disk for the third node and shard 0, or as `meta` the meta disk: these of its calls fail, and after so many all, until it starts again |
//! | `@takes 0,3` | These takings of disks fail, counted from there on: the first one of a run is that of the meta disk, the others come by shard and then by name |
//! | `@show c0 meta` | The faults of these disks are told with each run, as are those of laid disks |
//! | `@words generate 7` | The words of the runs that follow; `''` is the empty one. Without this head: `run` |
//! | `@at meta p85` | Between runs, a word of `disk_stories` on that disk, as `p85`, which starts it again; or `x0.0.0.1:5:1`, which turns bits of a byte |
//! | `@run reads=0 writes=1` | A run whose input is the script below it, and of whose reads and writes these fail |
//! | `@run pieces=100,7 most=50` | The source gives these sizes in turn, or with `pieces=lines` line by line; the sink takes at most so much at once |
//! | `@run calls last=3 open` | The calls are told, a read as 1 and a write as 2; of the replies the last three alone are, behind the count and the digest of all bytes; the script's last line has no newline |
//! | `@may`, `@must` | In a case with `each` or `picks`: what may be told, or must be for one of the numbers at least. A `@must` begins a group, and of each pick groups come in their order. A `*` in a line stands for any text |
//!
//! Lines of a script stand as they are, but for `%use NAME`, `%repeat 5000 LINE`, `%count 0..9 LINE`, which has each of these numbers for a `*`,
//! and `%hex 7bff`. What is told is a line `@case NAME`; for each run `> ended STATUS faults=N`, then `> says` with what the program writes on
//! standard error, then the replies, and `> cut` where the last one has no newline; and `> told` for an `@at` that tells something. With `each`
//! it is told once of numbers in a row of which it is the same, with `> or` between, and not at all where a `@may` or `@must` has it. `> missed`
//! says which of these never came, `> a disk fails` that an `each` without an end found none, and `> wrong` which head can't be read or done, by
//! its line: the next case goes on, and the status is 1. It is 2 without an input.
#![tactic(auto)]

mod cases;
mod disks;
mod runs;
mod steps;

use crate::cases::Runs;
use std::io;
use std::process::ExitCode;
use trial_lines::play_all;

fn play_input(rt: HostRuntime) -> Option<bool> {
    let input = io::read_to_string(rt.alloc(), rt.reader()).ok()?;
    play_all::<Runs>(&rt, rt.alloc(), input.as_str())
}

fn main(rt: HostRuntime) -> ExitCode {
    match play_input(rt) {
        Some(true) => ExitCode::from(0),
        Some(false) => ExitCode::from(1),
        None => {
            let _ = eprintln!(rt; "m3_trials: no input, or no memory");
            ExitCode::from(2)
        }
    }
}
