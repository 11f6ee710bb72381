//! Plays cases of a replica's calls, which stand on the standard input, over disks in memory, and tells what they come to.
//!
//! A line with `@` in front is a head, one with `#` in front a comment. A case is a head `@case` with those below it, in their order:
//!
//! | Head | What it asks for |
//! | --- | --- |
//! | `@text NAME` | Ends a case. The lines below it are a text, which other lines use |
//! | `@case NAME` | Two replicas at Boot, each over an empty disk that never fails, at moment 0; words are said to the first one |
//! | `@case NAME each=0..40 picks=0,85` | The same once for each of these picks and each of these numbers, which stand in the case for each `?` and each `*`; `each=0..` ends with the first number with which no disk fails |
//! | `@rules 200,100,50,500 100,50,50,300` | A new replica, under the rules of these two namespaces, which are so at first: the size of blocks, how far into the past and into the future a put may lie, and how long points are kept |
//! | `@disk fail=1,4 fuse=7` | A new replica over a new disk: these of its calls fail, and after so many all, until it starts again |
//! | `@say` | The words in the lines below it, which `replica_stories` has; told is a line for each: what each word answers, with `\|` behind it |
//! | `@say calls` | Behind that, how many calls the disks got meanwhile, and of which blocks files of volumes were read |
//! | `@say digest` | In place of the answers how many bytes they are, and their digest |
//! | `@do` | The words in the lines below it; nothing is told |
//! | `@first` | The same; where one of the words isn't done, the case ends there, and with `each` nothing is told of the number |
//! | `@rows NAME` | The words of each line below it, to a new replica on which those of the text were done first; told is a line for each. The name may be left out |
//! | `@other` | Words are said to the other replica from here on |
//! | `@stream` | All pages of the other replica, which this one merges; told is how many pages and points these were, and how many of these were new or higher |
//! | `@may`, `@must` | In a case with `each` or `picks`: what may be told, or must be for one of the numbers at least. A `@must` begins a group, and of each pick groups come in their order. A `*` in a line stands for any text |
//!
//! Lines stand as they are, but for `%use NAME`, `%repeat 5000 LINE`, `%count 0..9 LINE`, which has each of these numbers for a `*`, and
//! `%hex 7bff`. What is told begins with a line `@case NAME`. With `each` it is told once of numbers in a row of which it is the same, with
//! `> or` between, and not at all where a `@may` or `@must` has it. `> missed` says which of these never came, `> a disk fails` that an `each`
//! without an end found none, `> left out` that a case without `each` ended early, and `> wrong` which head can't be read or done, by its line:
//! the next case goes on, and the status is 1. It is 2 without an input.
#![tactic(auto)]

mod counted_disk;
mod steps;
mod trial;

use crate::steps::Calls;
use std::io;
use std::process::ExitCode;
use trial_lines::play_all;

fn play_input(rt: HostRuntime) -> Option<bool> {
    let input = io::read_to_string(rt.alloc(), rt.reader()).ok()?;
    play_all::<Calls>(&rt, rt.alloc(), input.as_str())
}

fn main(rt: HostRuntime) -> ExitCode {
    match play_input(rt) {
        Some(true) => ExitCode::from(0),
        Some(false) => ExitCode::from(1),
        None => {
            let _ = eprintln!(rt; "replica_trials: no input, or no memory");
            ExitCode::from(2)
        }
    }
}
