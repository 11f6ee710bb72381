//! The steps of a case: what its heads ask for, one after the other.
use crate::counted_disk::Counts;
use crate::trial::Trial;
use disk_stories::tell_bytes;
use std::alloc::Global;
use trial_lines::{
    Case, CaseErr, Part, Player, Signs, Went, check_words, has_word, is_outcome, number, numbers,
    text_of, value_of,
};
use wire_bytes::digest;

// `200,100,50,500`: the size of blocks, how far into the past and into the future a put may lie, and how long points are kept.
fn windows_of(alloc: Global, text: &str) -> Result<[u64; 4], CaseErr> {
    let all = numbers(alloc, Some(text))?;
    match all.as_slice() {
        [block, past, future, retention] => Ok([*block, *past, *future, *retention]),
        _ => Err(CaseErr::Wrong("not the four numbers of a namespace")),
    }
}

// `200,100,50,500 100,50,50,300` has both namespaces.
fn set_windows(alloc: Global, words: &str, trial: &mut Trial<'_>) -> Result<(), CaseErr> {
    let (first, second) = words.split_once(' ').unwrap_or((words, ""));
    let first = windows_of(alloc, first)?;
    let second = windows_of(alloc, second)?;
    trial.set_windows([first, second]);
    Ok(())
}

// `fail=1,4 fuse=7` lays a new disk.
fn lay_disk(alloc: Global, words: &str, trial: &mut Trial<'_>) -> Result<(), CaseErr> {
    check_words(words, "fail fuse")?;
    let fail = numbers(alloc, value_of(words, "fail"))?;
    let fuse = match value_of(words, "fuse") {
        Some(text) => Some(number(text)?),
        None => None,
    };
    trial.lay_disk(fail.as_slice(), fuse)
}

// The blocks whose bits these are, as `1000,1200`; `-` where there is none.
fn tell_blocks(blocks: u64, out: &mut String) -> Result<(), CaseErr> {
    let mut sign = "";
    for at in 0..64u64 {
        if blocks & 1u64.wrapping_shl(at as u32) != 0 {
            write!(out, "{sign}{}", at.saturating_mul(100))?;
            sign = ",";
        }
    }
    if blocks == 0 {
        out.push('-')?;
    }
    Ok(())
}

fn tell_counts(counts: &Counts, out: &mut String) -> Result<(), CaseErr> {
    let (calls, blocks) = counts.take();
    write!(out, "> calls={calls} blocks=")?;
    tell_blocks(blocks, out)?;
    Ok(out.push('\n')?)
}

// Says the lines, and tells the answers, or how many bytes these are, and their digest; and the calls of disks meanwhile.
fn say(
    alloc: Global,
    words: &str,
    lines: &str,
    counts: &Counts,
    trial: &mut Trial<'_>,
    out: &mut String,
) -> Result<(), CaseErr> {
    check_words(words, "calls digest")?;
    let mut said = String::new(alloc);
    counts.take();
    trial.say(lines, &mut said)?;
    if has_word(words, "digest") {
        write!(out, "> bytes={}", said.len())?;
        tell_bytes(alloc, " sha256=", &digest(said.as_bytes()), out)?;
        out.push('\n')?;
    } else {
        out.push_str(said.as_str())?;
    }
    if has_word(words, "calls") {
        tell_counts(counts, out)?;
    }
    Ok(())
}

// `flushed` says the words of each row to a replica of its own, behind those of the text `flushed`. Says whether these were done.
fn say_rows(
    case: Case<'_, '_>,
    words: &str,
    lines: &str,
    trial: &mut Trial<'_>,
    out: &mut String,
) -> Result<bool, CaseErr> {
    let mut before = String::new(case.alloc);
    if !words.is_empty() {
        before = case.lines_of(text_of(case.book, words)?)?;
    }
    trial.say_rows(before.as_str(), lines, out)
}

// Does what a head says with the lines below it. Says whether all was done that had to be.
fn step_with_lines(
    case: Case<'_, '_>,
    verb: &str,
    words: &str,
    lines: &str,
    counts: &Counts,
    trial: &mut Trial<'_>,
    out: &mut String,
) -> Result<bool, CaseErr> {
    let mut scratch = String::new(case.alloc);
    match verb {
        "@say" => {
            say(case.alloc, words, lines, counts, trial, out)?;
            Ok(true)
        }
        "@do" => {
            trial.say(lines, &mut scratch)?;
            Ok(true)
        }
        "@first" => trial.say(lines, &mut scratch),
        "@rows" => say_rows(case, words, lines, trial, out),
        _ => Err(CaseErr::Wrong("lines that no words are read from")),
    }
}

// Does what a head says that has no lines below it.
fn step_alone(
    alloc: Global,
    verb: &str,
    words: &str,
    trial: &mut Trial<'_>,
    out: &mut String,
) -> Result<(), CaseErr> {
    match verb {
        "@rules" => set_windows(alloc, words, trial),
        "@disk" => lay_disk(alloc, words, trial),
        "@other" => {
            trial.turn();
            Ok(())
        }
        "@stream" => trial.stream(out),
        _ => Err(CaseErr::Wrong("no such head")),
    }
}

// Says whether the case goes on.
fn step(
    case: Case<'_, '_>,
    part: &Part<'_>,
    signs: Signs,
    counts: &Counts,
    trial: &mut Trial<'_>,
    out: &mut String,
) -> Result<bool, CaseErr> {
    let head = signs.put_into(case.alloc, part.head)?;
    let (verb, words) = head.as_str().split_once(' ').unwrap_or((head.as_str(), ""));
    if part.is_bare() {
        step_alone(case.alloc, verb, words, trial, out)?;
        return Ok(true);
    }
    let lines = case.lines_of(part)?;
    let lines = signs.put_into(case.alloc, lines.as_str())?;
    step_with_lines(case, verb, words, lines.as_str(), counts, trial, out)
}

// The steps of a case, up to the first that had to be done and wasn't.
fn play(
    case: Case<'_, '_>,
    signs: Signs,
    line: &mut usize,
    out: &mut String,
) -> Result<Went, CaseErr> {
    let counts = Counts::new();
    let mut trial = Trial::new(case.alloc, &counts);
    for part in case.steps {
        if is_outcome(part) {
            continue;
        }
        *line = part.number;
        if !step(case, part, signs, &counts, &mut trial, out)? {
            return Ok(Went::LeftOut);
        }
    }
    Ok(trial.went())
}

/// A replica's calls, over disks in memory.
pub struct Calls;

impl Player for Calls {
    fn play(
        case: Case<'_, '_>,
        signs: Signs,
        line: &mut usize,
        out: &mut String,
    ) -> Result<Went, CaseErr> {
        play(case, signs, line, out)
    }
}
