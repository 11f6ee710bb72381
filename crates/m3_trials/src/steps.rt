//! The steps of a case: what its heads ask for, one after the other, over the same disks.
ghost use Rattle.m3_trials.specs.Disks.{NoneIsOut};

use crate::disks::{TrialDisks, change, lay};
use crate::runs::{plan_of, run_script, tell};
use m3_outside::DiskSlot;
use mem_disk::MemDisk;
use std::alloc::Global;
use trial_lines::{Case, CaseErr, Part, check_words, number, numbers, script, slot, value_of};

/// What the heads of a case have said so far: the words of its runs, and the slots whose faults are told, with their names.
#[derive(Drop)]
pub struct Trial {
    words: Vec<String>,
    shown: Vec<(String, DiskSlot)>,
}

// Words with a space between; `''` is the empty one.
fn words_of(alloc: Global, text: &str) -> Result<Vec<String>, CaseErr> {
    let mut words = Vec::new(alloc);
    if text.is_empty() {
        return Ok(words);
    }
    for word in text.split(' ') {
        let word = if word == "''" { "" } else { word };
        words.push(String::from_str(alloc, word)?)?;
    }
    Ok(words)
}

/// A case of which nothing was said: its runs are asked for by `run`, and no disk is told of.
///
/// # Errors
///
/// Want of memory.
pub fn begin(alloc: Global) -> Result<Trial, CaseErr> {
    Ok(Trial {
        words: words_of(alloc, "run")?,
        shown: Vec::new(alloc),
    })
}

// The disk of this name is told of, once.
fn show(alloc: Global, name: &str, trial: &mut Trial) -> Result<(), CaseErr> {
    let at = slot(name)?;
    for (other, _) in trial.shown.iter() {
        if other.as_str() == name {
            return Ok(());
        }
    }
    Ok(trial.shown.push((String::from_str(alloc, name)?, at))?)
}

fn show_all(alloc: Global, names: &str, trial: &mut Trial) -> Result<(), CaseErr> {
    for name in names.split(' ') {
        show(alloc, name, trial)?;
    }
    Ok(())
}

// `c0 fail=1,4 fuse=7` lays a new disk into a slot.
fn lay_disk(
    alloc: Global,
    words: &str,
    trial: &mut Trial,
    disks: &mut TrialDisks,
) -> Result<(), CaseErr>
    requires { NoneIsOut disks.old }
    ensures { NoneIsOut disks.new }
{
    let (name, keys) = words.split_once(' ').unwrap_or((words, ""));
    check_words(keys, "fail fuse")?;
    show(alloc, name, trial)?;
    let fail = numbers(alloc, value_of(keys, "fail"))?;
    let fuse = match value_of(keys, "fuse") {
        Some(text) => Some(number(text)?),
        None => None,
    };
    lay(
        disks,
        slot(name)?,
        MemDisk::new(alloc, fail.as_slice(), fuse)?,
    );
    Ok(())
}

// `meta p3` does a word on the disk of a slot, and tells what it tells.
fn change_disk(
    alloc: Global,
    words: &str,
    disks: &mut TrialDisks,
    out: &mut String,
) -> Result<(), CaseErr>
    requires { NoneIsOut disks.old }
    ensures { NoneIsOut disks.new }
{
    let (name, word) = words.split_once(' ').unwrap_or((words, ""));
    let mut told = String::new(alloc);
    if !change(alloc, disks, slot(name)?, word, &mut told)? {
        return Err(CaseErr::Wrong("no such word, or it can't be done"));
    }
    if !told.is_empty() {
        write!(out, "> told {name} {told}\n")?;
    }
    Ok(())
}

fn run_step(
    case: Case<'_, '_>,
    part: &Part<'_>,
    words: &str,
    trial: &Trial,
    disks: &mut TrialDisks,
    out: &mut String,
) -> Result<(), CaseErr>
    requires { NoneIsOut disks.old }
    ensures { NoneIsOut disks.new }
{
    let alloc = case.alloc;
    let mut lines = script(alloc, case.book, part)?;
    let plan = plan_of(alloc, words, &mut lines)?;
    let ended = run_script(
        alloc,
        trial.words.as_slice(),
        &plan,
        lines.as_slice(),
        disks,
    );
    tell(alloc, &plan, &ended, trial.shown.as_slice(), disks, out)
}

/// Does what the head of a part of the case asks for, and writes what it tells into the text. A star in the head has its number already.
///
/// # Errors
///
/// Want of memory, a head that can't be read or done, and lines below one that takes none.
pub fn step(
    case: Case<'_, '_>,
    part: &Part<'_>,
    head: &str,
    trial: &mut Trial,
    disks: &mut TrialDisks,
    out: &mut String,
) -> Result<(), CaseErr>
    requires { NoneIsOut disks.old }
    ensures { NoneIsOut disks.new }
{
    let alloc = case.alloc;
    let (verb, words) = head.split_once(' ').unwrap_or((head, ""));
    if verb == "@run" {
        return run_step(case, part, words, trial, disks, out);
    }
    if !part.is_bare() {
        return Err(CaseErr::Wrong("lines that no run takes"));
    }
    match verb {
        "@disk" => lay_disk(alloc, words, trial, disks),
        "@at" => change_disk(alloc, words, disks, out),
        "@takes" => {
            disks.fail_takings(numbers(alloc, Some(words))?);
            Ok(())
        }
        "@show" => show_all(alloc, words, trial),
        "@words" => {
            trial.words = words_of(alloc, words)?;
            Ok(())
        }
        _ => Err(CaseErr::Wrong("no such head")),
    }
}
