//! What the words of a head say: numbers, lists of them, spans, slots of disks, and keys with their values.
ghost use Rattle.std.specs.Prelude.{IfOk};
ghost use Rattle.trial_lines.specs.Slots.{IsSlot};

use crate::case_err::CaseErr;
use m3_model::limits::{MOST_NODES, MOST_SHARDS};
use m3_outside::DiskSlot;
use std::alloc::Global;

/// The number that the text is.
///
/// # Errors
///
/// A text that is no number below 2^64.
pub fn number(text: &str) -> Result<u64, CaseErr> {
    text.parse::<u64>()
        .map_err(|_| CaseErr::Wrong("not a number"))
}

// Adds the numbers of the span to these.
fn add_span(text: &str, all: &mut Vec<u64>) -> Result<(), CaseErr> {
    let (first, end) = span(text)?;
    for one in first..end {
        all.push(one)?;
    }
    Ok(())
}

/// The numbers that the text is, as `1,4` or `0..3,7`, in their order; none where there is no text.
///
/// # Errors
///
/// Want of memory, and a word that is no number and no span.
pub fn numbers(alloc: Global, text: Option<&str>) -> Result<Vec<u64>, CaseErr> {
    let mut all = Vec::new(alloc);
    if let Some(text) = text {
        for word in text.split(',') {
            if word.contains("..") {
                add_span(word, &mut all)?;
            } else {
                all.push(number(word)?)?;
            }
        }
    }
    Ok(all)
}

/// The span of numbers that the text is: `3..40` begins with 3 and ends before 40.
///
/// # Errors
///
/// A text that is no span.
pub fn span(text: &str) -> Result<(u64, u64), CaseErr> {
    match text.split_once("..") {
        Some((first, end)) => Ok((number(first)?, number(end)?)),
        None => Err(CaseErr::Wrong("no span of numbers")),
    }
}

/// The slot of a disk: `c0` is that of the third node for shard 0, and `meta` that of the meta disk.
///
/// # Errors
///
/// A text that names no slot.
pub fn slot(text: &str) -> Result<DiskSlot, CaseErr>
    ensures { IfOk result IsSlot }
{
    if text == "meta" {
        return Ok(DiskSlot::META);
    }
    let letter = text.as_bytes().first().copied().unwrap_or(0);
    let node = letter.wrapping_sub(b'a');
    let shard = text.get(1..).unwrap_or("").parse::<u32>();
    match shard {
        Ok(shard) if (node as usize) < MOST_NODES && shard < MOST_SHARDS => {
            Ok(DiskSlot { node, shard })
        }
        _ => Err(CaseErr::Wrong("no slot of a disk")),
    }
}

/// The value of a key among the words, where it stands there as `key=value`; of two the first.
pub fn value_of<'a>(words: &'a str, key: &str) -> Option<&'a str> {
    for word in words.split(' ') {
        if let Some((name, value)) = word.split_once('=') {
            if name == key {
                return Some(value);
            }
        }
    }
    None
}

/// Whether the word stands among the words.
pub fn has_word(words: &str, wanted: &str) -> bool {
    for word in words.split(' ') {
        if word == wanted {
            return true;
        }
    }
    false
}

// Whether the word is one of these, or has one of them as its key.
fn is_known(word: &str, known: &str) -> bool {
    match word.split_once('=') {
        Some((key, _)) => has_word(known, key),
        None => word.is_empty() || has_word(known, word),
    }
}

/// Looks whether each of the words is one of those that are known, or such a key with its value.
///
/// # Errors
///
/// Another word or key.
pub fn check_words(words: &str, known: &str) -> Result<(), CaseErr> {
    for word in words.split(' ') {
        if !is_known(word, known) {
            return Err(CaseErr::Wrong("no such word or key"));
        }
    }
    Ok(())
}

/// The text with this number in the place of each sign of this kind.
///
/// # Errors
///
/// Want of memory.
pub fn with_number(alloc: Global, text: &str, sign: char, number: u64) -> Result<String, CaseErr> {
    let mut all = String::new(alloc);
    let mut is_first = true;
    for part in text.split(sign) {
        if !is_first {
            write!(all, "{number}")?;
        }
        all.push_str(part)?;
        is_first = false;
    }
    Ok(all)
}

/// What stands in a case in the place of signs: a number of its span for each `*`, and one of its picks for each `?`.
#[derive(Clone, Copy)]
pub struct Signs {
    pub number: u64,
    pub pick: u64,
}

impl Signs {
    /// The text with these numbers in the place of its signs.
    ///
    /// # Errors
    ///
    /// Want of memory.
    pub fn put_into(self, alloc: Global, text: &str) -> Result<String, CaseErr> {
        let text = with_number(alloc, text, '*', self.number)?;
        with_number(alloc, text.as_str(), '?', self.pick)
    }
}
