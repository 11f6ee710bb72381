//! Cases: their steps once, or for each number of a span and each of some picks, and what is told of them.
use crate::case_err::CaseErr;
use crate::heads::{Signs, check_words, number, numbers, span, value_of};
use crate::outcomes::fits;
use crate::parts::{Part, parts_of};
use crate::scripts::script;
use m3_model::Memory;
use std::alloc::Global;

// Where an open span ends in any case.
const MOST_NUMBERS: u64 = 2_000;

/// A case: the book in which it stands, and its steps, which are the parts between its head and the next case or text.
#[derive(Clone, Copy)]
pub struct Case<'b, 'a> {
    pub alloc: Global,
    pub book: &'b [Part<'a>],
    pub steps: &'b [Part<'a>],
}

/// How the steps of a case went.
#[derive(Clone, Copy, PartialEq)]
pub enum Went {
    /// To their end, and no disk failed.
    Whole,
    /// To their end, and a disk failed.
    Failed,
    /// Not to those that the case tells of.
    LeftOut,
}

/// What plays the steps of a case.
pub trait Player {
    /// Does what the heads of the steps ask for, one after the other, with what stands in the place of their signs, and writes into the text what
    /// they tell. Outcomes, which stand among the steps, ask for nothing. The number of the line that is being done is noted.
    ///
    /// # Errors
    ///
    /// Want of memory, and a head, or a line below it, that can't be read or done.
    fn play(
        case: Case<'_, '_>,
        signs: Signs,
        line: &mut usize,
        out: &mut String,
    ) -> Result<Went, CaseErr>;
}

// Whether the part ends the case before it.
fn ends_case(part: &Part<'_>) -> bool {
    part.head.starts_with("@case ") || part.head.starts_with("@text ")
}

/// Whether the part has what may be told of its case, or must be.
pub fn is_outcome(part: &Part<'_>) -> bool {
    part.head == "@may" || part.head == "@must"
}

// The parts of the case whose head is at this position: those behind it, up to the next case or text.
fn steps_of<'b, 'a>(book: &'b [Part<'a>], position: usize) -> &'b [Part<'a>] {
    let (_, behind) = book.split_at(book.len().min(position.saturating_add(1)));
    let mut count: usize = 0;
    for part in behind {
        if ends_case(part) {
            break;
        }
        count = count.saturating_add(1);
    }
    let (steps, _) = behind.split_at(behind.len().min(count));
    steps
}

// What was told of the numbers so far: the last text that none of the steps has, the positions of the steps that had one, and that of the step
// from which on they may have the next.
#[derive(Drop)]
struct Told {
    last: String,
    seen: Vec<usize>,
    from: usize,
}

impl Case<'_, '_> {
    /// The script below a head, as text.
    ///
    /// # Errors
    ///
    /// Want of memory, and a line of it that can't be read.
    pub fn lines_of(self, part: &Part<'_>) -> Result<String, CaseErr> {
        let bytes = script(self.alloc, self.book, part)?;
        Ok(String::from_utf8_lossy(self.alloc, bytes.as_slice())?)
    }

    // Whether one of the steps has the text as what may or must be told. Those in front of the last `@must` before it may have no further one.
    fn note_outcome(self, outcome: &str, told: &mut Told) -> Result<bool, CaseErr> {
        let mut group = told.from;
        for (at, part) in self.steps.iter().enumerate().skip(told.from) {
            if part.head == "@must" {
                group = at;
            }
            if is_outcome(part) && fits(self.lines_of(part)?.as_str(), outcome) {
                told.from = group;
                told.seen.push(at)?;
                return Ok(true);
            }
        }
        Ok(false)
    }

    // Tells what a number came to, where neither a step has it nor the number before came to the same.
    fn tell_outcome(
        self,
        outcome: String,
        told: &mut Told,
        out: &mut String,
    ) -> Result<(), CaseErr> {
        let is_known = self.note_outcome(outcome.as_str(), told)?;
        if is_known || told.last.as_str() == outcome.as_str() {
            return Ok(());
        }
        if !told.last.is_empty() {
            out.push_str("> or\n")?;
        }
        out.push_str(outcome.as_str())?;
        told.last = outcome;
        Ok(())
    }

    // Tells which outcomes must be told and weren't: the first one is number 1.
    fn tell_missed(self, seen: &[usize], out: &mut String) -> Result<(), CaseErr> {
        let mut number: u64 = 0;
        for (at, part) in self.steps.iter().enumerate() {
            if is_outcome(part) {
                number = number.saturating_add(1);
            }
            if part.head == "@must" && !seen.contains(&at) {
                write!(out, "> missed outcome {number}\n")?;
            }
        }
        Ok(())
    }
}

// The numbers of a case: from the first one on and below the end, or, where it has none, up to the first with which no disk fails.
#[derive(Clone, Copy)]
struct Numbers {
    first: u64,
    end: Option<u64>,
}

// What `each=3..40` asks for, or the open `each=3..`. Where there is no such key, the number is 0.
fn numbers_of(keys: &str) -> Result<Numbers, CaseErr> {
    let text = value_of(keys, "each").unwrap_or("0..1");
    if let Some(first) = text.strip_suffix("..") {
        let first = number(first)?;
        return Ok(Numbers { first, end: None });
    }
    let (first, end) = span(text)?;
    let end = Some(end);
    Ok(Numbers { first, end })
}

// Plays the case for each of the numbers with this pick.
fn play_numbers<P: Player>(
    case: Case<'_, '_>,
    numbers: Numbers,
    pick: u64,
    told: &mut Told,
    line: &mut usize,
    out: &mut String,
) -> Result<(), CaseErr> {
    told.from = 0;
    for number in numbers.first..numbers.end.unwrap_or(MOST_NUMBERS) {
        let mut outcome = String::new(case.alloc);
        let went = P::play(case, Signs { number, pick }, line, &mut outcome)?;
        if went != Went::LeftOut {
            case.tell_outcome(outcome, told, out)?;
        }
        if went == Went::Whole && numbers.end.is_none() {
            return Ok(());
        }
    }
    if numbers.end.is_none() {
        out.push_str("> a disk fails with each of the numbers\n")?;
    }
    Ok(())
}

// Plays the case for each of its picks and numbers.
fn play_each<P: Player>(
    case: Case<'_, '_>,
    keys: &str,
    line: &mut usize,
    out: &mut String,
) -> Result<(), CaseErr> {
    let each = numbers_of(keys)?;
    let picks = numbers(case.alloc, value_of(keys, "picks").or(Some("0")))?;
    let mut told = Told {
        last: String::new(case.alloc),
        seen: Vec::new(case.alloc),
        from: 0,
    };
    for pick in picks.iter() {
        play_numbers::<P>(case, each, *pick, &mut told, line, out)?;
    }
    case.tell_missed(told.seen.as_slice(), out)
}

fn play_case<P: Player>(
    case: Case<'_, '_>,
    keys: &str,
    line: &mut usize,
    out: &mut String,
) -> Result<(), CaseErr> {
    check_words(keys, "each picks")?;
    if value_of(keys, "each").is_some() || value_of(keys, "picks").is_some() {
        return play_each::<P>(case, keys, line, out);
    }
    let signs = Signs { number: 0, pick: 0 };
    if P::play(case, signs, line, out)? == Went::LeftOut {
        out.push_str("> left out\n")?;
    }
    Ok(())
}

// What is told of the part at this position of the book: of a case its name and what its steps come to; of a head that can't be read or done
// which line that is, and why; and nothing of any other part. False where a head can't.
fn tell_part<P: Player>(
    alloc: Global,
    book: &[Part<'_>],
    position: usize,
    part: &Part<'_>,
    out: &mut String,
) -> Result<bool, Memory> {
    let Some(words) = part.head.strip_prefix("@case ") else {
        return Ok(true);
    };
    let (name, keys) = words.split_once(' ').unwrap_or((words, ""));
    write!(out, "@case {name}\n")?;
    let steps = steps_of(book, position);
    let mut line = part.number;
    match play_case::<P>(Case { alloc, book, steps }, keys, &mut line, out) {
        Ok(()) => Ok(true),
        Err(CaseErr::Memory) => Err(Memory),
        Err(CaseErr::Wrong(why)) => {
            write!(out, "> wrong line {line}: {why}\n")?;
            Ok(false)
        }
    }
}

/// Plays each case of the input, and prints what is told of it. False where a head couldn't be read or done, and none for want of memory or where
/// it can't be printed.
pub fn play_all<P: Player>(rt: &impl Print, alloc: Global, input: &str) -> Option<bool> {
    let book = parts_of(alloc, input).ok()?;
    let mut is_right = true;
    for (position, part) in book.iter().enumerate() {
        let mut out = String::new(alloc);
        is_right &= tell_part::<P>(alloc, book.as_slice(), position, part, &mut out).ok()?;
        print!(rt; "{out}").ok()?;
    }
    Some(is_right)
}
