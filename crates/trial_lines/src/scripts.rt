//! The script that the lines of a part spell.
use crate::case_err::CaseErr;
use crate::heads::{number, span, with_number};
use crate::parts::Part;
use std::alloc::Global;

/// The text of this name.
///
/// # Errors
///
/// There is none.
pub fn text_of<'b, 'a>(book: &'b [Part<'a>], name: &str) -> Result<&'b Part<'a>, CaseErr> {
    for part in book {
        if part.head.strip_prefix("@text ") == Some(name) {
            return Ok(part);
        }
    }
    Err(CaseErr::Wrong("no such text"))
}

fn add_line(line: &str, out: &mut Vec<u8>) -> Result<(), CaseErr> {
    out.extend_from_slice(line.as_bytes())?;
    Ok(out.push(b'\n')?)
}

fn add_empty(count: u64, out: &mut Vec<u8>) -> Result<(), CaseErr> {
    for _ in 0..count {
        out.push(b'\n')?;
    }
    Ok(())
}

// The lines of a text, as they are, without the empty ones at its end.
fn add_text(text: &Part<'_>, out: &mut Vec<u8>) -> Result<(), CaseErr> {
    let mut empty: u64 = 0;
    for line in text.lines.iter() {
        if line.is_empty() {
            empty = empty.saturating_add(1);
        } else {
            add_empty(empty, out)?;
            add_line(line, out)?;
            empty = 0;
        }
    }
    Ok(())
}

// `5000 {}` is that line so many times.
fn add_repeated(words: &str, out: &mut Vec<u8>) -> Result<(), CaseErr> {
    let (count, line) = words.split_once(' ').unwrap_or((words, ""));
    for _ in 0..number(count)? {
        add_line(line, out)?;
    }
    Ok(())
}

// `0..5000 {}` is that line once for each number, which stands in the place of each star.
fn add_counted(alloc: Global, words: &str, out: &mut Vec<u8>) -> Result<(), CaseErr> {
    let (numbers, line) = words.split_once(' ').unwrap_or((words, ""));
    let (first, end) = span(numbers)?;
    for number in first..end {
        add_line(with_number(alloc, line, '*', number)?.as_str(), out)?;
    }
    Ok(())
}

fn add_bytes(alloc: Global, digits: &str, out: &mut Vec<u8>) -> Result<(), CaseErr> {
    match hex::decode(alloc, digits) {
        Ok(bytes) => Ok(out.extend_from_slice(bytes.as_slice())?),
        Err(_) => Err(CaseErr::Wrong("no hexadecimal digits")),
    }
}

// A line, or what it stands for.
fn add_spelled(
    alloc: Global,
    book: &[Part<'_>],
    line: &str,
    out: &mut Vec<u8>,
) -> Result<(), CaseErr> {
    let Some(words) = line.strip_prefix("%") else {
        return add_line(line, out);
    };
    match words.split_once(' ') {
        Some(("use", name)) => add_text(text_of(book, name)?, out),
        Some(("repeat", words)) => add_repeated(words, out),
        Some(("count", words)) => add_counted(alloc, words, out),
        Some(("hex", digits)) => add_bytes(alloc, digits, out),
        _ => Err(CaseErr::Wrong("no such line of a script")),
    }
}

/// The bytes of the script below a head: its lines, each with a newline, without the empty ones at its end. `%use NAME` stands for the lines
/// of that text of the book, `%repeat 5000 LINE` for so many lines, `%count 0..5000 LINE` for one with each of these numbers in the place of
/// its stars, and `%hex 7bff` for these bytes.
///
/// # Errors
///
/// Want of memory, and a line with `%` in front that is none of these.
pub fn script(alloc: Global, book: &[Part<'_>], part: &Part<'_>) -> Result<Vec<u8>, CaseErr> {
    let mut out = Vec::new(alloc);
    let mut empty: u64 = 0;
    for line in part.lines.iter() {
        if line.is_empty() {
            empty = empty.saturating_add(1);
        } else {
            add_empty(empty, &mut out)?;
            add_spelled(alloc, book, line, &mut out)?;
            empty = 0;
        }
    }
    Ok(out)
}
