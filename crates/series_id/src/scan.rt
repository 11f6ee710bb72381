ghost use Rattle.std.specs.Prelude.{◌≡◌, ℕ, ◌+◌, ◌<◌, ◌≤◌, ◌^◌, List, [], ◌∷◌, ◌++◌, length, codes, IsTrue, MatchOption, IfOk, IfErr};
ghost use Rattle.m3_model.specs.Tags.{escaped};
ghost use Rattle.m3_model.specs.declared.limits.TheConstants.{MOST_ID_BYTES, MOST_TAGS};
ghost use Rattle.series_id.specs.Names.{begins_no_name, BeginsWithName, BeginsAbove};
ghost use Rattle.series_id.specs.Faults.{escapes_nothing, IsNameFault, IsClosedAt, BeginsQuoted, IsSpellingFault, IsValueFault, IsTagFault, BeginsSpelled, IsEndFault, FaultsAfter};
ghost use Rattle.series_id.specs.Positions.{StandsBefore, ReadsTag};

use crate::bytes::{is_first_byte, name_len};
use crate::id_err::IdErr;
use crate::position::{Position, Tag};
use m3_model::limits::MOST_TAGS;
use std::cmp::Ordering;

// What ends a value.
const QUOTE: u8 = b'"';

// The name at the text's head, and what follows it.
fn split_name(text: &[u8]) -> Option<(&[u8], &[u8])>
    ensures { MatchOption result (IsTrue (begins_no_name text.now)) (λ parts. BeginsWithName text.now parts.0.now parts.1.now) }
{
    match text {
        [first, ..] if is_first_byte(*first) => Some(text.split_at(name_len(text))),
        _ => None,
    }
}

// The name at the text's head, which has to be above the one before it, and what follows it. `at` bytes stand before
// the text.
fn read_name<'a>(text: &'a [u8], before: &[u8], at: usize) -> Result<(&'a [u8], &'a [u8]), IdErr>
    ensures ok { IfOk result (λ parts. BeginsAbove before.now text.now parts.0.now parts.1.now) }
    ensures err { IfErr result (λ e. IsNameFault before.now at text.now e) }
{
    match split_name(text) {
        None => Err(IdErr::Name { at }),
        Some((name, later)) => match name.cmp(before) {
            Ordering::Less => Err(IdErr::Order),
            Ordering::Equal => Err(IdErr::Repeat),
            Ordering::Greater => Ok((name, later)),
        },
    }
}

// Neither a quote nor a backslash stands here.
fn escapes_nothing(text: &[u8]) -> bool
    ensures { result ≡ escapes_nothing text.now }
{
    !matches!(text, [b'"' | b'\\', ..])
}

// How many bytes the spelling of a value has that a quote closes. `at` bytes stand before the text.
fn spelling_len(text: &[u8], at: usize) -> Result<usize, IdErr>
    requires { at + length text.now < 2 ^ 64 }
    ensures ok { IfOk result (λ n. IsClosedAt text.now n) }
    ensures err { IfErr result (λ e. IsSpellingFault at text.now e) }
{
    let mut n = 0;
    while n < text.len() {
        let byte = text[n];
        if byte == QUOTE {
            return Ok(n);
        }
        if byte != b'\\' {
            n += 1;
        } else if escapes_nothing(&text[n + 1..]) {
            return Err(IdErr::Escape { at: at + n });
        } else {
            n += 2;
        }
    }
    Err(IdErr::Brace)
}

// The spelling of the value behind `="` at the text's head, and what follows its quote. `at` bytes stand before the
// text.
fn read_value(text: &[u8], at: usize) -> Result<(&[u8], &[u8]), IdErr>
    requires { at + length text.now < 2 ^ 64 }
    ensures ok { IfOk result (λ parts. BeginsQuoted text.now parts.0.now parts.1.now) }
    ensures err { IfErr result (λ e. IsValueFault at text.now e) }
{
    match text {
        [b'=', b'"', quoted @ ..] => {
            let (spelling, closed) = quoted.split_at(spelling_len(quoted, at + 2)?);
            Ok((spelling, &closed[1..]))
        }
        _ => Err(IdErr::Brace),
    }
}

// The tag at the text's head, as its name and its spelled value, and what follows it. `at` bytes stand before the text.
fn read_tag<'a>(
    text: &'a [u8],
    before: &[u8],
    at: usize,
) -> Result<(&'a [u8], &'a [u8], &'a [u8]), IdErr>
    requires { at + length text.now ≤ MOST_ID_BYTES }
    ensures ok { IfOk result (λ parts. BeginsSpelled before.now text.now parts.0.now parts.1.now parts.2.now) }
    ensures err { IfErr result (λ e. IsTagFault before.now at text.now e) }
{
    let (name, later) = read_name(text, before, at)?;
    let (spelling, later) = read_value(later, at + name.len())?;
    Ok((name, spelling, later))
}

// What follows the tag of this number: nothing behind the closing `}`, and the next tag behind a `,`.
fn read_end(text: &[u8], number: u32) -> Result<Option<&[u8]>, IdErr>
    requires { number ≤ MOST_TAGS }
    ensures ok { IfOk result (λ next. MatchOption next (text.now ≡ 125 ∷ []) (λ rest. (text.now ≡ 44 ∷ rest.now) × (number < MOST_TAGS))) }
    ensures err { IfErr result (λ e. IsEndFault number text.now e) }
{
    match text {
        [b'}'] => Ok(None),
        [b',', rest @ ..] if (number as usize) < MOST_TAGS => Ok(Some(rest)),
        [b',', ..] => Err(IdErr::Long),
        _ => Err(IdErr::Brace),
    }
}

// The tag at the position.
pub(crate) fn next_tag(position: Position<'_>) -> Result<Tag<'_>, IdErr>
    requires within { position.at + length position.rest.now ≤ MOST_ID_BYTES }
    requires few { position.number < MOST_TAGS }
    ensures ok { IfOk result (λ read. (text : List ℕ) (tags : List (List ℕ × List ℕ)) → StandsBefore text tags position.entry → ReadsTag text tags read) }
    ensures err { IfErr result (λ e. (text : List ℕ) (tags : List (List ℕ × List ℕ)) → StandsBefore text tags position.entry → FaultsAfter text tags position.entry.rest.now e) }
{
    let (name, spelling, later) = read_tag(position.rest, position.before, position.at)?;
    let number = position.number + 1;
    match read_end(later, number)? {
        None => Ok(Tag {
            name,
            spelling,
            next: None,
        }),
        Some(rest) => Ok(Tag {
            name,
            spelling,
            next: Some(Position {
                rest,
                before: name,
                at: position.at + (position.rest.len() - rest.len()),
                number,
            }),
        }),
    }
}
