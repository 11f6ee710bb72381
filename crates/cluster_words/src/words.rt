//! What the letters and numbers of a story's words mean.
ghost use Rattle.std.specs.Prelude.{◌≤◌, IfOk, IsTrue};
ghost use Rattle.m3_model.specs.Identifiers.{IsIdentifier};
ghost use Rattle.m3_model.specs.Names.{is_name};

use m3_model::{Memory, ReadLevel, Text, WriteLevel};
use series_id::valid;
use std::alloc::Global;

/// The text that the bytes are, and the empty one where they are none.
pub fn text(bytes: &[u8]) -> &str {
    str::from_utf8(bytes).unwrap_or("")
}

/// A number up to 1000, and 0 where there is none.
pub fn number(text: &str) -> u64
    ensures { result ≤ 1000 }
{
    text.parse::<u64>().unwrap_or(0).min(1000)
}

/// A whole number, and 0 where there is none.
pub fn value(text: &str) -> i64 {
    text.parse::<i64>().unwrap_or(0)
}

// The name of a node, a group or a namespace by its letter.
fn named(letter: u8) -> &'static str
    ensures { IsTrue (is_name result.now) }
{
    match letter {
        b'a' => "a",
        b'b' => "b",
        b'c' => "c",
        b'd' => "d",
        b'e' => "e",
        b'1' => "1",
        b'2' => "2",
        b'3' => "3",
        b'4' => "4",
        b'm' => "m",
        b'n' => "n",
        b'o' => "o",
        b'p' => "p",
        b'q' => "q",
        b'r' => "r",
        b's' => "s",
        b't' => "t",
        b'u' => "u",
        _ => "x",
    }
}

/// A name by its letter.
pub fn name(alloc: Global, letter: u8) -> Result<Text, Memory>
    ensures { IfOk result (λ name. IsTrue (is_name name)) }
{
    Text::from_str(alloc, named(letter))
}

// `u` has no tags, `x` and `y` have some.
fn spelled(series: u8) -> &'static str {
    match series {
        b'x' => "{dc=\"x\"}",
        b'y' => "{dc=\"y\",host=\"h1\"}",
        b'v' => "down",
        _ => "up",
    }
}

/// The identifier of a series by its letter.
pub fn identifier(alloc: Global, series: u8) -> Result<Text, Memory>
    ensures { IfOk result IsIdentifier }
{
    let id = spelled(series);
    if !valid(id) {
        return Err(Memory);
    }
    Text::from_str(alloc, id)
}

/// The letter of a series.
pub fn letter_of(id: &str) -> char {
    match id {
        "up" => 'u',
        "down" => 'v',
        "{dc=\"x\"}" => 'x',
        "{dc=\"y\",host=\"h1\"}" => 'y',
        _ => '?',
    }
}

/// A level by its letter: O for one, A for all, and else a majority.
pub fn write_level(letter: u8) -> WriteLevel {
    match letter {
        b'O' => WriteLevel::One,
        b'A' => WriteLevel::All,
        _ => WriteLevel::Majority,
    }
}

/// The same of a read, with U for unstrict.
pub fn read_level(letter: u8) -> ReadLevel {
    match letter {
        b'O' => ReadLevel::One,
        b'U' => ReadLevel::Unstrict,
        b'A' => ReadLevel::All,
        _ => ReadLevel::Majority,
    }
}
