//! Numerals, as serde_json reads them.
ghost use Rattle.std.specs.Prelude.{ℕ, ◌≡◌, ◌==◌, ◌<◌, ◌≤◌, length, slice_index, IsTrue, IfSome, Some, true, false, is_some, option_map};
ghost use Rattle.serde_json.specs.Data.{unsigned};
ghost use Rattle.serde_json.specs.Read.{number_of, number_from, float_of};
ghost use Rattle.serde_json.specs.View.{number_view};

use fast_float::{Numeral, parse_u64};
use serde_json::Number;

// A numeral without an exponent that has no more bytes is below ten to the power of so many, which a float holds.
const SHORT: usize = 300;

fn has_minus(bytes: &[u8]) -> bool
    ensures value { result ≡ (slice_index bytes.now 0 == 45) }
    ensures some { IsTrue result → 0 < length bytes.now }
{
    !bytes.is_empty() && bytes[0] == b'-'
}

fn nearest(negative: bool, numeral: &Numeral<'_>) -> Option<Number>
    ensures { option_map number_view result ≡ float_of negative numeral.now }
{
    Number::from_f64(numeral.to_float::<f64>(negative))
}

fn without_minus(numeral: &Numeral<'_>) -> Option<Number>
    ensures { option_map number_view result ≡ number_from false numeral.now }
{
    match numeral.to_u64() {
        Some(n) => Some(Number::from(n)),
        None => nearest(false, numeral),
    }
}

fn with_minus(numeral: &Numeral<'_>) -> Option<Number>
    ensures { option_map number_view result ≡ number_from true numeral.now }
{
    match numeral.to_i64(true) {
        Some(n) if n < 0 => Some(Number::from(n)),
        _ => nearest(true, numeral),
    }
}

// Reads any numeral.
#[inline(never)]
fn scanned(bytes: &[u8]) -> Option<Number>
    ensures { option_map number_view result ≡ number_of bytes.now }
{
    if has_minus(bytes) {
        with_minus(&Numeral::scan(&bytes[1..]))
    } else {
        without_minus(&Numeral::scan(bytes))
    }
}

// The number of digits alone, where it fits 64 bits: most numerals of a line are such.
fn digits_alone(bytes: &[u8]) -> Option<u64>
    ensures { IfSome result (λ n. number_of bytes.now ≡ Some (unsigned n)) }
{
    if bytes.is_empty() || bytes[0] == b'+' {
        return None;
    }
    match parse_u64(bytes) {
        Ok(n) => Some(n),
        Err(_) => None,
    }
}

/// The number that a numeral of JSON writes: an integer of 64 bits, or else a float; none where it is too large for one.
pub fn number_of(text: &str) -> Option<Number>
    ensures { option_map number_view result ≡ number_of text.now }
{
    let bytes = text.as_bytes();
    match digits_alone(bytes) {
        Some(n) => Some(Number::from(n)),
        None => scanned(bytes),
    }
}

// Whether no byte is above a `9`, as the `e` of an exponent is.
fn has_no_exponent(bytes: &[u8]) -> bool
    ensures { IsTrue result → (i : ℕ) → i < length bytes.now → slice_index bytes.now i ≤ 57 }
{
    for byte in bytes {
        if *byte > b'9' {
            return false;
        }
    }
    true
}

// Whether it is too short to be too large.
fn is_short(bytes: &[u8]) -> bool
    ensures { IsTrue result → is_some (number_of bytes.now) ≡ true }
{
    bytes.len() <= SHORT && has_no_exponent(bytes)
}

/// Whether a numeral of JSON has a number: it isn't too large for a float. Only a long one, or one with an exponent, is read for it.
pub fn has_number(text: &str) -> bool
    ensures { result ≡ is_some (number_of text.now) }
{
    is_short(text.as_bytes()) || number_of(text).is_some()
}
