ghost use Rattle.std.specs.Prelude.{◌≡◌, ◌≢◌, false, ℕ, ◌+◌, ◌<◌, ◌≤◌, ◌^◌, List, [], ◌∷◌, ◌++◌, length, IfOk, IfErr, OnOk, MatchOption, IsTrue, string_bytes, ◌==◌, if◌then◌else◌, ⊤};
ghost use Rattle.m3_model.specs.Tags.{IsBelow, is_tag_name, escaped, tag_text, IsSpelledBy};
ghost use Rattle.m3_model.specs.declared.limits.TheConstants.{MOST_TAGS};
ghost use Rattle.series_id.specs.Given.{wrong_at, IsAddedFault, IsLaterFault, SpellsTags, IsGivenFault};
ghost use Rattle.series_id.specs.declared.id_err.IdErr.TheVariants as errors;

use crate::bytes::{is_first_byte, name_len};
use crate::id_err::IdErr;
use m3_model::limits::{MOST_ID_BYTES, MOST_TAGS};
use m3_model::{Memory, Text};
use std::alloc::Global;
use std::cmp::Ordering;

// Adds a byte of a value as it is spelled.
fn push_byte(text: &mut Vec<u8>, byte: u8) -> Result<(), Memory>
    ensures { OnOk result (text.new.items ≡ text.old.items ++ escaped (byte ∷ [])) }
{
    if byte == b'"' || byte == b'\\' {
        text.push(b'\\')?;
    }
    text.push(byte)?;
    Ok(())
}

// Adds a value as it is spelled.
fn push_escaped(text: &mut Vec<u8>, value: &[u8]) -> Result<(), Memory>
    ensures { OnOk result (text.new.items ≡ text.old.items ++ escaped value.now) }
{
    for byte in value {
        push_byte(text, *byte)?;
    }
    Ok(())
}

// Adds a tag as it is spelled.
fn push_tag(text: &mut Vec<u8>, name: &[u8], value: &[u8]) -> Result<(), Memory>
    ensures { OnOk result (text.new.items ≡ text.old.items ++ tag_text (name.now, value.now)) }
{
    text.extend_from_slice(name)?;
    text.extend_from_slice(b"=\"")?;
    push_escaped(text, value)?;
    text.push(b'"')?;
    Ok(())
}

// The position of the first byte that no name has there, or the end.
fn wrong_at(name: &[u8]) -> usize
    ensures exact { result ≡ wrong_at name.now }
    ensures within { result ≤ length name.now }
{
    match name {
        [first, later @ ..] if is_first_byte(*first) => 1 + name_len(later),
        _ => 0,
    }
}

// The position of the first byte that keeps the text from being a tag's name.
fn wrong_byte(name: &[u8]) -> Option<usize>
    ensures { MatchOption result (IsTrue (is_tag_name name.now)) (λ at. (is_tag_name name.now ≡ false) × (at ≡ wrong_at name.now) × (at ≤ length name.now)) }
{
    let at = wrong_at(name);
    if name.len() > 0 && at == name.len() {
        None
    } else {
        Some(at)
    }
}

// The fault of a name behind `number` tags and `at` bytes, after the name `before`.
fn added_fault(number: usize, before: &[u8], at: usize, name: &[u8]) -> Option<IdErr>
    requires few { number ≤ MOST_TAGS }
    requires fits { at + length name.now < 2 ^ 64 }
    ensures { MatchOption result ((number < MOST_TAGS) × IsTrue (is_tag_name name.now) × IsBelow before.now name.now) (IsAddedFault number before.now at name.now) }
{
    if number == MOST_TAGS {
        return Some(IdErr::Long);
    }
    if let Some(wrong) = wrong_byte(name) {
        return Some(IdErr::Name { at: at + wrong });
    }
    match name.cmp(before) {
        Ordering::Less => Some(IdErr::Order),
        Ordering::Equal => Some(IdErr::Repeat),
        Ordering::Greater => None,
    }
}

// The fault that was found before, or that of the name.
fn later_fault(
    fault: Option<IdErr>,
    number: usize,
    before: &[u8],
    at: usize,
    name: &[u8],
) -> Option<IdErr>
    requires few { MatchOption fault (number ≤ MOST_TAGS) (λ _. ⊤) }
    requires fits { at + length name.now < 2 ^ 64 }
    ensures { IsLaterFault number before.now at name.now fault result }
{
    match fault {
        Some(e) => Some(e),
        None => added_fault(number, before, at, name),
    }
}

// What stands before the tag of this number, from 0.
fn mark_before(number: usize) -> u8
    ensures { result ≡ (if number == 0 then 123 else 44) }
{
    if number == 0 { b'{' } else { b',' }
}

// The text of the tags, and the first fault of their names.
fn spell(alloc: Global, tags: &[(Text, Text)]) -> Result<(Vec<u8>, Option<IdErr>), Memory>
    ensures { IfOk result (λ outcome. SpellsTags tags.now outcome.0.items outcome.1) }
{
    let mut text = Vec::new(alloc);
    let mut fault = None;
    let mut before: &[u8] = &[];
    for (number, tag) in tags.iter().enumerate() {
        let name = tag.0.as_str().as_bytes();
        let value = tag.1.as_str().as_bytes();
        text.push(mark_before(number))?;
        let at = text.len();
        push_tag(&mut text, name, value)?;
        fault = later_fault(fault, number, before, at, name);
        before = name;
    }
    text.push(b'}')?;
    Ok((text, fault))
}

// The text that these tags spell.
pub(crate) fn spelled(alloc: Global, tags: &[(Text, Text)]) -> Result<String, IdErr>
    ensures ok { IfOk result (λ text. IsSpelledBy (string_bytes text) tags.now) }
    ensures fault { IfErr result (λ e. e ≢ errors.Memory → IsGivenFault tags.now e) }
    ensures refused { IfErr result (λ e. e ≢ errors.Memory → (id : List ℕ) → ¬ IsSpelledBy id tags.now) }
{
    if tags.is_empty() {
        return Err(IdErr::Name { at: 1 });
    }
    let (text, fault) = spell(alloc, tags)?;
    if text.len() > MOST_ID_BYTES {
        return Err(IdErr::Long);
    }
    match fault {
        Some(e) => Err(e),
        None => Ok(String::from_utf8(text).unwrap()),
    }
}
