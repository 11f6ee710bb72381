ghost use Rattle.std.specs.Prelude.{◌≡◌, ◌≢◌, ℕ, ◌<◌, ◌≤◌, List, [], ◌∷◌, ◌++◌, length, IfOk, IfErr, OnOk, OnErr, IfSome, IsTrue, IsUtf8, MatchOption, ◌↔◌, ◌⊎◌};
ghost use Rattle.m3_model.specs.Members.{IsIn};
ghost use Rattle.m3_model.specs.Tags.{escaped, HasTags};
ghost use Rattle.m3_model.specs.Identifiers.{IsPlain, IsIdentifier};
ghost use Rattle.m3_model.specs.declared.limits.TheConstants.{MOST_ID_BYTES};
ghost use Rattle.series_id.specs.Faults.{IsFirstFault};
ghost use Rattle.series_id.specs.Positions.{StandsBefore};
ghost use Rattle.series_id.specs.declared.id_err.IdErr.TheVariants as errors;

use crate::id_err::IdErr;
use crate::position::{Position, Tag};
use crate::scan::next_tag;
use m3_model::limits::MOST_ID_BYTES;
use m3_model::{Memory, Text};
use std::alloc::Global;

// The position of the first tag, if the text begins with `{`.
fn first_position(text: &[u8]) -> Result<Option<Position<'_>>, IdErr>
    requires { IsUtf8 text.now }
    ensures within { OnOk result (length text.now ≤ MOST_ID_BYTES) }
    ensures ok { IfOk result (λ position. MatchOption position (IsPlain text.now) (StandsBefore text.now [])) }
    ensures fault { IfErr result (IsFirstFault text.now) }
    ensures refused { OnErr result (¬ IsIdentifier text.now) }
{
    if text.is_empty() {
        return Err(IdErr::Empty);
    }
    if text.len() > MOST_ID_BYTES {
        return Err(IdErr::Long);
    }
    match text {
        [b'{', rest @ ..] => Ok(Some(Position {
            rest,
            before: &[],
            at: 1,
            number: 0,
        })),
        _ => Ok(None),
    }
}

// Whether the text is an identifier.
pub(crate) fn check(text: &[u8]) -> Result<(), IdErr>
    requires { IsUtf8 text.now }
    ensures ok { OnOk result (IsIdentifier text.now) }
    ensures fault { IfErr result (IsFirstFault text.now) }
    ensures refused { OnErr result (¬ IsIdentifier text.now) }
{
    let mut position = first_position(text)?;
    while let Some(here) = position {
        position = next_tag(here)?.next;
    }
    Ok(())
}

// What follows a byte of a value at the text's head, as the byte is spelled.
fn after_byte(text: &[u8], byte: u8) -> Option<&[u8]>
    ensures { MatchOption result ((later : List ℕ) → text.now ≢ escaped (byte ∷ []) ++ later) (λ later. text.now ≡ escaped (byte ∷ []) ++ later.now) }
{
    let marked = byte == b'"' || byte == b'\\';
    match text {
        [b'\\', first, later @ ..] if marked && *first == byte => Some(later),
        [first, later @ ..] if !marked && *first == byte => Some(later),
        _ => None,
    }
}

// Whether this is how the value is spelled.
fn is_spelling(spelling: &[u8], value: &[u8]) -> bool
    ensures { IsTrue result ↔ (spelling.now ≡ escaped value.now) }
{
    let mut rest = spelling;
    for byte in value {
        match after_byte(rest, *byte) {
            Some(later) => rest = later,
            None => return false,
        }
    }
    rest.is_empty()
}

// Whether the tag has this name and this value.
fn is_tag(tag: Tag<'_>, name: &[u8], value: &[u8]) -> bool
    ensures { IsTrue result ↔ ((tag.entry.name.now ≡ name.now) × (tag.entry.spelling.now ≡ escaped value.now)) }
{
    tag.name == name && is_spelling(tag.spelling, value)
}

// Whether the tag stands in the identifier.
pub(crate) fn find(text: &[u8], name: &[u8], value: &[u8]) -> Result<bool, IdErr>
    requires { IsUtf8 text.now }
    ensures ok { IfOk result (λ found. (tags : List (List ℕ × List ℕ)) × HasTags text.now tags × (IsTrue found ↔ IsIn tags (name.now, value.now))) }
    ensures refused { OnErr result (¬ IsIdentifier text.now) }
{
    let mut found = false;
    let mut position = first_position(text)?;
    while let Some(here) = position {
        let tag = next_tag(here)?;
        found |= is_tag(tag, name, value);
        position = tag.next;
    }
    Ok(found)
}

// The first byte of the value that the text spells, and the spelling of the other ones.
fn split_byte(text: &[u8]) -> Option<(u8, &[u8])>
    ensures shorter { IfSome result (λ parts. length parts.1.now < length text.now) }
    ensures spelled { (value : List ℕ) → text.now ≡ escaped value → MatchOption result (value ≡ []) (λ parts. (later : List ℕ) × (value ≡ parts.0 ∷ later) × (parts.1.now ≡ escaped later)) }
{
    let (first, later) = text.split_first()?;
    if *first != b'\\' {
        return Some((*first, later));
    }
    let (byte, later) = later.split_first()?;
    Some((*byte, later))
}

// The value that is spelled so.
fn value_of(alloc: Global, spelling: &[u8]) -> Result<Vec<u8>, Memory>
    ensures { IfOk result (λ bytes. (value : List ℕ) → spelling.now ≡ escaped value → bytes.items ≡ value) }
{
    let mut bytes = Vec::new(alloc);
    let mut rest = spelling;
    while let Some((byte, later)) = split_byte(rest) {
        bytes.push(byte)?;
        rest = later;
    }
    Ok(bytes)
}

// The text of these bytes.
fn text_of(bytes: Vec<u8>) -> Text
    requires { IsUtf8 bytes.items }
    ensures { result ≡ bytes.items }
{
    Text::from_string(String::from_utf8(bytes).unwrap())
}

// The tags of the identifier.
pub(crate) fn list(alloc: Global, text: &[u8]) -> Result<Vec<(Text, Text)>, IdErr>
    requires { IsUtf8 text.now }
    ensures ok { IfOk result (λ tags. HasTags text.now tags.items) }
    ensures refused { IfErr result (λ e. (e ≡ errors.Memory) ⊎ (¬ IsIdentifier text.now)) }
{
    let mut tags = Vec::new(alloc);
    let mut position = first_position(text)?;
    while let Some(here) = position {
        let tag = next_tag(here)?;
        let name = text_of(Vec::from_slice(alloc, tag.name)?);
        let value = text_of(value_of(alloc, tag.spelling)?);
        tags.push((name, value))?;
        position = tag.next;
    }
    Ok(tags)
}
