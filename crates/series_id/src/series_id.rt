ghost use Rattle.std.specs.Prelude.{◌≡◌, ◌≢◌, ℕ, List, IfOk, IfErr, IsTrue, ◌↔◌};
ghost use Rattle.m3_model.specs.Members.{IsIn};
ghost use Rattle.m3_model.specs.Tags.{HasTags, IsSpelledBy};
ghost use Rattle.m3_model.specs.Identifiers.{IsIdentifier};
ghost use Rattle.series_id.specs.Faults.{IsFirstFault};
ghost use Rattle.series_id.specs.Given.{IsGivenFault};
ghost use Rattle.series_id.specs.declared.id_err.IdErr.TheVariants as errors;

use crate::id_err::IdErr;
use crate::read::{check, find, list};
use crate::spell::spelled;
use m3_model::{Memory, Seq, Text};
use std::alloc::Global;
use std::marker::Model;

/// The identifier of a series, which contracts see as its text.
#[derive(Debug, Drop)]
pub struct SeriesId {
    text: String,
}

impl Model for SeriesId {
    ghost use Rattle.std.specs.Prelude.{ℕ, List, string_bytes};

    ghost Value = { List ℕ };

    ghost view = { λ id. string_bytes id.text };
}

/// Whether the text is an identifier: text of 1 to 512 bytes that doesn't begin with `{`, or 1 to 32 tags with
/// ascending names, as `{dc="x",host="h1"}`. Takes no memory.
///
/// See M3DB's page "Series ID and tags".
pub fn valid(text: &str) -> bool
    ensures { IsTrue result ↔ IsIdentifier text.now }
{
    check(text.as_bytes()).is_ok()
}

/// Whether the identifier has the tag of this name and value. A text that is no identifier has no tags. Takes no memory.
pub fn has_tag(id: &str, name: &str, value: &str) -> bool
    ensures { (tags : List (List ℕ × List ℕ)) → HasTags id.now tags → (IsTrue result ↔ IsIn tags (name.now, value.now)) }
{
    match find(id.as_bytes(), name.as_bytes(), value.as_bytes()) {
        Ok(found) => found,
        Err(_) => false,
    }
}

/// The identifier that the text is; otherwise the text's first fault.
///
/// See M3DB's page "Series ID and tags".
pub fn parse(alloc: Global, text: &str) -> Result<SeriesId, IdErr>
    ensures ok { IfOk result (λ id. id ≡ text.now) }
    ensures grammar { IfOk result (λ _. IsIdentifier text.now) }
    ensures fault { IfErr result (λ e. e ≢ errors.Memory → IsFirstFault text.now e) }
    ensures refused { IfErr result (λ e. e ≢ errors.Memory → ¬ IsIdentifier text.now) }
{
    check(text.as_bytes())?;
    Ok(SeriesId {
        text: String::from_str(alloc, text)?,
    })
}

/// The identifier that these tags spell; otherwise the tags' first fault: `Long` where what they spell has more than 512
/// bytes, and else the first one from the left. `Name` tells the position of the faulty byte in the text that the tags would
/// spell, which is 1 where there are no tags.
///
/// See M3DB's page "Series ID and tags".
pub fn of_tags(alloc: Global, tags: &[(Text, Text)]) -> Result<SeriesId, IdErr>
    ensures ok { IfOk result (λ id. IsSpelledBy id tags.now) }
    ensures fault { IfErr result (λ e. e ≢ errors.Memory → IsGivenFault tags.now e) }
    ensures refused { IfErr result (λ e. e ≢ errors.Memory → (id : List ℕ) → ¬ IsSpelledBy id tags.now) }
{
    Ok(SeriesId {
        text: spelled(alloc, tags)?,
    })
}

impl SeriesId {
    /// The text of the identifier.
    pub fn text(&self) -> &str
        ensures { result.now ≡ self.now }
    {
        self.text.as_str()
    }

    /// Its tags, by ascending names. One without tags has none.
    pub fn tags(&self, alloc: Global) -> Result<Seq<(Text, Text)>, Memory>
        ensures { IfOk result (λ tags. HasTags self.now tags) }
    {
        match list(alloc, self.text.as_str().as_bytes()) {
            Ok(tags) => Ok(Seq::from_vec(tags)),
            Err(IdErr::Memory) => Err(Memory),
            Err(_) => Ok(Seq::new(alloc)),
        }
    }
}
