ghost use Rattle.std.specs.Prelude.{◌≡◌, IsTrue, ◌↔◌};
ghost use Rattle.m3_model.specs.Members.{IsIn};
ghost use Rattle.m3_model.specs.Tags.{MatcherHolds};
ghost use Rattle.m3_model.specs.declared.point.Matcher.{Matcher};

use m3_model::{Matcher, Seq, Text};

// Whether the tag has this name and this value.
fn is_tag(tag: &(Text, Text), name: &Text, value: &Text) -> bool
    ensures { IsTrue result ↔ (tag.now ≡ (name.now, value.now)) }
{
    tag.0.equals(name.as_str()) && tag.1.equals(value.as_str())
}

// Whether the tags have this very tag.
fn has_tag(tags: &[(Text, Text)], name: &Text, value: &Text) -> bool
    ensures { IsTrue result ↔ IsIn tags.now (name.now, value.now) }
{
    for tag in tags {
        if is_tag(tag, name, value) {
            return true;
        }
    }
    false
}

// Whether the tags meet the matcher.
fn meets(tags: &[(Text, Text)], matcher: &Matcher) -> bool
    ensures { IsTrue result ↔ MatcherHolds tags.now matcher.now }
{
    has_tag(tags, &matcher.name, &matcher.value) == matcher.equal
}

/// Whether every matcher holds for a series with these tags. One of equality holds where the tags have that name with
/// that value, and the other kind where they don't, so also where the name isn't there. Takes no memory.
///
/// See M3DB's page "Series ID and tags".
pub fn holds(tags: &Seq<(Text, Text)>, wanted: &Seq<Matcher>) -> bool
    ensures { IsTrue result ↔ ((m : Matcher) → IsIn wanted.now m → MatcherHolds tags.now m) }
{
    for matcher in wanted.as_slice() {
        if !meets(tags.as_slice(), matcher) {
            return false;
        }
    }
    true
}
