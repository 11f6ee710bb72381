ghost use Rattle.std.specs.Prelude.{ℕ, List, IsTrue, ◌↔◌};
ghost use Rattle.m3_model.specs.Members.{IsIn};
ghost use Rattle.m3_model.specs.Tags.{HasTags, MatcherHolds};
ghost use Rattle.m3_model.specs.declared.point.Series.{Series};
ghost use Rattle.held_points.specs.Matched.{IsMatched};
ghost use Rattle.volume_points.specs.Picked.{AreAscending, IsPicked};

use held_points::of_series_id::has_tag;
use m3_model::{Matcher, Pick, Seq, Series};

// Whether the matcher holds for the tags of the identifier.
fn meets(id: &str, matcher: &Matcher) -> bool
    ensures { (tags : List (List ℕ × List ℕ)) → HasTags id.now tags → (IsTrue result ↔ MatcherHolds tags matcher.now) }
{
    has_tag(id, matcher.name.as_str(), matcher.value.as_str()) == matcher.equal
}

// Whether every matcher holds for the tags of the identifier. Takes no memory.
fn is_matched(id: &str, wanted: &[Matcher]) -> bool
    ensures { IsTrue result ↔ IsMatched wanted.now id.now }
{
    for matcher in wanted {
        if !meets(id, matcher) {
            return false;
        }
    }
    true
}

// Whether the pick asks for the series of the identifier.
pub(crate) fn is_picked(id: &str, pick: &Pick) -> bool
    ensures { IsTrue result ↔ IsPicked pick.now id.now }
{
    match pick {
        Pick::One { id: asked, .. } => asked.equals(id),
        Pick::Match { wanted, .. } => is_matched(id, wanted.as_slice()),
    }
}

// The series that the pick asks for. Takes no memory.
pub(crate) fn picked(found: Seq<Series>, pick: &Pick) -> Seq<Series>
    ensures ascending { AreAscending found → AreAscending result }
    ensures exact { (s : Series) → IsIn result s ↔ (IsIn found s × IsPicked pick.now s.id) }
{
    let mut kept = found.into_vec();
    kept.retain(|series| is_picked(series.id.as_str(), pick));
    Seq::from_vec(kept)
}
