ghost use Rattle.std.specs.Prelude.{◌≡◌, ℕ, List, false, IsTrue, ◌↔◌};
ghost use Rattle.m3_model.specs.Members.{IsIn};
ghost use Rattle.m3_model.specs.Reads.{IsOrdered};
ghost use Rattle.m3_model.specs.Tags.{HasTags};
ghost use Rattle.m3_model.specs.declared.point.Series.{Series};
ghost use Rattle.held_points.specs.Matched.{MeetsUnequal};

use m3_model::{Matcher, Seq, Series};
use series_id::has_tag;

// Whether the matcher is one of inequality that doesn't hold for the tags of the identifier.
fn rules_out(id: &str, matcher: &Matcher) -> bool
    ensures { (tags : List (List ℕ × List ℕ)) → HasTags id.now tags → (IsTrue result ↔ ((matcher.now.equal ≡ false) × IsIn tags (matcher.now.name, matcher.now.value))) }
{
    !matcher.equal && has_tag(id, matcher.name.as_str(), matcher.value.as_str())
}

// Whether every matcher of inequality holds for the tags of the identifier. Takes no memory.
pub(crate) fn meets_unequal(id: &str, wanted: &[Matcher]) -> bool
    ensures { IsTrue result ↔ MeetsUnequal wanted.now id.now }
{
    for matcher in wanted {
        if rules_out(id, matcher) {
            return false;
        }
    }
    true
}

// The series for which every matcher of inequality holds.
pub(crate) fn unequal(found: Seq<Series>, wanted: &[Matcher]) -> Seq<Series>
    ensures ordered { IsOrdered found → IsOrdered result }
    ensures exact { (s : Series) → IsIn result s ↔ (IsIn found s × MeetsUnequal wanted.now s.id) }
{
    let mut kept = found.into_vec();
    kept.retain(|series| meets_unequal(series.id.as_str(), wanted));
    Seq::from_vec(kept)
}
