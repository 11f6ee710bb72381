ghost use Rattle.std.specs.Prelude.{◌≡◌, ℕ, ◌<◌, List, IfOk, OnOk, IfSome, MatchOption, ◌↔◌, ◌⊎◌};
ghost use Rattle.m3_model.specs.Ascends.{Ascends};
ghost use Rattle.m3_model.specs.Members.{IsIn};
ghost use Rattle.m3_model.specs.Tags.{IsBelow};
ghost use Rattle.tag_index.specs.Listed.{IsAt, HasTagAt};
ghost use Rattle.held_points.specs.Matched.{HasNoEqual, AreCandidates, MeetsUnequal, IsMatchedBy};

use crate::matching::meets_unequal;
use m3_model::{Duplicate, Matcher, Memory, Seq, Text};
use std::alloc::Global;
use std::collections::BTreeSet;
use tag_index::Index;
use tag_query::both;

// The ordinals of the series with the matcher's tag, of those that were found before if any matcher came before.
fn narrowed(
    alloc: Global,
    index: &Index,
    found: Option<Seq<u32>>,
    matcher: &Matcher,
) -> Result<Seq<u32>, Memory>
    requires { IfSome found (Ascends ◌<◌) }
    ensures ascends { IfOk result (Ascends ◌<◌) }
    ensures exact { IfOk result (λ ordinals. (o : ℕ) → IsIn ordinals o ↔ (IfSome found (λ before. IsIn before o) × HasTagAt index.now matcher.now.name matcher.now.value o)) }
{
    let posting = index.posting(matcher.name.as_str(), matcher.value.as_str())?;
    match found {
        Some(before) => both(alloc, before.as_slice(), posting.as_slice()),
        None => Ok(posting),
    }
}

// The ordinals of the series for which every matcher of equality holds, ascending; none where no matcher is of equality.
// Costs time in proportion to the postings of those matchers.
pub(crate) fn candidates(
    alloc: Global,
    index: &Index,
    wanted: &[Matcher],
) -> Result<Option<Seq<u32>>, Memory>
    ensures { IfOk result (λ found. MatchOption found (HasNoEqual wanted.now) (AreCandidates index.now wanted.now)) }
{
    let mut found = None;
    for matcher in wanted {
        if matcher.equal {
            found = Some(narrowed(alloc, index, found, matcher)?);
        }
    }
    Ok(found)
}

// Adds the identifier of the ordinal, unless a matcher of inequality doesn't hold for it.
fn add_name(
    alloc: Global,
    index: &Index,
    wanted: &[Matcher],
    ordinal: u32,
    ids: &mut BTreeSet<Text>,
) -> Result<(), Memory>
    ensures { OnOk result ((id : List ℕ) → IsIn ids.new.keys id ↔ (IsIn ids.old.keys id ⊎ (IsAt index.now ordinal id × MeetsUnequal wanted.now id))) }
{
    if let Some(id) = index.id(ordinal) {
        if meets_unequal(id.as_str(), wanted) {
            ids.insert(id.copy(alloc)?)?;
        }
    }
    Ok(())
}

// The identifiers of the set, ascending by bytes.
fn ascending(alloc: Global, ids: BTreeSet<Text>) -> Result<Seq<Text>, Memory>
    ensures ascend { IfOk result (Ascends IsBelow) }
    ensures all { IfOk result (λ listed. listed ≡ ids.keys) }
{
    let listed: Vec<Text> = ids.into_iter().collect(alloc)?;
    Ok(Seq::from_vec(listed))
}

// The identifiers of the ordinals for which every matcher of inequality holds, ascending by bytes.
pub(crate) fn names(
    alloc: Global,
    index: &Index,
    wanted: &[Matcher],
    ordinals: &[u32],
) -> Result<Seq<Text>, Memory>
    ensures ascend { IfOk result (Ascends IsBelow) }
    ensures exact { IfOk result (λ ids. (id : List ℕ) → IsIn ids id ↔ IsMatchedBy index.now wanted.now ordinals.now id) }
{
    let mut ids = BTreeSet::new(alloc);
    for ordinal in ordinals {
        add_name(alloc, index, wanted, *ordinal, &mut ids)?;
    }
    ascending(alloc, ids)
}
