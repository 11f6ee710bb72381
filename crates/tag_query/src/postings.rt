ghost use Rattle.std.specs.Prelude.{◌≡◌, ℕ, ◌<◌, ◌↔◌, true, false, IfOk};
ghost use Rattle.m3_model.specs.Ascends.{Ascends};
ghost use Rattle.m3_model.specs.Members.{IsIn};
ghost use Rattle.tag_query.specs.Lists.{is_first, not_below, sifted};

use m3_model::{Memory, Seq};
use std::alloc::Global;

// The list from the first element on that isn't below `low`.
fn not_below(list: &[u32], low: u32) -> &[u32]
    ensures { result.now ≡ not_below low list.now }
{
    let mut rest = list;
    while let [first, later @ ..] = rest {
        if low <= *first {
            break;
        }
        rest = later;
    }
    rest
}

// Whether the list begins with `ordinal`.
fn is_first(list: &[u32], ordinal: u32) -> bool
    ensures { result ≡ is_first list.now ordinal }
{
    match list {
        [first, ..] => *first == ordinal,
        [] => false,
    }
}

// The elements of `a` that are in `b`, or those that aren't, in one pass over both.
fn sifted(alloc: Global, a: &[u32], b: &[u32], wanted: bool) -> Result<Vec<u32>, Memory>
    requires a_ascends { Ascends ◌<◌ a.now }
    requires b_ascends { Ascends ◌<◌ b.now }
    ensures { IfOk result (λ v. v.items ≡ sifted wanted a.now b.now) }
{
    let mut kept = Vec::new(alloc);
    let mut rest = b;
    for x in a {
        rest = not_below(rest, *x);
        if is_first(rest, *x) == wanted {
            kept.push(*x)?;
        }
    }
    Ok(kept)
}

/// The ordinals that both lists have, ascending strictly. Costs time in proportion to the two lengths together.
pub fn both(alloc: Global, a: &[u32], b: &[u32]) -> Result<Seq<u32>, Memory>
    requires a_ascends { Ascends ◌<◌ a.now }
    requires b_ascends { Ascends ◌<◌ b.now }
    ensures ascends { IfOk result (Ascends ◌<◌) }
    ensures exact { IfOk result (λ ordinals. (x : ℕ) → IsIn ordinals x ↔ (IsIn a.now x × IsIn b.now x)) }
{
    let kept = sifted(alloc, a, b, true)?;
    Ok(Seq::from_vec(kept))
}

/// The ordinals that `a` has and `b` hasn't, ascending strictly. Costs time in proportion to the two lengths together.
pub fn minus(alloc: Global, a: &[u32], b: &[u32]) -> Result<Seq<u32>, Memory>
    requires a_ascends { Ascends ◌<◌ a.now }
    requires b_ascends { Ascends ◌<◌ b.now }
    ensures ascends { IfOk result (Ascends ◌<◌) }
    ensures exact { IfOk result (λ ordinals. (x : ℕ) → IsIn ordinals x ↔ (IsIn a.now x × ¬ IsIn b.now x)) }
{
    let kept = sifted(alloc, a, b, false)?;
    Ok(Seq::from_vec(kept))
}
