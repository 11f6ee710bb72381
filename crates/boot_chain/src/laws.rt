//! What is so of claims.
ghost use Rattle.boot_chain.specs.Laws.{KeepsRest, InOrder, ClaimsApart};

/// A claim and what it leaves are the ranges that were asked for, each of them once, and both are in their order.
pub fn claims_part_what_was_asked()
    ensures apart { ClaimsApart }
    ensures order { InOrder }
{}

/// A claim of everything leaves nothing, and one of nothing leaves everything.
pub fn claims_of_all_or_nothing()
    ensures { KeepsRest }
{}
