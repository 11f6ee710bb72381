//! What is so of the pages of one list, each cut with the key from which the one before goes on.
ghost use Rattle.page_cut.specs.Laws.{HoldWhole, TheyEnd, LimitsPages, FillsPages};

/// Such pages hold the list whole, in its order and each point once.
pub fn pages_hold_the_list()
    ensures { HoldWhole }
{}

/// There are such pages of each list, so a stream of them ends.
pub fn pages_end()
    ensures { TheyEnd }
{}

/// No page has more points than its limit, and one that isn't the last has as many.
pub fn pages_are_full()
    ensures limited { LimitsPages }
    ensures filled { FillsPages }
{}
