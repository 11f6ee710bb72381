//! What is so of the fates of each list.
ghost use Rattle.net_plan.specs.Laws.{FindsListed, DeliversOthers, ListsFound};

/// Each fate of a list is that of its message, a message that isn't listed is delivered, and one that isn't delivered is
/// listed.
pub fn fates_are_listed()
    ensures finds { FindsListed }
    ensures delivers { DeliversOthers }
    ensures lists { ListsFound }
{}
