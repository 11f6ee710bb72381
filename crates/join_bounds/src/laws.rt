//! A bootstrap adds few events, by how many writes were taken.
ghost use Rattle.join_bounds.specs.Bounds.{AreFew};
ghost use Rattle.told_joins.specs.Laws.{IsHeldUpLine, IsJoinLine, IsMissedLine, IsPartLine, IsUnmarkedLine};

/// Where the disks tell what they hold, and replicas first begin with what earlier runs sent, a stream has at most one page more
/// than keys were written: each page but the last ends with a key above those before it. So a bootstrap adds no more events
/// than a request may, whatever it is answered.
pub fn joins_are_few()
    ensures joined { AreFew IsJoinLine }
    ensures held_up { AreFew IsHeldUpLine }
    ensures part { AreFew IsPartLine }
    ensures missed { AreFew IsMissedLine }
    ensures unmarked { AreFew IsUnmarkedLine }
{}
