//! What is so of each lawful placement and of each step.
ghost use Rattle.placement_core.specs.Lawful.{IsLawful};
ghost use Rattle.placement_core.specs.Example.{example};
ghost use Rattle.placement_core.specs.Changes.{CountedAreAvailable, AsManyHolders, DistinctHolders, AsManyFormer, CountedHold, MovesOneReplica, CountedHoldAfter, KeepsShards, KeepsLawful, HasOneDoneList};

/// The nodes that count are those with an Available assignment.
pub fn counted_are_available()
    ensures { CountedAreAvailable }
{}

/// A shard's points are held by `rf` different nodes, whether it moves or not, and the nodes that count are among them.
pub fn as_many_holders()
    ensures many { AsManyHolders }
    ensures distinct { DistinctHolders }
    ensures former { AsManyFormer }
    ensures counted { CountedHold }
{}

/// A step moves at most one replica of a shard.
pub fn step_moves_one_replica()
    ensures moves { MovesOneReplica }
    ensures counted { CountedHoldAfter }
{}

/// A step keeps the rules of a shard's replicas. That nodes are listed, named and in different groups is the
/// planner's part: a step says nothing of it.
pub fn step_keeps_rules()
    ensures shards { KeepsShards }
    ensures lawful { KeepsLawful }
{}

/// A step has one done list: which moves it ends follows from the two placements.
pub fn step_has_one_done_list()
    ensures { HasOneDoneList }
{}

/// There are lawful placements: one with a steady shard and a moving one.
pub fn small_placement_is_lawful()
    ensures { IsLawful example }
{}
