//! What is so of each plan.
ghost use Rattle.placement_core.specs.Shards.{is_holder, is_staying};
ghost use Rattle.placement_plan.specs.Laws.{InitialIsLawful, AvailableIsLawful, CancelIsLawful, RemovalIsLawful, DrainIsLawful, ReplacementIsLawful, AdditionIsLawful, AvailableIsStep, CancelIsStep, RemovalIsStep, DrainIsStep, ReplacementIsStep, AdditionIsStep, AdditionEnds, OneJoins, GroupsDiffer};

/// Each plan is a placement: no shard has two moves, no two replicas of a shard are in one group, and nobody's limits are
/// passed.
pub fn plans_are_placements()
    ensures initial { InitialIsLawful }
    ensures available { AvailableIsLawful }
    ensures cancel { CancelIsLawful }
    ensures remove { RemovalIsLawful }
    ensures drain { DrainIsLawful }
    ensures replace { ReplacementIsLawful }
    ensures add { AdditionIsLawful }
{}

/// Each plan but the first placement is a step from the placement before it: its version is the next one.
pub fn plans_are_steps()
    ensures available { AvailableIsStep }
    ensures cancel { CancelIsStep }
    ensures remove { RemovalIsStep }
    ensures drain { DrainIsStep }
    ensures replace { ReplacementIsStep }
    ensures add { AdditionIsStep }
{}

/// An addition goes on until no node could give a shard.
pub fn addition_ends()
    ensures { AdditionEnds }
{}

/// A placement moves no shard to two nodes at once.
pub fn one_node_joins()
    ensures { OneJoins }
{}

/// No two replicas of a shard are in one isolation group: neither of those before its move, nor of those after it.
pub fn groups_differ()
    ensures before { GroupsDiffer is_holder }
    ensures after { GroupsDiffer is_staying }
{}
