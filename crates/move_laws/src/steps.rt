//! Lines that make a placement: each answers what the planning rules lead to.
ghost use Rattle.std.specs.Prelude.{◌+◌, ℕ, List, [], ◌∷◌, Bool, Some, None, true, codes};
ghost use Rattle.m3_model.specs.declared.answer.Answer.TheVariants as answer;
ghost use Rattle.m3_model.specs.declared.placement.Placement.{Placement};
ghost use Rattle.placement_core.specs.Lawful.{IsLawful};
ghost use Rattle.transcripts.specs.Caused.{Caused};
ghost use Rattle.transcripts.specs.Faults.{Fault};
ghost use Rattle.model_laws.specs.Building.{place_of_two};
ghost use Rattle.move_laws.specs.Planned.{CancelIsRefused, a_drained, add_answered, c_takes_first, c_takes_none, c_takes_second, drain_answered, init_answered, remove_answered, untaken_of};
ghost use Rattle.move_laws.specs.Steps.{LedIsPrinted, RefusalsAgree, RefusedIsAnswered};

/// What the turns before an `add`, `drain`, `cancel`, `remove` or `replace` refuse it for is exactly what its names and the limits
/// refuse it for, where so many versions are kept as there are from the first placement's to the current one's.
pub fn step_refusals_agree()
    ensures { RefusalsAgree }
{}

/// In a life that is caused such a line, over a lawful placement, prints the one placement that the planning rules lead to, with
/// its version, where they lead to one, and is else refused with the one refusal that is due. Only memory, or room for events,
/// may be wanted in place of either, and of a slot that the placement gives its first replica the disk may not be taken.
pub fn steps_are_planned()
    ensures led { (tells : Bool) → LedIsPrinted tells }
    ensures refused { (tells : Bool) → RefusedIsAnswered tells }
{}

/// An added node takes the first shard of the node that has two more: not another one, though that placement is lawful too,
/// nor none. The version that is told is the printed placement's.
pub fn added_node_takes_first()
    ensures first { Caused true (add_answered (answer.Placed c_takes_first 5)) [] }
    ensures lawful { IsLawful c_takes_second }
    ensures second { (faults : List Fault) → ¬ Caused true (add_answered (answer.Placed c_takes_second 5)) faults }
    ensures none { (faults : List Fault) → ¬ Caused true (add_answered (answer.Placed c_takes_none 5)) faults }
    ensures told { (faults : List Fault) → ¬ Caused true (add_answered (answer.Placed c_takes_first 4)) faults }
{}

/// The shard of a drained node moves to the only other node: its group is left, no move is in the way, few versions are kept, and
/// the placement before isn't printed again.
pub fn drained_node_gives()
    ensures moves { Caused true (drain_answered (answer.Placed a_drained 2)) [] }
    ensures group { (faults : List Fault) → ¬ Caused true (drain_answered (answer.Group 0)) faults }
    ensures busy { (faults : List Fault) → ¬ Caused true (drain_answered (answer.Busy (codes "b") 0)) faults }
    ensures limit { (faults : List Fault) → ¬ Caused true (drain_answered (answer.Limit 1024)) faults }
    ensures old { (faults : List Fault) → ¬ Caused true (drain_answered (answer.Placed place_of_two 1)) faults }
{}

/// Where the disk of the slot that the shard moves to can't be taken the drain names it; that of the slot which has the shard
/// isn't taken.
pub fn disk_of_new_slot()
    ensures taking { Caused true (drain_answered (answer.Disk (codes "b") 0)) (untaken_of 1 ∷ []) }
    ensures there { (faults : List Fault) → ¬ Caused true (drain_answered (answer.Disk (codes "a") 0)) faults }
{}

/// A node that has a shard isn't removed: it is named, with its first shard and no other.
pub fn removed_node_has_none()
    ensures busy { Caused true (remove_answered (answer.Busy (codes "a") 0)) [] }
    ensures shard { (faults : List Fault) → ¬ Caused true (remove_answered (answer.Busy (codes "a") 1)) faults }
    ensures node { (faults : List Fault) → ¬ Caused true (remove_answered (answer.Busy (codes "b") 0)) faults }
    ensures removed { (faults : List Fault) → (next : Placement) → (version : ℕ) → ¬ Caused true (remove_answered (answer.Placed next version)) faults }
{}

/// As many as 1,024 versions are kept, from that of the first placement of the run, also of one that found it, however often
/// one of them was printed: the limit isn't reached one early, nor one late.
pub fn versions_to_the_last()
    ensures last { (first : ℕ) → CancelIsRefused first (first + 1022) None }
    ensures none { (first : ℕ) → CancelIsRefused first (first + 1023) (Some (answer.Limit 1024)) }
{}

/// An `init` finds too few groups for its first shard where there are fewer than replicas, and only there.
pub fn first_groups()
    ensures few { Caused true (init_answered 3 1 (answer.Group 0)) [] }
    ensures enough { (faults : List Fault) → ¬ Caused true (init_answered 1 2 (answer.Group 0)) faults }
    ensures later { (faults : List Fault) → ¬ Caused true (init_answered 3 2 (answer.Group 1)) faults }
{}
