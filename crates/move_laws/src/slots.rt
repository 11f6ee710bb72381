//! Slots that had a replica, and those that have one.
ghost use Rattle.std.specs.Prelude.{List, [], ◌∷◌, ◌++◌, None, true, codes};
ghost use Rattle.m3_model.specs.declared.answer.Answer.TheVariants as answer;
ghost use Rattle.m3_model.specs.declared.reason.Damage.{Damage};
ghost use Rattle.m3_model.specs.declared.reason.Reason.TheVariants as reason;
ghost use Rattle.transcripts.specs.Caused.{Caused};
ghost use Rattle.transcripts.specs.Faults.{Fault};
ghost use Rattle.model_laws.specs.Building.{life_of, two_made};
ghost use Rattle.model_laws.specs.Messages.{stopped};
ghost use Rattle.move_laws.specs.Planned.{init_answered};
ghost use Rattle.move_laws.specs.Moving.{on_a, on_b, a_joined, bootstrap, restart, came_back, fails_at, moved_to_a, reopened_moving, MayRefuseAfter};

/// An `init`, a restart or a bootstrap fails at the disk of a slot that never had a replica: its shard is another node's.
pub fn disk_of_no_replica()
    ensures init { (faults : List Fault) → ¬ Caused true (init_answered 1 2 (answer.Disk (codes "a") 1)) faults }
    ensures restart { (faults : List Fault) → ¬ Caused true (life_of (two_made ++ stopped (codes "a") ∷ restart (codes "a") (answer.Disk (codes "a") 1) ∷ [])) faults }
    ensures bootstrap { (faults : List Fault) → ¬ Caused true (life_of (two_made ++ bootstrap (codes "a") None (answer.Disk (codes "a") 1) ∷ [])) faults }
{}

/// A restart may fail at the disk of a slot whose shard moved away, since it reaches each that had a replica. A bootstrap
/// reaches members alone, so it neither fails there nor finds damage.
pub fn disk_of_moved_shard()
    ensures restart { Caused true (reopened_moving (a_joined ∷ stopped (codes "b") ∷ restart (codes "b") (answer.Disk (codes "b") 1) ∷ [])) (fails_at 2 1 ∷ []) }
    ensures bootstrap { (faults : List Fault) → ¬ Caused true (reopened_moving (a_joined ∷ bootstrap (codes "b") None (answer.Disk (codes "b") 1) ∷ [])) faults }
    ensures damage { (faults : List Fault) → (damage : Damage) → ¬ Caused true (reopened_moving (a_joined ∷ bootstrap (codes "b") None (answer.Corrupt (codes "b") 1 damage) ∷ [])) faults }
{}

/// A fault closes the replica of a slot that had one by the end of its line, also where the shard moved away in that line
/// and came back since; a fault from before the slot had one closes none, and neither does one of
/// the node's other shard.
pub fn down_by_fault_before_move()
    ensures came_back { MayRefuseAfter true (fails_at 3 1 ∷ []) came_back on_b 1 reason.Down }
    ensures given { MayRefuseAfter true (fails_at 2 0 ∷ []) moved_to_a on_a 0 reason.Down }
    ensures before { ¬ MayRefuseAfter true (fails_at 1 0 ∷ []) moved_to_a on_a 0 reason.Down }
    ensures other_shard { ¬ MayRefuseAfter true (record (fails_at 3 1) { shard = 0 } ∷ []) came_back on_b 1 reason.Down }
{}
