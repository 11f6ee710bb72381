//! Fences that moves leave, where disks tell what they hold.
ghost use Rattle.std.specs.Prelude.{ℕ, ◌≤◌, ◌<◌, List, [], ◌∷◌, ◌++◌, Some, None, true, codes};
ghost use Rattle.m3_model.specs.declared.answer.Answer.TheVariants as answer;
ghost use Rattle.m3_model.specs.declared.placement.Placement.{Placement};
ghost use Rattle.m3_model.specs.declared.reason.Reason.TheVariants as reason;
ghost use Rattle.m3_model.specs.declared.rules.MetaState.{MetaState};
ghost use Rattle.transcripts.specs.Faults.{Fault};
ghost use Rattle.transcripts.specs.Moves.{IsFencedAbove, IsOfMove};
ghost use Rattle.transcripts.specs.Reasons.{MayRefuse};
ghost use Rattle.transcripts.specs.Record.{TurnPosition};
ghost use Rattle.model_laws.specs.Building.{place_of_two, two_made};
ghost use Rattle.move_laws.specs.Moving.{asked_after, asked_before, b_to_a, b_drained, a_joins, a_prints_move, a_refused, bootstrap, moved_to_a, call_at, MayRefuseAfter, MayRefuseBeside};

/// A move fences its shard from when its bootstrap is asked on, whatever is answered, also where it is asked beside the call.
pub fn fence_of_move()
    ensures asked { MayRefuseAfter true [] (two_made ++ b_drained ∷ a_refused ∷ []) place_of_two 1 (reason.Stale 2) }
    ensures ended { MayRefuseAfter true [] moved_to_a place_of_two 1 (reason.Stale 2) }
    ensures beside { MayRefuseBeside true [] (two_made ++ b_drained ∷ []) (a_joins ∷ []) place_of_two 1 (reason.Stale 2) }
{}

/// A fence isn't above the version that the call uses.
pub fn fence_not_above_version()
    ensures { (faults : List Fault) → (fence : ℕ) → fence ≤ 2 → ¬ MayRefuseAfter true faults (two_made ++ b_drained ∷ a_refused ∷ []) b_to_a 1 (reason.Stale fence) }
{}

/// A fence is above the version that stands.
pub fn fence_above_standing()
    ensures { (faults : List Fault) → (fence : ℕ) → 2 < fence → ¬ MayRefuseAfter true faults (two_made ++ b_drained ∷ a_refused ∷ []) place_of_two 1 (reason.Stale fence) }
{}

/// A fence is the version at which a move ended, and none began.
pub fn fence_of_no_move()
    ensures { (faults : List Fault) → ¬ MayRefuseAfter true faults moved_to_a place_of_two 1 (reason.Stale 3) }
{}

/// A fence is of a move whose bootstrap wasn't asked: no bootstrap was, or only that of the other node and that of another
/// shard, or one of the node before its move began or after it was cancelled.
pub fn fence_not_asked()
    ensures none { (faults : List Fault) → ¬ MayRefuseAfter true faults (two_made ++ b_drained ∷ []) place_of_two 1 (reason.Stale 2) }
    ensures early { (faults : List Fault) → ¬ MayRefuseAfter true faults asked_before place_of_two 1 (reason.Stale 2) }
    ensures cancelled { (faults : List Fault) → ¬ MayRefuseAfter true faults asked_after place_of_two 1 (reason.Stale 2) }
    ensures other { (faults : List Fault) → ¬ MayRefuseAfter true faults (two_made ++ b_drained ∷ bootstrap (codes "b") None answer.Memory ∷ bootstrap (codes "a") (Some 0) answer.Memory ∷ []) place_of_two 1 (reason.Stale 2) }
{}

/// A fence is of a move of another shard.
pub fn fence_of_another_shard()
    ensures { (faults : List Fault) → ¬ MayRefuse true faults None (call_at (two_made ++ b_drained ∷ a_refused ∷ []) place_of_two 0 (reason.Stale 2)) place_of_two 0 0 (reason.Stale 2) }
{}

/// A fence that an earlier run left is the cause of no refusal at a version from that which the run found on: such a fence is
/// always that of a move of this run.
pub fn left_fence_is_not_above()
    ensures { (state : MetaState) → (p : TurnPosition) → (used : Placement) → (shard fence : ℕ) → state.place.version ≤ used.version
        → IsFencedAbove (Some state) p used shard fence → IsOfMove (Some state) p shard fence }
{}

/// A fence is of a move that didn't go on when the call's line began, though a bootstrap beside the call prints a placement
/// with it.
pub fn fence_of_own_line()
    ensures { (faults : List Fault) → ¬ MayRefuseBeside true faults two_made (a_prints_move ∷ []) place_of_two 1 (reason.Stale 2) }
{}
