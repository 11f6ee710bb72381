//! Nodes that don't own a shard: not yet, or not any more.
ghost use Rattle.std.specs.Prelude.{List, [], ◌∷◌, ◌++◌, Bool, true, false};
ghost use Rattle.m3_model.specs.declared.reason.Reason.TheVariants as reason;
ghost use Rattle.transcripts.specs.Caused.{Caused};
ghost use Rattle.transcripts.specs.Faults.{Fault};
ghost use Rattle.model_laws.specs.Building.{life_of, unmet, by_each, place_of_two, two_made};
ghost use Rattle.model_laws.specs.Uncaused.{write_answered};
ghost use Rattle.move_laws.specs.Moving.{a_to_b, on_b, a_joins, b_drained, b_joins, moved_to_a, coming_back, coming_back_uncovered, came_back, MayRefuseAfter, MayRefuseBehind, MayRefuseBeside};

/// A member of the only placement doesn't own its shard.
pub fn notowned_in_one_placement()
    ensures { (tells : Bool) → (faults : List Fault) → ¬ Caused tells (life_of (write_answered (unmet 0 (by_each reason.NotOwned)))) faults }
{}

/// A node doesn't own a shard that a printed placement took away, also at the version at which it had it, and where it is
/// taken away beside the call. While its move goes on it does.
pub fn shard_taken_away()
    ensures away { (tells : Bool) → MayRefuseAfter tells [] moved_to_a place_of_two 1 reason.NotOwned }
    ensures beside { (tells : Bool) → MayRefuseBeside tells [] (two_made ++ b_drained ∷ []) (a_joins ∷ []) place_of_two 1 reason.NotOwned }
    ensures leaving { (tells : Bool) → (faults : List Fault) → ¬ MayRefuseAfter tells faults (two_made ++ b_drained ∷ []) place_of_two 1 reason.NotOwned }
{}

/// A node doesn't own a shard at a version below the one that gave it the shard.
pub fn tenure_above_version()
    ensures joining { (tells : Bool) → MayRefuseAfter tells [] (two_made ++ b_drained ∷ []) place_of_two 0 reason.NotOwned }
    ensures returned { (tells : Bool) → MayRefuseAfter tells [] came_back place_of_two 1 reason.NotOwned }
{}

/// A node doesn't own a shard that a line gave it anew, until a bootstrap that covers it is answered ok: not one before, of
/// another shard or of another node. Where disks don't tell, it may not own it also then.
pub fn shard_given_anew()
    ensures given { (tells : Bool) → MayRefuseAfter tells [] coming_back a_to_b 1 reason.NotOwned }
    ensures uncovered { (tells : Bool) → MayRefuseAfter tells [] coming_back_uncovered a_to_b 1 reason.NotOwned }
    ensures joined { (faults : List Fault) → ¬ MayRefuseAfter true faults came_back on_b 1 reason.NotOwned }
    ensures untold { MayRefuseAfter false [] came_back on_b 1 reason.NotOwned }
{}

/// A bootstrap earlier in the same list counts, and one in another list of the line needn't.
pub fn shard_given_anew_beside()
    ensures earlier { (faults : List Fault) → ¬ MayRefuseBehind true faults coming_back (b_joins ∷ []) on_b 1 reason.NotOwned }
    ensures beside { (tells : Bool) → MayRefuseBeside tells [] coming_back (b_joins ∷ []) a_to_b 1 reason.NotOwned }
{}
