//! What a bootstrap prints: the shards that turned available by it, and the placement that it leaves.
ghost use Rattle.std.specs.Prelude.{ℕ, List, [], ◌∷◌, Some, None, true, codes};
ghost use Rattle.m3_model.specs.declared.answer.Answer.TheVariants as answer;
ghost use Rattle.transcripts.specs.Caused.{Caused};
ghost use Rattle.transcripts.specs.Faults.{Fault};
ghost use Rattle.placement_plan.specs.First.{first_instances};
ghost use Rattle.model_laws.specs.Building.{life_of, nodes, place, begun};
ghost use Rattle.fault_laws.specs.Faulty.{bootstrap_c};
ghost use Rattle.move_laws.specs.Moving.{MayWaitAfter, both_joined, both_moving, both_on_a, first_on_a, b_to_a, on_a, a_took, a_joined, both_print, bootstrap, reopened_moving};

/// A bootstrap that ends a move prints its shard, and the next placement; one that ends none prints the placement that stands.
pub fn bootstrap_prints_moves()
    ensures ended { Caused true (reopened_moving (a_joined ∷ [])) [] }
    ensures passed_over { Caused true (reopened_moving (bootstrap (codes "a") None (answer.Available [] b_to_a 2) ∷ [])) [] }
    ensures of_shard { Caused true (reopened_moving (bootstrap (codes "a") (Some 1) a_took ∷ [])) [] }
{}

/// A bootstrap that ends two moves prints both shards, by number; one of one shard ends its move alone.
pub fn bootstrap_prints_two_moves()
    ensures both { Caused true (both_moving None ((0, 1 ∷ []) ∷ (1, 1 ∷ []) ∷ []) both_on_a) [] }
    ensures first { Caused true (both_moving (Some 0) ((0, 1 ∷ []) ∷ []) first_on_a) [] }
    ensures order { (faults : List Fault) → ¬ Caused true (both_moving None ((1, 1 ∷ []) ∷ (0, 1 ∷ []) ∷ []) both_on_a) faults }
    ensures left_out { (faults : List Fault) → ¬ Caused true (both_moving None ((0, 1 ∷ []) ∷ []) both_on_a) faults }
{}

/// A bootstrap prints a shard that it doesn't cover, or ends the move to another node.
pub fn bootstrap_of_another_shard()
    ensures shard { (faults : List Fault) → ¬ Caused true (reopened_moving (bootstrap (codes "a") (Some 0) a_took ∷ [])) faults }
    ensures node { (faults : List Fault) → ¬ Caused true (reopened_moving (bootstrap (codes "b") None a_took ∷ [])) faults }
{}

/// A bootstrap prints a shard that was available already: of a cluster in which nothing moves, or beside one that moves.
pub fn available_shard_printed()
    ensures still { (faults : List Fault) → (peers : List ℕ) → ¬ Caused true (life_of (begun 100 (bootstrap_c (answer.Available ((0, peers) ∷ []) place 1) ∷ []))) faults }
    ensures beside { (faults : List Fault) → (peers : List ℕ) → ¬ Caused true (reopened_moving (bootstrap (codes "a") None (answer.Available ((0, peers) ∷ (1, 1 ∷ []) ∷ []) on_a 3) ∷ [])) faults }
{}

/// A bootstrap prints a shard that isn't available in the placement that it prints, or none where one turned available, or
/// a placement of other nodes.
pub fn shard_not_turned()
    ensures stays { (faults : List Fault) → (peers : List ℕ) → ¬ Caused true (reopened_moving (bootstrap (codes "a") None (answer.Available ((1, peers) ∷ []) b_to_a 2) ∷ [])) faults }
    ensures names { (faults : List Fault) → ¬ Caused true (reopened_moving (bootstrap (codes "a") None (answer.Available ((1, 1 ∷ []) ∷ []) (record on_a { instances = first_instances nodes }) 3) ∷ [])) faults }
    ensures unprinted { (faults : List Fault) → ¬ Caused true (reopened_moving (bootstrap (codes "a") None (answer.Available [] on_a 3) ∷ [])) faults }
{}

/// A bootstrap prints a shard twice, or shards out of order, or one that isn't there.
pub fn shards_out_of_order()
    ensures twice { (faults : List Fault) → (peers others : List ℕ) → ¬ Caused true (reopened_moving (bootstrap (codes "a") None (answer.Available ((1, peers) ∷ (1, others) ∷ []) on_a 3) ∷ [])) faults }
    ensures order { (faults : List Fault) → (peers others : List ℕ) → ¬ Caused true (reopened_moving (bootstrap (codes "a") None (answer.Available ((1, peers) ∷ (0, others) ∷ []) on_a 3) ∷ [])) faults }
    ensures missing { (faults : List Fault) → (peers others : List ℕ) → ¬ Caused true (reopened_moving (bootstrap (codes "a") None (answer.Available ((1, peers) ∷ (2, others) ∷ []) on_a 3) ∷ [])) faults }
{}

/// Two bootstraps beside each other print a placement that neither of them made, each as the other's.
pub fn placement_of_nobody()
    ensures { (faults : List Fault) → ¬ Caused true (reopened_moving (both_print on_a ∷ [])) faults }
{}

/// A bootstrap ends the waiting of a replica that stays a member throughout its line, and not of one that leaves in it.
pub fn replica_that_left_waits()
    ensures left { MayWaitAfter both_joined }
    ensures stayed { ¬ MayWaitAfter (both_print b_to_a) }
{}
