//! Upkeep asks each replica, and a refusal of it has a cause; and `status` is of what stands.
ghost use Rattle.std.specs.Prelude.{ℕ, List, [], ◌∷◌, true};
ghost use Rattle.m3_model.specs.declared.reason.Reason.TheVariants as reason;
ghost use Rattle.transcripts.specs.Caused.{Caused};
ghost use Rattle.transcripts.specs.Faults.{Fault};
ghost use Rattle.model_laws.specs.Building.{life_of};
ghost use Rattle.fault_laws.specs.Faulty.{fails};
ghost use Rattle.fault_laws.specs.Upkeep.{idle_ticked, status_at, status_leaving, stopped_ticked, ticked};

/// A tick answers of all three nodes; it leaves none out, and answers of no other.
pub fn each_replica_ticks()
    ensures all { Caused true (life_of (ticked ((0, 0, 0) ∷ (1, 0, 4) ∷ (2, 0, 0) ∷ []) [])) [] }
    ensures left_out { (faults : List Fault) → ¬ Caused true (life_of (ticked ((0, 0, 0) ∷ (1, 0, 4) ∷ []) [])) faults }
    ensures other { (faults : List Fault) → ¬ Caused true (life_of (ticked ((0, 0, 0) ∷ (1, 0, 4) ∷ (2, 0, 0) ∷ (3, 0, 0) ∷ []) [])) faults }
{}

/// A node's disk fails in a tick by a fault of that very line; one that runs, and no fault closed, isn't closed.
pub fn refused_tick_has_cause()
    ensures failed { Caused true (life_of (ticked ((0, 0, 0) ∷ (1, 0, 4) ∷ []) ((2, 0, reason.Disk) ∷ []))) (fails 3 2 ∷ []) }
    ensures other_line { ¬ Caused true (life_of (ticked ((0, 0, 0) ∷ (1, 0, 4) ∷ []) ((2, 0, reason.Disk) ∷ []))) (fails 2 2 ∷ []) }
    ensures no_cut { (faults : List Fault) → ¬ Caused true (life_of (ticked ((0, 0, 0) ∷ (1, 0, 4) ∷ []) ((2, 0, reason.Cut) ∷ []))) faults }
{}

/// A stopped node refuses a tick as down, and does none.
pub fn stopped_node_ticks()
    ensures down { Caused true (life_of (stopped_ticked ((0, 0, 0) ∷ (1, 0, 4) ∷ []) ((2, 0, reason.Down) ∷ []))) [] }
    ensures done { (faults : List Fault) → ¬ Caused true (life_of (stopped_ticked ((0, 0, 0) ∷ (1, 0, 4) ∷ (2, 0, 0) ∷ []) [])) faults }
{}

/// A node that was restarted does no tick before a bootstrap of it was asked.
pub fn idle_node_ticks()
    ensures { (faults : List Fault) → ¬ Caused true (life_of (idle_ticked ((0, 0, 0) ∷ (1, 0, 4) ∷ (2, 0, 0) ∷ []) [])) faults }
{}

/// A `status` has the moment, the version and the states that stand.
pub fn status_is_of_now()
    ensures now { Caused true (life_of (status_at 100 1)) [] }
    ensures other_moment { (faults : List Fault) → ¬ Caused true (life_of (status_at 99 1)) faults }
    ensures other_version { (faults : List Fault) → ¬ Caused true (life_of (status_at 100 2)) faults }
    ensures other_state { (faults : List Fault) → ¬ Caused true (life_of status_leaving) faults }
{}
