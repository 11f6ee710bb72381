//! Placements by their versions: none goes back, and none is used that was never printed.
ghost use Rattle.std.specs.Prelude.{◌≡◌, List, [], ◌∷◌, Some, None, pos, true};
ghost use Rattle.transcripts.specs.Caused.{Caused};
ghost use Rattle.transcripts.specs.Faults.{Fault};
ghost use Rattle.transcripts.specs.Placements.{placement_after};
ghost use Rattle.model_laws.specs.Building.{life_of, at_moment, acks};
ghost use Rattle.fault_laws.specs.Versions.{at_version, reopened, c_left, waits_from_start, waits_after_boot, prints, write_at, two_on};

/// A bootstrap leaves the placement that stands, and says its version: not an earlier one, and none that nothing printed.
pub fn placement_goes_back()
    ensures stays { Caused true (reopened (c_left 2 2 ∷ [])) [] }
    ensures back { (faults : List Fault) → ¬ Caused true (reopened (c_left 1 1 ∷ [])) faults }
    ensures onward { (faults : List Fault) → ¬ Caused true (reopened (c_left 3 3 ∷ [])) faults }
    ensures told { (faults : List Fault) → ¬ Caused true (reopened (c_left 2 1 ∷ [])) faults }
{}

/// Of two placements that were printed the one with the greater version stands, whichever was printed first.
pub fn newest_stands()
    ensures up { placement_after None (prints 3 ∷ prints 4 ∷ []) ≡ Some (at_version 4) }
    ensures down { placement_after None (prints 4 ∷ prints 3 ∷ []) ≡ Some (at_version 4) }
    ensures start { placement_after (Some (at_version 5)) (prints 4 ∷ prints 3 ∷ []) ≡ Some (at_version 5) }
{}

/// A call uses a version that was printed; one that was never printed is unknown.
pub fn unprinted_version()
    ensures printed { Caused true (life_of (at_moment 100 (write_at 1 100 (pos 5)) (acks (0 ∷ 1 ∷ 2 ∷ [])))) [] }
    ensures unprinted { (faults : List Fault) → ¬ Caused true (life_of (at_moment 100 (write_at 7 100 (pos 5)) (acks (0 ∷ 1 ∷ 2 ∷ [])))) faults }
{}

/// A replica that was a member when the run opened waits for a bootstrap, and no longer after one.
pub fn waits_when_reopened()
    ensures opened { Caused true waits_from_start [] }
    ensures booted { (faults : List Fault) → ¬ Caused true waits_after_boot faults }
{}

/// The first placement gives each shard to the least loaded node, by name: not both to one, and not the later name first.
pub fn not_least_loaded()
    ensures least { Caused true (life_of (two_on 0 1)) [] }
    ensures both { (faults : List Fault) → ¬ Caused true (life_of (two_on 0 0)) faults }
    ensures later_name { (faults : List Fault) → ¬ Caused true (life_of (two_on 1 0)) faults }
{}
