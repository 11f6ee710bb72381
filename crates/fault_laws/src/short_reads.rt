//! Reads that are short of a majority: at which level, and for which reasons.
ghost use Rattle.std.specs.Prelude.{◌≡◌, ◌≢◌, ◌≤◌, ℕ, List, [], ◌∷◌, None, length, pos, true, false};
ghost use Rattle.m3_model.specs.Members.{IsIn};
ghost use Rattle.m3_model.specs.declared.act.ReadLevel.{ReadLevel};
ghost use Rattle.m3_model.specs.declared.act.ReadLevel.TheVariants as read_level;
ghost use Rattle.m3_model.specs.declared.reason.Reason.{Reason};
ghost use Rattle.m3_model.specs.declared.reason.Reason.TheVariants as reason;
ghost use Rattle.transcripts.specs.Caused.{Caused};
ghost use Rattle.transcripts.specs.Levels.{IsShort};
ghost use Rattle.model_laws.specs.Building.{life_of, place};
ghost use Rattle.model_laws.specs.Uncaused.{unstrict_found, unstrict_position, short_at, answered_by_nobody};
ghost use Rattle.transcripts.specs.Faults.{Fault};

/// A read whose nodes all answered isn't short. Where one is that reached each node, with no node stopped and no fault,
/// at least two of three wanted memory.
pub fn short_for_nothing()
    ensures whole { Caused true (life_of (unstrict_found ((100, pos 5) ∷ []) false)) [] }
    ensures all_answered { (short : IsShort true [] None (unstrict_position true) place 0) → short.reasons ≢ [] }
    ensures memory { Caused true (life_of (unstrict_found [] true)) [] → (reasons : List (ℕ × Reason)) × (2 ≤ length reasons) × ((r : ℕ × Reason) → IsIn reasons r → r.1 ≡ reason.Memory) }
{}

/// A read at another level than unstrict is short.
pub fn short_at_other_level()
    ensures { (level : ReadLevel) → level ≢ read_level.Unstrict → ¬ Caused true (life_of (short_at level)) [] }
{}

/// A read of a shard with one replica is short, and so was answered by nobody.
pub fn short_of_nobody()
    ensures { (faults : List Fault) → ¬ Caused true (life_of answered_by_nobody) faults }
{}
