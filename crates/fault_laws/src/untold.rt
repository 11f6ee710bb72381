//! Disks that don't tell what they hold: the causes by count stand for them too.
ghost use Rattle.std.specs.Prelude.{ℕ, List, [], ◌∷◌, true, false};
ghost use Rattle.m3_model.specs.declared.answer.Answer.TheVariants as answer;
ghost use Rattle.m3_model.specs.declared.reason.Reason.TheVariants as reason;
ghost use Rattle.transcripts.specs.Caused.{Caused};
ghost use Rattle.transcripts.specs.Faults.{Fault};
ghost use Rattle.transcripts.specs.Record.{Life};
ghost use Rattle.model_laws.specs.Building.{life_of, unmet, by_each, acks};
ghost use Rattle.fault_laws.specs.Faulty.{two_failed};
ghost use Rattle.model_laws.specs.Messages.{stopped_and_acked, lost_and_acked};
ghost use Rattle.model_laws.specs.Shapes.{refused_whole_late};
ghost use Rattle.fault_laws.specs.Untold.{MayAnswer};

/// What has its cause where disks tell has it where they don't.
pub fn less_where_untold()
    ensures { (life : Life) → (faults : List Fault) → Caused true life faults → Caused false life faults }
{}

/// Where disks don't tell, a replica may wait for a bootstrap that no turn shows, and may have any fence; where they tell,
/// it may not.
pub fn boot_and_fence_untold()
    ensures boot { MayAnswer false (unmet 0 (by_each reason.Boot)) }
    ensures fence { (fence : ℕ) → MayAnswer false (unmet 0 (by_each (reason.Stale fence))) }
    ensures boot_told { ¬ MayAnswer true (unmet 0 (by_each reason.Boot)) }
    ensures fence_told { (fence : ℕ) → ¬ MayAnswer true (unmet 0 (by_each (reason.Stale fence))) }
{}

/// Where disks don't tell, no less is asked of positions among the lines, of acks, of faults, of cuts and of stops.
pub fn no_less_where_untold()
    ensures order { ¬ MayAnswer false answer.Order }
    ensures too_few { ¬ MayAnswer false (acks (0 ∷ [])) }
    ensures disk { ¬ MayAnswer false (unmet 0 (by_each reason.Disk)) }
    ensures down { ¬ MayAnswer false (unmet 0 (by_each reason.Down)) }
    ensures cut { ¬ MayAnswer false (unmet 0 (by_each reason.Cut)) }
    ensures stopped { ¬ Caused false (life_of stopped_and_acked) [] }
    ensures lost { ¬ Caused false (life_of lost_and_acked) [] }
    ensures two { (fault : Fault) → ¬ Caused false (life_of two_failed) (fault ∷ []) }
    ensures whole { ¬ Caused false (life_of (refused_whole_late answer.Order)) [] }
{}
