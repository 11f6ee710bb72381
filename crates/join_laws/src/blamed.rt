//! Replicas that only a fault explains.
ghost use Rattle.std.specs.Prelude.{List, [], ◌∷◌, codes};
ghost use Rattle.m3_model.specs.declared.replica.Standing.TheVariants.{Boot, Down, Open};
ghost use Rattle.transcripts.specs.Blamed.{Blamed};
ghost use Rattle.transcripts.specs.Faults.{Failing, Taking};
ghost use Rattle.model_laws.specs.Building.{life_of};
ghost use Rattle.model_laws.specs.Messages.{stopped};
ghost use Rattle.join_laws.specs.Replaced.{passed_over, standing_line, status_after};

/// A bootstrap passes a replica over that a fault closed, and none that nothing closed: not by a fault of another node, nor by
/// one of taking a disk.
pub fn passed_over_for_a_fault()
    ensures closed { Blamed (life_of passed_over) (record { line = 2; node = 3; shard = 0; kind = Failing } ∷ []) }
    ensures nothing { ¬ Blamed (life_of passed_over) [] }
    ensures another { ¬ Blamed (life_of passed_over) (record { line = 2; node = 1; shard = 0; kind = Failing } ∷ []) }
    ensures untaken { ¬ Blamed (life_of passed_over) (record { line = 2; node = 3; shard = 0; kind = Taking } ∷ []) }
{}

/// A node that runs is open, and one that is stopped is down: not down where nothing happened, not at boot where none was
/// restarted, and not open where it is stopped.
pub fn standing_without_cause()
    ensures open { Blamed (life_of (status_after [] (standing_line Open 0 ∷ standing_line Open 1 ∷ standing_line Open 2 ∷ []))) [] }
    ensures down { Blamed (life_of (status_after (stopped (codes "c") ∷ []) (standing_line Open 0 ∷ standing_line Open 1 ∷ standing_line Down 2 ∷ []))) [] }
    ensures running { ¬ Blamed (life_of (status_after [] (standing_line Open 0 ∷ standing_line Open 1 ∷ standing_line Down 2 ∷ []))) [] }
    ensures boot { ¬ Blamed (life_of (status_after [] (standing_line Open 0 ∷ standing_line Open 1 ∷ standing_line Boot 2 ∷ []))) [] }
    ensures stopped_open { ¬ Blamed (life_of (status_after (stopped (codes "c") ∷ []) (standing_line Open 0 ∷ standing_line Open 1 ∷ standing_line Open 2 ∷ []))) [] }
{}
