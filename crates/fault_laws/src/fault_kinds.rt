//! What each kind of fault excuses: a disk that couldn't be taken, one that failed, and bytes that were found damaged.
ghost use Rattle.std.specs.Prelude.{ℕ, List, [], ◌∷◌, true};
ghost use Rattle.m3_model.specs.Members.{IsIn};
ghost use Rattle.transcripts.specs.Faults.{Fault};
ghost use Rattle.transcripts.specs.Caused.{Caused};
ghost use Rattle.model_laws.specs.Building.{life_of};
ghost use Rattle.fault_laws.specs.Faulty.{fails, untaken, damages, two_failed, c_down, made_then_down, disk_at_once, init_failed, restart_failed};

/// Each of two disks that failed in one line has a fault of its own: no one fault excuses both, and one of taking a disk
/// excuses neither.
pub fn one_fault_for_two()
    ensures two { Caused true (life_of two_failed) (fails 3 0 ∷ fails 3 2 ∷ []) }
    ensures one { (fault : Fault) → ¬ Caused true (life_of two_failed) (fault ∷ []) }
    ensures taking { (line : ℕ) → ¬ Caused true (life_of two_failed) (untaken line 2 ∷ fails 3 0 ∷ []) }
    ensures both { (faults : List Fault) → Caused true (life_of two_failed) faults → IsIn faults (fails 3 0) × IsIn faults (fails 3 2) }
{}

/// A disk that failed closes its replica, and so does damage; a disk that couldn't be taken closes none.
pub fn down_by_untaken_disk()
    ensures failing { Caused true (life_of c_down) (fails 3 2 ∷ []) }
    ensures earlier { Caused true (life_of c_down) (fails 1 2 ∷ []) }
    ensures damage { Caused true (life_of c_down) (damages 1 2 ∷ []) }
    ensures taking { (line : ℕ) → ¬ Caused true (life_of c_down) (untaken line 2 ∷ []) }
{}

/// The fault of one replica closes no other one, and a fault of a later line closes none.
pub fn down_by_another_fault()
    ensures node { (line : ℕ) → ¬ Caused true (life_of c_down) (fails line 1 ∷ []) }
    ensures later { ¬ Caused true (life_of c_down) (fails 4 2 ∷ []) }
{}

/// A fault closes a replica only where it was there: after the cluster was made, and not before.
pub fn down_by_fault_before_init()
    ensures after { Caused true (life_of made_then_down) (untaken 0 2 ∷ fails 1 2 ∷ []) }
    ensures before { ¬ Caused true (life_of made_then_down) (untaken 0 2 ∷ fails 0 2 ∷ []) }
{}

/// A disk fails in a write or a restart by a fault of its own, not by one of taking it and not by damage; in an `init` it is
/// one of taking it.
pub fn disk_of_another_kind()
    ensures untaken { ¬ Caused true (life_of disk_at_once) (untaken 3 2 ∷ []) }
    ensures damaged { ¬ Caused true (life_of disk_at_once) (damages 3 2 ∷ []) }
    ensures restart { ¬ Caused true (life_of restart_failed) (untaken 4 2 ∷ []) }
    ensures init { ¬ Caused true (life_of init_failed) (fails 0 1 ∷ []) }
{}
