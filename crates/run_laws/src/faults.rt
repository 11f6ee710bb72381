//! Faults that may be causes in a run.
ghost use Rattle.std.specs.Prelude.{[], ◌∷◌, true};
ghost use Rattle.m3_outside.specs.Causes.{last_count};
ghost use Rattle.transcripts.specs.Faults.{Damaged, Failing, Taking};
ghost use Rattle.m3_program.specs.Faults.{AreCauses};
ghost use Rattle.run_laws.specs.Faults.{counts_of_two, fault_of, one_line};

/// One fault is counted, and it is the cause of one.
pub fn fault_counted()
    ensures { AreCauses true one_line (counts_of_two 0 0) (counts_of_two 1 1) (fault_of Failing 0 0 ∷ []) }
{}

/// More are causes than are counted: two of one count, one of a disk whose own count stands, or one of taking a disk where
/// none is counted in all.
pub fn more_faults_than_counted()
    ensures two { ¬ AreCauses true one_line (counts_of_two 0 0) (counts_of_two 1 1) (fault_of Failing 0 0 ∷ fault_of Taking 0 1 ∷ []) }
    ensures another { ¬ AreCauses true one_line (counts_of_two 0 0) (counts_of_two 1 1) (fault_of Failing 0 1 ∷ []) }
    ensures taking { ¬ AreCauses true one_line (counts_of_two 5 last_count) (counts_of_two 5 last_count) (fault_of Taking 0 0 ∷ []) }
{}

/// A fault comes behind the last request, or is a damage where disks tell.
pub fn fault_of_no_line()
    ensures later { ¬ AreCauses true one_line (counts_of_two 0 0) (counts_of_two 1 1) (fault_of Failing 1 0 ∷ []) }
    ensures damage { ¬ AreCauses true one_line (counts_of_two 0 0) (counts_of_two 1 1) (fault_of Damaged 0 0 ∷ []) }
{}
