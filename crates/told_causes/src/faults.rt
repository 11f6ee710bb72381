//! The faults of disks and the damages that a list tells of.
ghost use Rattle.told_causes.specs.Faults.{FaultToldTwice, FaultsAreDifferent, FaultsAreSteps, StepsAreFaults, FaultsAreFew, RefusedTwice};

/// The faults of a list are those of its refused steps: no two are alike, each is of a step that was refused in its
/// line, each such step has its fault, and of one kind, of one slot or in all there are no more of them than such steps.
pub fn faults_are_steps()
    ensures different { FaultsAreDifferent }
    ensures steps { FaultsAreSteps }
    ensures told { StepsAreFaults }
    ensures few { FaultsAreFew }
{}

/// A fault isn't told twice: such a list isn't one of different faults, and two steps of a slot that its disk failed in
/// one line are told as one fault.
pub fn faults_are_told_once()
    ensures twice { FaultToldTwice }
    ensures once { RefusedTwice }
{}
