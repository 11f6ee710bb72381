//! What is so of each line that makes a placement.
ghost use Rattle.placement_lines.specs.Laws.{InitsHaveOneRefusal, InitsLeadToOne, RefusedInitsLeadNowhere, RefusedStepsLeadNowhere, StepsHaveOneRefusal, StepsLeadToOne};

/// A step that is refused leads to no placement, and it is refused with one answer.
pub fn step_refusals_are_exact()
    ensures nowhere { RefusedStepsLeadNowhere }
    ensures one { StepsHaveOneRefusal }
{}

/// So it is with an `init`.
pub fn init_refusals_are_exact()
    ensures nowhere { RefusedInitsLeadNowhere }
    ensures one { InitsHaveOneRefusal }
{}

/// A step leads to one placement, and so does an `init`.
pub fn plans_are_exact()
    ensures steps { StepsLeadToOne }
    ensures inits { InitsLeadToOne }
{}
