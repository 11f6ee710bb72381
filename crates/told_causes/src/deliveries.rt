//! Why late messages came to what they did.
ghost use Rattle.std.specs.Prelude.{Bool};
ghost use Rattle.told_causes.specs.Deliveries.{OutcomesAreSaid};

/// Each outcome of a delivery is of a message that was made late before, in their order, and has its cause.
pub fn outcomes_are_said()
    ensures { (tells : Bool) → OutcomesAreSaid tells }
{}
