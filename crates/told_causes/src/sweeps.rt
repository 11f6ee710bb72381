//! Why upkeep is refused by replicas.
ghost use Rattle.std.specs.Prelude.{Bool};
ghost use Rattle.told_causes.specs.Sweeps.{SweepsAreSaid};

/// Each reason that a sweep hears of a replica has its cause: a stop or a fault, a bootstrap that wasn't, a disk or damage of
/// this very line.
pub fn sweeps_are_said()
    ensures { (tells : Bool) → SweepsAreSaid tells }
{}
