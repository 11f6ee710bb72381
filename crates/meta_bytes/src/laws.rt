//! Laws over the definition of a state's bytes.
ghost use Rattle.meta_bytes.specs.States.{StatesAreOne, StatesFit};

/// No two states have the same bytes.
pub fn states_are_one()
    ensures { StatesAreOne }
{}

/// Each state that a cluster may have can be spelled, in at most 5,905 bytes, which have a state's form.
pub fn states_fit()
    ensures { StatesFit }
{}
