//! What is so of each script.
ghost use Rattle.load_gen.specs.Laws.{HasAllLines, KeepsItsLimits};

/// A script is 5,515 requests long, whatever its seed.
pub fn has_all_lines()
    ensures { HasAllLines }
{}

/// Each request of a script keeps to the limits of requests.
pub fn keeps_limits()
    ensures { KeepsItsLimits }
{}
