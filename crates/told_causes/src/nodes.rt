//! Why restarts and bootstraps are refused.
ghost use Rattle.std.specs.Prelude.{Bool};
ghost use Rattle.told_causes.specs.Nodes.{NodeAnswersAreSaid};

/// A restart or a bootstrap that is alone in its line, and refused for the disk or the files of a replica of its node, is
/// so for a fault or damage of this very line.
pub fn node_answers_are_said()
    ensures { (tells : Bool) → NodeAnswersAreSaid tells }
{}
