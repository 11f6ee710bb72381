//! Why a call's answer is what it is.
ghost use Rattle.std.specs.Prelude.{Bool};
ghost use Rattle.told_causes.specs.Sample.{ReadIsKnown};
ghost use Rattle.told_causes.specs.Calls.{ReasonsAreSaid, ServedIsTaken, SilentIsSaid, AcksAreSaid, TooFewIsSaid, FetchIsSaid, MatchIsSaid};

/// Each reason that a call names for a replica has its cause: a fate, a stop or a fault, a window, a disk or damage of
/// this very line. Not said here of replicas that wait for a bootstrap, don't own their shard, or are fenced.
pub fn reasons_are_said()
    ensures { (tells : Bool) → ReasonsAreSaid tells }
{}

/// A call that is refused for its level missed it, and a read that is answered reached it, where the nodes of
/// those that did as it asks run and each reason that it hears is explained.
pub fn levels_are_said()
    ensures silent { (tells : Bool) → SilentIsSaid tells }
    ensures few { (tells : Bool) → TooFewIsSaid tells }
    ensures fetched { (tells : Bool) → FetchIsSaid tells }
    ensures matched { (tells : Bool) → MatchIsSaid tells }
{}

/// An acknowledgement is of counted nodes, as many as the level needs, of a point within its window.
pub fn acks_are_said()
    ensures served { (tells : Bool) → ServedIsTaken tells }
    ensures acks { (tells : Bool) → AcksAreSaid tells }
{}

/// What is asked of a call there can be met: by the read of a short run.
pub fn read_is_known()
    ensures { ReadIsKnown }
{}
