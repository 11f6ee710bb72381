//! What is known of a run that is told goes on line by line.
ghost use Rattle.std.specs.Prelude.{Bool};
ghost use Rattle.told_runs.specs.BesideSample.{LeavingAcks, PlacedForNothing};
ghost use Rattle.told_runs.specs.Broken.{PlacesBeside, DeliversAgain, IsNeverServed, TakesElsewhere, UndueOrder};
ghost use Rattle.told_runs.specs.Lines.{IsServedAfresh, IsServedAtFirst, IsServedLineByLine, KindServes};
ghost use Rattle.told_runs.specs.Steps.{RefusedStepsServe, StepsServe, UntakenStepsServe};
ghost use Rattle.told_by.specs.Lines.{ClockLine, InitLine, PlainLine, ReadLine, WriteLine};

/// A run is served line by line: it is so before its first line, with nothing or with the state that it found, and each
/// line that is served leaves it so, over any disks.
pub fn served_line_by_line()
    ensures first { (tells : Bool) → IsServedAtFirst tells }
    ensures found { (tells : Bool) → IsServedAfresh tells }
    ensures line { (tells : Bool) → IsServedLineByLine tells }
{}

/// A line outside `par` of each kind leaves a told run told and served, where it says what its only turn owes.
pub fn lines_serve()
    ensures plain { (tells : Bool) → KindServes PlainLine tells }
    ensures clock { (tells : Bool) → KindServes ClockLine tells }
    ensures init { (tells : Bool) → KindServes InitLine tells }
    ensures write { (tells : Bool) → KindServes WriteLine tells }
    ensures read { (tells : Bool) → KindServes ReadLine tells }
{}

/// Broken lines aren't served: one that delivers a late message again, one that tells of a disk that couldn't be taken in
/// another line, a Place in a line where turns stand beside each other that none of them prints, and a
/// read that is refused for its order after its namespace was made.
pub fn broken_lines_are_refused()
    ensures again { IsNeverServed DeliversAgain }
    ensures elsewhere { IsNeverServed TakesElsewhere }
    ensures beside { IsNeverServed PlacesBeside }
    ensures order { UndueOrder }
{}

/// Of the run of two clients beside a worker two broken ones are refused: no list tells of one in which the node that leaves
/// acknowledges the write, and over a legal list one isn't served whose line has a Place though its bootstrap prints no
/// shard as turned available.
pub fn broken_sides_are_refused()
    ensures leaving { LeavingAcks }
    ensures placed { PlacedForNothing }
{}

/// A line that is to make a placement leaves a told run told and served: where it prints the one that its act leads to, and
/// adds no more than makes it; where its act leads nowhere, for the refusal that is due or want of memory; and where the disk
/// of a slot that the placement gives its first replica couldn't be taken. In the last two it adds nothing.
pub fn steps_serve()
    ensures made { (tells : Bool) → StepsServe tells }
    ensures refused { (tells : Bool) → RefusedStepsServe tells }
    ensures untaken { (tells : Bool) → UntakenStepsServe tells }
{}
