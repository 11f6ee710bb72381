//! The turns of a run tracked by its list of events.
ghost use Rattle.told_runs.specs.told_by.Lines.{ClockLine, InitLine, PlainLine, ReadLine, WriteLine};
ghost use Rattle.line_tracks.specs.tracks.Adds.{AnewAdds, CallAdds, ServedAdds, StepsAreOfSlots};
ghost use Rattle.line_tracks.specs.tracks.Ends.{CausedWhereTracked, JoinedWhereTracked, KeptWhereTracked, ShownWhereTracked};
ghost use Rattle.line_tracks.specs.tracks.Failures.{CountGoesOn, OtherSlotsStay};
ghost use Rattle.line_tracks.specs.tracks.Leaves.{LastTurnMayBeOpen, LeavesStanding, LeavesUnmade, LeavesUnsaved, StepsAreMade};
ghost use Rattle.line_tracks.specs.tracks.Numbers.{NumbersStay};
ghost use Rattle.line_tracks.specs.tracks.Quiet.{QuietLinesStandOn, QuietTurnsMakeNone};
ghost use Rattle.line_tracks.specs.tracks.Runs.{RunFindsNoDamage, RunGoesOn, RunIsCounted, RunOpensAsLeft, RunOpensEmpty};
ghost use Rattle.line_tracks.specs.tracks.Steps.{FirstStandsSo, StandsAfterLine, TracksAfresh, TracksAtFirst, TracksOn};

use m3_outside::Disk;
use node_calls::of_cluster_members::Members;
use node_calls::of_replica_calls::Replicas;
use session_net::Net;

/// Each disk counts the faults for which its slot's steps were refused, also those of the steps that come; and a slot that takes
/// none of them has its replica as before.
pub fn faults_are_counted<D: Disk>(replicas: &Replicas<D>)
    ensures counted { CountGoesOn D.state replicas.now }
    ensures others { OtherSlotsStay D.state replicas.now }
{}

/// Replicas that took the steps of the list since they were made go on so with the steps that come. Then their disks counted
/// their failures; and where these tell and stood for the life, they first began with what earlier runs left, and none found damage.
/// None first began with a point where they had none.
pub fn replicas_run<D: Disk>(replicas: &Replicas<D>)
    ensures goes_on { RunGoesOn D.state replicas.now }
    ensures counted { RunIsCounted D.state replicas.now }
    ensures opens_empty { RunOpensEmpty D.state replicas.now }
    ensures opens_as_left { RunOpensAsLeft D.state replicas.now }
    ensures no_damage { RunFindsNoDamage D.state replicas.now }
{}

/// The next calls go on by the numbers that the turns leave, as far as numbers go.
pub fn numbers_stay()
    ensures { NumbersStay }
{}

/// A cluster that made nothing tracks no turns, nor does one that was opened by a state that was found; and one more line that is told, served and counted is tracked with them.
pub fn one_more_is_tracked<D: Disk>(members: &Option<Members<D>>)
    ensures first { TracksAtFirst D.state members.now }
    ensures afresh { TracksAfresh D.state members.now }
    ensures plain { TracksOn PlainLine D.state members.now }
    ensures clock { TracksOn ClockLine D.state members.now }
    ensures init { TracksOn InitLine D.state members.now }
    ensures write { TracksOn WriteLine D.state members.now }
    ensures read { TracksOn ReadLine D.state members.now }
{}

/// What each line's law says of what came to the list is what is tracked of it: of a call and a delivery, of a line that sets the
/// rules or the fates, of one that was refused, and of an `init`.
pub fn laws_add<D: Disk>(members: &Members<D>, net: &Net<D>)
    ensures plain { CallAdds PlainLine net.now }
    ensures write { CallAdds WriteLine net.now }
    ensures read { CallAdds ReadLine net.now }
    ensures served_plain { ServedAdds PlainLine }
    ensures served_clock { ServedAdds ClockLine }
    ensures served_read { ServedAdds ReadLine }
    ensures anew_plain { AnewAdds PlainLine }
    ensures anew_init { AnewAdds InitLine }
    ensures slots { StepsAreOfSlots members.now }
{}

/// A cluster stands after a line by whose steps its replicas went on, where it is what the turns left.
pub fn cluster_goes_on<D: Disk>(members: &Members<D>)
    ensures { StandsAfterLine D.state members.now }
{}

/// A line that prints no placement, begins no replica, and neither stops nor restarts a node makes no Place and begins nothing;
/// and the cluster stands on after it.
pub fn quiet_lines<D: Disk>(members: &Members<D>)
    ensures none { QuietTurnsMakeNone }
    ensures on { QuietLinesStandOn D.state members.now }
{}

/// A first cluster stands after the line of the `init` that made it.
pub fn cluster_begins<D: Disk>(members: &Members<D>)
    ensures { FirstStandsSo D.state members.now }
{}

/// A run whose turns are tracked kept what it had to, where its disks tell and stood for the life; its answers have their causes; each
/// node that turned available was joined; and the counts of the disks show the faults among these, once the disks are given back.
pub fn tracked_runs_promise<D: Disk>(members: &Option<Members<D>>)
    ensures kept { KeptWhereTracked D.state members.now }
    ensures caused { CausedWhereTracked D.state members.now }
    ensures joined { JoinedWhereTracked D.state members.now }
    ensures shown { ShownWhereTracked D.state members.now }
{}

/// What lies in the slots of replicas at the end of a run that is tracked, once its disks are given back, stands for
/// the life with it: by the state that its turns left, and by that of an `init` that made no cluster. Where the last
/// turn's step wasn't saved, it does so by the state from before it, too. A last turn may be counted as a request that
/// got no answer.
pub fn runs_leave_standing<D: Disk>(
    members: &Option<Members<D>>,
    before: &Members<D>,
    last: &Members<D>,
)
    ensures standing { LeavesStanding D.state members.now }
    ensures unmade { LeavesUnmade D.state members.now }
    ensures steps { StepsAreMade D.state before.now last.now }
    ensures unsaved { LeavesUnsaved D.state last.now }
    ensures may_be_open { LastTurnMayBeOpen D.state }
{}
