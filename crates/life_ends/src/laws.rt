ghost use Rattle.life_ends.specs.Low.{EndsLow, StaysLow};
ghost use Rattle.life_ends.specs.Runs.{MachineBeginsSo, MachineLeavesSo, RunLeavesStanding, RunLeavesStandingBefore, RunOpensStanding, UnansweredStands};

use m3_outside::Disk;

/// A replica first begins with what lay in its slot. What a stop leaves of the slot then is what the replica may begin anew with; where it never began, what lay there.
pub fn machines_leave_slots<D: Disk>(_disk: &D)
    ensures leaves { MachineLeavesSo D.state }
    ensures begins { MachineBeginsSo D.state }
{}

/// Where files stand for a life, a run that is told opens with what they hold, and what stops leave of its files stands for the
/// life with the run: also where its last request got no answer, and where the step of that request was made and not saved.
pub fn runs_leave_standing<D: Disk>(_disk: &D)
    ensures opens { RunOpensStanding D.state }
    ensures leaves { RunLeavesStanding D.state }
    ensures before { RunLeavesStandingBefore D.state }
{}

/// The last turn of a run may be counted as a request that got no answer.
pub fn last_turn_may_be_open()
    ensures { UnansweredStands }
{}

/// At the end of a run that is told no tenure that a replica began or tried, and no fence of it, is above the version of the
/// placement that stands; and a tenure that was low when the run began is low still.
pub fn tenures_stay_low()
    ensures ends { EndsLow }
    ensures stays { StaysLow }
{}
