//! Pages that another replica gave, joined to what a replica holds.
ghost use Rattle.std.specs.Prelude.{◌≡◌, ◌≢◌, None, IfOk, IfErr, IsErrOf};
ghost use Rattle.m3_model.specs.declared.reason.Damage.{Damage as Wrong};
ghost use Rattle.m3_model.specs.declared.reason.Reason.TheVariants as reason;
ghost use Rattle.m3_outside.specs.DiskState.{DiskState};
ghost use Rattle.shard_store.specs.Beside.{risen_in};
ghost use Rattle.shard_store.specs.Whole.{BringsWhole, of_points};
ghost use Rattle.cluster_core.specs.declared.event.StepCall.TheVariants as call;
ghost use Rattle.cluster_core.specs.declared.event.StepReply.TheVariants as reply;
ghost use Rattle.replica_machine.specs.Boots.{IsRefused};
ghost use Rattle.replica_machine.specs.Damages.{IsFileDamage};
ghost use Rattle.replica_machine.specs.Machines.{refusal};
ghost use Rattle.replica_machine.specs.Merged.{IsMerged};
ghost use Rattle.replica_machine.specs.Reading.{IsRefusedReading};
ghost use Rattle.replica_machine.specs.Steps.{reply_by, IsStep};

use crate::machine::Machine;
use crate::reading::{ask_room, settle_files};
use m3_model::{Page, Reason};
use m3_outside::Disk;

impl<D: Disk> Machine<D> {
    /// Joins the points of a page, of which the higher value stays at a key. Those that are new to the content or
    /// raise it are in the log, in one entry, and in memory. Answers how many these are.
    ///
    /// It costs as `Store::merge` does.
    ///
    /// # Errors
    ///
    /// The first of `Down`, `Boot` and `NotOwned` that holds, which leaves the machine as it was; it is NotOwned where it has no
    /// tenure. Then want of memory, which leaves it too, and what a stop leaves holds what it held: memory is wanted wherever more
    /// points would be in memory than `MOST_REPLICA_POINTS`, and where the page isn't one that a disk gives that tells what it holds. `Disk`, by a fault, after which all of the points are in doubt together;
    /// and `Corrupt`, as in `read`. The last two close the machine.
    pub fn merge(&mut self, page: &Page) -> Result<u64, Reason>
        ensures ok { IfOk result (IsMerged D.state page.now.points self.old self.new) }
        ensures err { IfErr result (IsRefused self.old self.new) }
        ensures plain { refusal self.old (call.Merge page.now) ≢ None → self.new ≡ self.old }
        ensures refused { IsRefusedReading D.state (refusal self.old (call.Merge page.now)) self.old result }
        ensures form { (damage : Wrong) → IsErrOf result (reason.Corrupt damage) → IsFileDamage damage }
        ensures disk { BringsWhole (of_points (risen_in self.old.content page.now.points)) (IsErrOf result reason.Disk) result (D.state self.old.disk) (D.state self.new.disk) }
        ensures step { IsStep D.state self.old (call.Merge page.now) (reply_by (λ n. reply.Count n) result) self.new }
    {
        self.check_owned()?;
        let room = ask_room(self.alloc)?;
        let said = self.store.merge(page);
        self.work.note_merge(&said);
        settle_files(&mut self.standing, room, said)
    }
}
