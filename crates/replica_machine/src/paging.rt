//! Pages of what a replica holds.
ghost use Rattle.std.specs.Prelude.{◌≡◌, ◌≢◌, true, None, OnOk, IfOk, IfErr, IsErrOf};
ghost use Rattle.std.specs.Option.{option_copied};
ghost use Rattle.m3_model.specs.declared.reason.Damage.{Damage as Wrong};
ghost use Rattle.m3_model.specs.declared.reason.Reason.TheVariants as reason;
ghost use Rattle.m3_outside.specs.DiskState.{DiskState};
ghost use Rattle.m3_outside.specs.DiskCalls.{LeavesFiles};
ghost use Rattle.first_points.specs.Firsts.{IsPageOf};
ghost use Rattle.cluster_core.specs.declared.event.StepCall.TheVariants as call;
ghost use Rattle.cluster_core.specs.declared.event.StepReply.TheVariants as reply;
ghost use Rattle.replica_machine.specs.Boots.{IsRefused};
ghost use Rattle.replica_machine.specs.Damages.{IsFileDamage};
ghost use Rattle.replica_machine.specs.Machines.{refusal};
ghost use Rattle.replica_machine.specs.Reading.{IsRefusedReading};
ghost use Rattle.replica_machine.specs.Steps.{reply_by, IsStep};

use crate::machine::Machine;
use crate::reading::{ask_room, settle_files};
use m3_model::{Key, Page, Reason};
use m3_outside::Disk;

impl<D: Disk> Machine<D> {
    /// The page of the first points above the key that it holds, expired or not: the first 64, or all that there are. It goes on
    /// from the key of its last point exactly where a point stands above that. Without a key it has the first points of all.
    ///
    /// It costs as `Store::page` does.
    ///
    /// # Errors
    ///
    /// The first of `Down`, `Boot` and `NotOwned` that holds, which leaves the machine as it was; it is NotOwned where it has no
    /// tenure. Then want of memory, which leaves it too; `Disk`, by a fault; and `Corrupt`, as in `read`. The last two close the
    /// machine. In any case the files stay.
    pub fn page(&mut self, after: Option<&Key>) -> Result<Page, Reason>
        ensures ok { (D.state self.old.disk).tells ≡ true → IfOk result (IsPageOf self.old.content (option_copied after.entry)) }
        ensures stays { OnOk result (self.new ≡ record self.old { disk = self.new.disk }) }
        ensures err { IfErr result (IsRefused self.old self.new) }
        ensures plain { refusal self.old (call.Page (option_copied after.entry)) ≢ None → self.new ≡ self.old }
        ensures refused { IsRefusedReading D.state (refusal self.old (call.Page (option_copied after.entry))) self.old result }
        ensures form { (damage : Wrong) → IsErrOf result (reason.Corrupt damage) → IsFileDamage damage }
        ensures disk { LeavesFiles (IsErrOf result reason.Disk) (D.state self.old.disk) (D.state self.new.disk) }
        ensures step { IsStep D.state self.old (call.Page (option_copied after.entry)) (reply_by (λ page. reply.Paged page) result) self.new }
    {
        self.check_owned()?;
        let room = ask_room(self.alloc)?;
        let said = self.store.page(after);
        settle_files(&mut self.standing, room, said)
    }
}
