//! What is done from time to time: ended blocks become volumes, what is in memory is saved, and what has expired goes.
ghost use Rattle.std.specs.Prelude.{◌≡◌, ◌≢◌, ◌-◌, ◌<◌, true, List, None, OnOk, IfOk, IfErr, IsErrOf};
ghost use Rattle.std.specs.FinMap as finite;
ghost use Rattle.std.specs.List.{All};
ghost use Rattle.m3_model.specs.declared.reason.Damage.{Damage as Wrong};
ghost use Rattle.m3_model.specs.declared.reason.Reason.TheVariants as reason;
ghost use Rattle.m3_outside.specs.DiskState.{DiskState, Told, Becomes};
ghost use Rattle.shard_store.specs.block_buffer.Held.{without, has_expired};
ghost use Rattle.shard_store.specs.shard_files.Keeps.{HoldContent, Rearranges};
ghost use Rattle.shard_store.specs.shard_files.Parts.{KnownVolume, VolumesAre};
ghost use Rattle.cluster_core.specs.declared.event.StepCall.TheVariants as call;
ghost use Rattle.cluster_core.specs.declared.event.StepReply.TheVariants as reply;
ghost use Rattle.replica_machine.specs.Boots.{IsRefused};
ghost use Rattle.replica_machine.specs.Damages.{IsFileDamage};
ghost use Rattle.replica_machine.specs.Machines.{refusal, IsRefusedFor};
ghost use Rattle.replica_machine.specs.Reading.{IsRefusedReading};
ghost use Rattle.replica_machine.specs.Steps.{reply_by, IsStep};
ghost use Rattle.replica_machine.specs.Upkeep.{IsFlushed, IsPartFlushed, IsSaved, IsTicked};

use crate::machine::{Machine, settle};
use crate::reading::{ask_room, settle_files};
use crate::refusals::check_open;
use m3_model::{Reason, Rules};
use m3_outside::Disk;

impl<D: Disk> Machine<D> {
    /// Writes a volume for each block that may be flushed and has points in memory, as `Store::flush` does, and answers how many
    /// these were. Block sizes are at least 1, as in all rules within their limits.
    ///
    /// # Errors
    ///
    /// The first of `Down` and `Boot` that holds, which leaves the machine as it was. Then want of memory, also where a block has
    /// more than a volume may have: the first few blocks are flushed then, and nothing else of the machine has changed. `Disk`, by a
    /// fault, and `Corrupt`, as in `read`, close the machine. In any case a stop at any moment leaves all that the machine had.
    pub fn flush(&mut self, rules: &Rules) -> Result<u64, Reason>
        requires sizes { All (λ space. 0 < space.block) rules.now.spaces }
        ensures ok { IfOk result (IsFlushed D.state rules.entry.now self.old self.new) }
        ensures memory { IsErrOf result reason.Memory → IsPartFlushed D.state self.old self.new }
        ensures err { IfErr result (λ why. why ≢ reason.Memory → IsRefused self.old self.new why) }
        ensures plain { refusal self.old (call.Flush rules.entry.now) ≢ None → self.new ≡ self.old }
        ensures refused { IsRefusedReading D.state (refusal self.old (call.Flush rules.entry.now)) self.old result }
        ensures form { (damage : Wrong) → IsErrOf result (reason.Corrupt damage) → IsFileDamage damage }
        ensures disk { Rearranges self.old.content (IsErrOf result reason.Disk) (D.state self.old.disk) (D.state self.new.disk) }
        ensures step { IsStep D.state self.old (call.Flush rules.entry.now) (reply_by (λ n. reply.Count n) result) self.new }
    {
        check_open(self.standing)?;
        self.store.images_hold();
        let room = ask_room(self.alloc)?;
        let said = self.store.flush(rules);
        self.work.note_flush(&said);
        settle_files(&mut self.standing, room, said)
    }

    /// Drops the expired points from memory, and takes away each volume whose block has expired as a whole, as `Store::tick` does.
    /// Answers how many keys the content lost.
    ///
    /// # Errors
    ///
    /// The first of `Down` and `Boot` that holds, which leaves the machine as it was. Then want of memory, which leaves machine and
    /// files too. `Disk`, by a fault, and `Corrupt`, as in `read`, close the machine. In any case a stop at any moment leaves each
    /// point of the machine that hasn't expired.
    pub fn tick(&mut self, rules: &Rules) -> Result<u64, Reason>
        ensures ok { IfOk result (IsTicked D.state rules.entry.now self.old self.new) }
        ensures lost { (D.state self.old.disk).tells ≡ true → IfOk result (λ n. n ≡ finite.len self.old.content - finite.len self.new.content) }
        ensures there { OnOk result (Told (D.state self.old.disk) (HoldContent self.new.content)) }
        ensures err { IfErr result (IsRefused self.old self.new) }
        ensures unchanged { (D.state self.old.disk).tells ≡ true → IsErrOf result reason.Memory → Becomes (λ files. files) (D.state self.old.disk) (D.state self.new.disk) }
        ensures plain { refusal self.old (call.Tick rules.entry.now) ≢ None → self.new ≡ self.old }
        ensures refused { IsRefusedReading D.state (refusal self.old (call.Tick rules.entry.now)) self.old result }
        ensures form { (damage : Wrong) → IsErrOf result (reason.Corrupt damage) → IsFileDamage damage }
        ensures disk { Rearranges (without self.old.content (has_expired rules.entry.now)) (IsErrOf result reason.Disk) (D.state self.old.disk) (D.state self.new.disk) }
        ensures step { IsStep D.state self.old (call.Tick rules.entry.now) (reply_by (λ n. reply.Count n) result) self.new }
    {
        check_open(self.standing)?;
        self.store.images_hold();
        let room = ask_room(self.alloc)?;
        let said = self.store.tick(rules);
        self.work.note_tick(&said);
        settle_files(&mut self.standing, room, said)
    }

    /// Saves what is in memory as a snapshot, as `Store::snapshot` does, and answers its number.
    ///
    /// It costs in proportion to the points in memory, times their logarithm.
    ///
    /// # Errors
    ///
    /// The first of `Down` and `Boot` that holds, which leaves the machine as it was. Then want of memory, which leaves it too, also
    /// where a number is at its limit; the snapshot may stand then, beside older ones. `Disk`, by a fault, closes the machine. In
    /// any case a stop at any moment leaves all that the machine had.
    pub fn snapshot(&mut self) -> Result<u64, Reason>
        ensures ok { IfOk result (IsSaved D.state self.old self.new) }
        ensures volumes { (D.state self.old.disk).tells ≡ true → ¬ (IsErrOf result reason.Disk) → (known : List KnownVolume) → VolumesAre known (D.state self.old.disk).files → VolumesAre known (D.state self.new.disk).files }
        ensures err { IfErr result (IsRefused self.old self.new) }
        ensures plain { refusal self.old call.Snapshot ≢ None → self.new ≡ self.old }
        ensures refused { IsRefusedFor (refusal self.old call.Snapshot) result }
        ensures disk { Rearranges self.old.content (IsErrOf result reason.Disk) (D.state self.old.disk) (D.state self.new.disk) }
        ensures step { IsStep D.state self.old call.Snapshot (reply_by (λ n. reply.Count n) result) self.new }
    {
        check_open(self.standing)?;
        let said = self.store.snapshot();
        self.work.note_snapshot(&said);
        settle(&mut self.standing, said)
    }
}
