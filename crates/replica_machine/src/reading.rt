ghost use Rattle.std.specs.Prelude.{◌≡◌, ◌≢◌, ◌^◌, ◌+◌, ◌-◌, ◌<◌, ◌≤◌, ℕ, true, None, OnOk, IfOk, IfErr, IsErrOf, length};
ghost use Rattle.m3_model.specs.Reads.{IsOrdered, space_picked};
ghost use Rattle.m3_model.specs.declared.reason.Damage.{Damage as Wrong};
ghost use Rattle.m3_model.specs.declared.reason.Reason.TheVariants as reason;
ghost use Rattle.m3_model.specs.declared.replica.Standing.TheVariants.{Down as IsDown};
ghost use Rattle.m3_outside.specs.DiskState.{DiskState};
ghost use Rattle.m3_outside.specs.DiskCalls.{LeavesFiles};
ghost use Rattle.shard_store.specs.fileset_read.declared.file_err.FileErr.TheVariants as unread;
ghost use Rattle.cluster_core.specs.declared.event.StepCall.TheVariants as call;
ghost use Rattle.cluster_core.specs.declared.event.StepReply.TheVariants as reply;
ghost use Rattle.replica_machine.specs.Boots.{IsRefused};
ghost use Rattle.replica_machine.specs.Damages.{IsFileDamage, IsNameRoom};
ghost use Rattle.replica_machine.specs.Machines.{refusal, IsLiveAnswer};
ghost use Rattle.replica_machine.specs.Reading.{files_answer, unread_reason, IsRefusedReading};
ghost use Rattle.replica_machine.specs.Steps.{reply_by, IsStep};

use crate::damage::{name_room, named_damage};
use crate::machine::Machine;
use m3_model::{Pick, Reason, Rules, Seq, Series, Standing};
use m3_outside::Disk;
use shard_store::of_fileset_read::FileErr;
use std::alloc::Global;

fn space_of(pick: &Pick) -> u8
    ensures { result ≡ space_picked pick.now }
{
    match pick {
        Pick::One { ns, .. } => *ns,
        Pick::Match { ns, .. } => *ns,
    }
}

// The first time, not below this one, at which a point hasn't expired. No point stands at the last time of all.
fn first_live(retention: u64, now: u64, from: u64) -> u64
    ensures low { (t : ℕ) → result ≤ t → from ≤ t }
    ensures live { (t : ℕ) → t < 2 ^ 64 - 1 → result ≤ t → now < t + retention }
    ensures first { (t : ℕ) → from ≤ t → now < t + retention → result ≤ t }
{
    if retention <= now {
        from.max((now - retention).saturating_add(1))
    } else {
        from
    }
}

/// Room for the name of any file, which is asked for before files are read.
pub(crate) fn ask_room(alloc: Global) -> Result<String, Reason>
    ensures ok { IfOk result IsNameRoom }
    ensures err { IfErr result (λ why. why ≡ reason.Memory) }
{
    match name_room(alloc) {
        Ok(room) => Ok(room),
        Err(_) => Err(Reason::Memory),
    }
}

/// What a machine answers for what its open store refused, which reads files: a fault or damage, which closed the store, takes
/// it down. There is room for the name of the damaged file.
pub(crate) fn fall_unread(standing: &mut Standing, room: String, why: FileErr) -> Reason
    requires room { IsNameRoom room }
    ensures why { result ≡ unread_reason why }
    ensures down { why ≢ unread.Memory → standing.new ≡ IsDown }
    ensures stays { why ≡ unread.Memory → standing.new ≡ standing.old }
{
    match why {
        FileErr::Memory => Reason::Memory,
        FileErr::Disk => {
            *standing = Standing::Down;
            Reason::Disk
        }
        FileErr::Form { file } => {
            *standing = Standing::Down;
            Reason::Corrupt(named_damage(room, file))
        }
    }
}

/// The same for what the store answered.
pub(crate) fn settle_files<T>(
    standing: &mut Standing,
    room: String,
    said: Result<T, FileErr>,
) -> Result<T, Reason>
    requires room { IsNameRoom room }
    ensures said { result ≡ files_answer said }
    ensures ok { OnOk said (standing.new ≡ standing.old) }
    ensures down { IfErr said (λ why. why ≢ unread.Memory → standing.new ≡ IsDown) }
    ensures memory { IsErrOf said unread.Memory → standing.new ≡ standing.old }
{
    match said {
        Ok(done) => Ok(done),
        Err(why) => Err(fall_unread(standing, room, why)),
    }
}

impl<D: Disk> Machine<D> {
    /// The held points with `from <= t < to` that haven't expired, of the series that the pick asks for. Identifiers and
    /// times ascend strictly, and series without points are left out. The pick's namespace is one of the rules.
    ///
    /// It costs as `Store::fetch` does: one identifier logarithmic time in the points in memory, and a match its proportion to the
    /// series there, beside what is read of volumes whose blocks meet the range.
    ///
    /// # Errors
    ///
    /// The first of `Down`, `Boot`, `NotOwned` and `Stale` that holds, which leaves the machine as it was. Then want of memory,
    /// which leaves it too; `Disk`, by a fault; and `Corrupt`, which comes only where the disk doesn't tell what it holds, for a
    /// file that isn't that of a volume, named at its first byte. The last two close the machine. In any case the files stay.
    pub fn read(
        &mut self,
        rules: &Rules,
        version: u64,
        pick: &Pick,
        from: u64,
        to: u64,
    ) -> Result<Seq<Series>, Reason>
        requires { space_picked pick.now < length rules.now.spaces }
        ensures ok { (D.state self.old.disk).tells ≡ true → IfOk result (IsLiveAnswer self.old.content rules.entry.now pick.now from to) }
        ensures ordered { IfOk result IsOrdered }
        ensures stays { OnOk result (self.new ≡ record self.old { disk = self.new.disk }) }
        ensures err { IfErr result (IsRefused self.old self.new) }
        ensures plain { (client number : ℕ) → refusal self.old (call.Read client number rules.entry.now version pick.now from to) ≢ None → self.new ≡ self.old }
        ensures refused { (client number : ℕ) → IsRefusedReading D.state (refusal self.old (call.Read client number rules.entry.now version pick.now from to)) self.old result }
        ensures form { (damage : Wrong) → IsErrOf result (reason.Corrupt damage) → IsFileDamage damage }
        ensures disk { LeavesFiles (IsErrOf result reason.Disk) (D.state self.old.disk) (D.state self.new.disk) }
        ensures step { (client number : ℕ) → IsStep D.state self.old (call.Read client number rules.entry.now version pick.now from to) (reply_by (λ series. reply.Found series) result) self.new }
    {
        self.check_version(version)?;
        let space = &rules.spaces.as_slice()[space_of(pick) as usize];
        let first = first_live(space.retention, rules.now, from);
        let room = ask_room(self.alloc)?;
        let said = self.store.fetch(pick, first, to);
        settle_files(&mut self.standing, room, said)
    }
}
