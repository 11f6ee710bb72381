ghost use Rattle.std.specs.Prelude.{◌≡◌, ◌≢◌, ◌⊎◌, ℕ, ◌-◌, ◌<◌, ◌≤◌, ◌↔◌, max, true, None, Some, OnOk, OnErr, IfOk, IfErr, IsErrOf, length};
ghost use Rattle.std.specs.FinMap as finite;
ghost use Rattle.m3_model.specs.Contents.{raised, content_of};
ghost use Rattle.m3_model.specs.declared.limits.TheConstants.{MOST_REPLICA_POINTS};
ghost use Rattle.m3_model.specs.Rules.{InWindow};
ghost use Rattle.m3_model.specs.declared.reason.Reason.TheVariants as reason;
ghost use Rattle.m3_model.specs.declared.replica.Standing.TheVariants.{Down as IsDown, Boot as IsBoot, Open as IsOpen};
ghost use Rattle.m3_outside.specs.DiskState.{DiskState, Told, Becomes};
ghost use Rattle.m3_outside.specs.declared.disk_err.DiskErr.TheVariants.{Failed as DiskFailed};
ghost use Rattle.shard_store.specs.commit_log.Contents.{numbers};
ghost use Rattle.shard_store.specs.wire_bytes.Entries.{IsBounded};
ghost use Rattle.shard_store.specs.shard_files.Gains.{nothing, a_point, a_fence, a_tenure};
ghost use Rattle.shard_store.specs.shard_files.Parts.{IsNewestNumber, counted_volumes};
ghost use Rattle.cluster_core.specs.Replicas.{fresh};
ghost use Rattle.cluster_core.specs.Rows.{open_fence};
ghost use Rattle.cluster_core.specs.declared.event.StepCall.TheVariants as call;
ghost use Rattle.cluster_core.specs.declared.event.StepReply.TheVariants as reply;
ghost use Rattle.replica_machine.specs.Machines.{first_machine, shut_machine, IsMachineOf, reason_of, left_by, settled_answer, refusal, unheld, unserved, IsOwn, IsRefusedFor};
ghost use Rattle.replica_machine.specs.Steps.{reply_by, IsStep, BringsTo, RestartsTo};

use crate::refusals::{check_fence, check_open, check_owner, check_tenure, check_window};
use crate::work::Work;
use m3_model::{Point, Reason, Report, Rules, Seq, Standing};
use m3_outside::{Disk, DiskErr};
use shard_store::Store;
use std::alloc::Global;
use std::marker::Model;

/// What a replica began with.
#[derive(Drop)]
pub struct Began {
    /// The version below which it refuses.
    pub fence: u64,
    /// The points of its files, each once, ascending by key and then by value: also several of one key. None where it was
    /// open already.
    pub points: Seq<Point>,
}

/// One replica of one shard, over a disk of its own: it takes writes and answers reads while it is open and owns its shard.
/// Contracts see how it stands, its tenures, its fence, its content and its disk.
///
/// Reasons to refuse a call are tried in the order Down, Boot, NotOwned, Stale, Past, Future; then come want of memory and
/// a fault of the disk. A machine is NotOwned where it has no tenure or one above the version of the call, and Stale where
/// its fence is above it. A fault closes it until a restart.
#[derive(Drop)]
pub struct Machine<D: Disk> {
    pub(crate) alloc: Global,
    pub(crate) standing: Standing,
    pub(crate) tenure: Option<u64>,
    // The greatest tenure with which it began, and 0 where it hasn't.
    pub(crate) begun: u64,
    pub(crate) store: Store<D>,
    pub(crate) work: Work,
}

impl<D: Disk> Model for Machine<D> {
    ghost use Rattle.std.specs.Prelude.{◌≡◌};
    ghost use Rattle.replica_machine.specs.Machines.{MachineState, machine_code, IsStoreOf};

    ghost Value = { MachineState D };

    ghost coded = { machine_code D.code };

    ghost view = { λ m. record { standing = m.standing; tenure = m.tenure; begun = m.begun; fence = m.store.fence; buffered = m.store.buffered; content = m.store.content; disk = m.store.disk; work = m.work } };

    ghost invariant = { λ m. IsStoreOf m.standing m.store };
}

// What a machine answers for what its open store refused: a fault, which closed the store, takes it down.
pub(crate) fn fall(standing: &mut Standing, why: DiskErr) -> Reason
    ensures why { result ≡ reason_of why }
    ensures down { why ≡ DiskFailed → standing.new ≡ IsDown }
    ensures stays { ¬ (why ≡ DiskFailed) → standing.new ≡ standing.old }
{
    if why == DiskErr::Memory {
        return Reason::Memory;
    }
    *standing = Standing::Down;
    Reason::Disk
}

// The same for what the store answered.
pub(crate) fn settle<T>(standing: &mut Standing, said: Result<T, DiskErr>) -> Result<T, Reason>
    ensures said { result ≡ settled_answer said }
    ensures down { IsErrOf said DiskFailed → standing.new ≡ IsDown }
    ensures stays { ¬ (IsErrOf said DiskFailed) → standing.new ≡ standing.old }
{
    match said {
        Ok(done) => Ok(done),
        Err(why) => Err(fall(standing, why)),
    }
}

impl<D: Disk> Machine<D> {
    /// A machine at Boot over this disk, without tenure. Takes no memory.
    pub fn new(alloc: Global, disk: D) -> Machine<D>
        ensures first { result ≡ first_machine disk }
        ensures fresh { IsMachineOf D.state (D.state disk).images fresh result }
    {
        Machine {
            alloc,
            standing: Standing::Boot,
            tenure: None,
            begun: 0,
            store: Store::new(alloc, disk),
            work: Work::none(),
        }
    }

    // Whether a write or a read of this version may go on.
    pub(crate) fn check_version(&self, version: u64) -> Result<(), Reason>
        ensures ok { OnOk result (unserved self.now version ≡ None) }
        ensures err { IfErr result (λ why. unserved self.now version ≡ Some why) }
    {
        check_open(self.standing)?;
        check_owner(self.tenure, version)?;
        check_fence(self.store.present_fence(), version)
    }

    // Whether a call that asks for the shard alone may go on.
    pub(crate) fn check_owned(&self) -> Result<(), Reason>
        ensures ok { OnOk result (unheld self.now ≡ None) }
        ensures err { IfErr result (λ why. unheld self.now ≡ Some why) }
    {
        check_open(self.standing)?;
        check_tenure(self.tenure)
    }

    // What the machine answers for what its disk refused: a fault closes it.
    pub(crate) fn refused(&mut self, why: DiskErr) -> Reason
        ensures why { result ≡ reason_of why }
        ensures left { self.new ≡ left_by why self.old }
    {
        match why {
            DiskErr::Failed => {
                self.stop();
                Reason::Disk
            }
            DiskErr::Memory => Reason::Memory,
        }
    }

    /// Takes the point, which a client sent at this version: the content is joined with it, in logarithmic time, and it is
    /// in the log, synced. The point's namespace is one of the rules, and its values are within their bounds.
    ///
    /// # Errors
    ///
    /// The first of `Down`, `Boot`, `NotOwned`, `Stale`, `Past` and `Future` that holds, else want of memory or a fault. Memory
    /// is wanted wherever one point more would be held than `MOST_REPLICA_POINTS`.
    /// Each but a fault leaves the machine and its files as they were. After a fault the machine is closed, and the point is
    /// in doubt.
    pub fn put(&mut self, rules: &Rules, version: u64, point: &Point) -> Result<(), Reason>
        requires space { point.now.ns < length rules.now.spaces }
        requires bounded { IsBounded point.now }
        ensures ok { OnOk result (self.new ≡ record self.old { disk = self.new.disk; buffered = raised self.old.buffered point.now; content = raised self.old.content point.now }) }
        ensures window { OnOk result (InWindow rules.entry.now point.now) }
        ensures err { IfErr result (λ why. why ≢ reason.Disk → self.new ≡ record self.old { disk = self.new.disk }) }
        ensures plain { IfErr result (λ why. why ≢ reason.Disk → why ≢ reason.Memory → self.new ≡ self.old) }
        ensures unchanged { (D.state self.old.disk).tells ≡ true → IsErrOf result reason.Memory → Becomes (λ files. files) (D.state self.old.disk) (D.state self.new.disk) }
        ensures fault { IsErrOf result reason.Disk → self.new ≡ shut_machine IsDown self.old self.new.disk }
        ensures refused { (client number : ℕ) → IsRefusedFor (refusal self.old (call.Put client number rules.entry.now version point.now)) result }
        ensures disk { BringsTo (a_point point.now) result (D.state self.old.disk) (D.state self.new.disk) }
        ensures step { (client number : ℕ) → IsStep D.state self.old (call.Put client number rules.entry.now version point.now) (reply_by (λ _. reply.Done) result) self.new }
    {
        self.check_version(version)?;
        check_window(rules, point)?;
        let said = self.store.put(point);
        settle(&mut self.standing, said)
    }

    /// Raises the fence to the version, and has it in the log. A fence never falls.
    ///
    /// # Errors
    ///
    /// The first of `Down`, `Boot` and `NotOwned` that holds, else want of memory or a fault. Each but a fault leaves the
    /// machine and its files as they were. After a fault the machine is closed, and the fence is in doubt.
    pub fn fence(&mut self, version: u64) -> Result<(), Reason>
        ensures ok { OnOk result (self.new ≡ record self.old { disk = self.new.disk; fence = max self.old.fence version }) }
        ensures err { IfErr result (λ why. why ≢ reason.Disk → self.new ≡ record self.old { disk = self.new.disk }) }
        ensures plain { IfErr result (λ why. why ≢ reason.Disk → why ≢ reason.Memory → self.new ≡ self.old) }
        ensures unchanged { (D.state self.old.disk).tells ≡ true → IsErrOf result reason.Memory → Becomes (λ files. files) (D.state self.old.disk) (D.state self.new.disk) }
        ensures fault { IsErrOf result reason.Disk → self.new ≡ shut_machine IsDown self.old self.new.disk }
        ensures refused { IsRefusedFor (refusal self.old (call.Fence version)) result }
        ensures disk { BringsTo (a_fence version) result (D.state self.old.disk) (D.state self.new.disk) }
        ensures step { IsStep D.state self.old (call.Fence version) (reply_by (λ _. reply.Done) result) self.new }
    {
        check_open(self.standing)?;
        check_owner(self.tenure, version)?;
        let said = self.store.fence(version);
        settle(&mut self.standing, said)
    }

    /// Ends the tenure: the machine doesn't own its shard any more, until it begins again. All else stays, also its files. Takes no
    /// memory.
    pub fn end(&mut self)
        ensures ended { self.new ≡ record self.old { tenure = None } }
        ensures step { IsStep D.state self.old call.End reply.Done self.new }
    {
        self.tenure = None;
    }

    /// Closes the machine and forgets what is in memory. The files stay. Takes no memory.
    pub fn stop(&mut self)
        ensures closed { self.new ≡ shut_machine IsDown self.old self.old.disk }
        ensures step { IsStep D.state self.old call.Stop reply.Done self.new }
    {
        self.store.close();
        self.standing = Standing::Down;
    }

    /// How the machine stands, with its fence where it is open and else 0; how many points it has in memory, one at each key: never
    /// more than `MOST_REPLICA_POINTS`; how many segments its log has; the number of the newest snapshot that counts on its disk, 0
    /// where none counts; and how many volumes count there. All of these are 0 where it isn't open. It doesn't look at the disk, and
    /// takes no memory.
    pub fn report(&self) -> Report
        ensures standing { result.standing ≡ self.now.standing }
        ensures fence { result.fence ≡ open_fence self.now.standing self.now.fence }
        ensures held { result.buffered ≡ finite.len self.now.buffered }
        ensures limit { result.buffered ≤ MOST_REPLICA_POINTS }
        ensures volumes { self.now.standing ≡ IsOpen → Told (D.state self.now.disk) (λ files. result.volumes ≡ length (counted_volumes files)) }
        ensures segments { self.now.standing ≡ IsOpen → Told (D.state self.now.disk) (λ files. result.segments ≡ length (numbers files)) }
        ensures snapshot { self.now.standing ≡ IsOpen → Told (D.state self.now.disk) (IsNewestNumber result.snapshot) }
        ensures not_open { self.now.standing ≢ IsOpen → (result.volumes ≡ 0) × (result.segments ≡ 0) × (result.snapshot ≡ 0) }
        ensures step { IsStep D.state self.now call.Report (reply.Told result) self.now }
    {
        Report {
            standing: self.standing,
            fence: if self.standing == Standing::Open {
                self.store.present_fence()
            } else {
                0
            },
            buffered: self.store.buffered_points(),
            segments: self.store.segments(),
            snapshot: self.store.newest_snapshot(),
            volumes: self.store.volumes_known(),
        }
    }

    /// What it has done since it was made. No call but `tick`, `flush`, `snapshot` and `merge` changes it, and none of these where it
    /// was refused. It takes no memory.
    pub fn work(&self) -> Work
        ensures { result ≡ self.now.work }
    {
        self.work
    }

    /// The process stops here and starts again: the machine stands at Boot, over what its disk kept.
    ///
    /// # Errors
    ///
    /// A fault, after which the machine is closed, or want of memory, which leaves it as it was. The files stay.
    pub fn restart(&mut self, pick: u64) -> Result<(), Reason>
        ensures ok { OnOk result (self.new ≡ shut_machine IsBoot self.old self.new.disk) }
        ensures memory { IsErrOf result reason.Memory → self.new ≡ record self.old { disk = self.new.disk } }
        ensures fault { IsErrOf result reason.Disk → self.new ≡ shut_machine IsDown self.old self.new.disk }
        ensures err { IfErr result IsOwn }
        ensures restarts { RestartsTo result (D.state self.old.disk) (D.state self.new.disk) }
        ensures step { IsStep D.state self.old call.Restart (reply_by (λ _. reply.Done) result) self.new }
    {
        if let Err(why) = self.store.restart(pick) {
            return Err(self.refused(why));
        }
        self.standing = Standing::Boot;
        Ok(())
    }

    /// The disk. Takes no memory.
    pub fn into_disk(self) -> D
        ensures { result ≡ self.disk }
    {
        self.store.into_disk()
    }
}
