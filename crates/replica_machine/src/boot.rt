ghost use Rattle.std.specs.Prelude.{◌≡◌, ◌≢◌, ◌⊎◌, ◌<◌, ◌≤◌, ◌↔◌, ℕ, [], max, length, true, Some, OnOk, OnErr, IfOk, IfErr, IsErrOf};
ghost use Rattle.m3_model.specs.Contents.{content_of};
ghost use Rattle.m3_model.specs.declared.reason.Reason.TheVariants as reason;
ghost use Rattle.m3_model.specs.declared.replica.Standing.TheVariants.{Down as IsDown, Boot as IsBoot, Open as IsOpen};
ghost use Rattle.m3_outside.specs.DiskState.{DiskState, Told, EachImage, Becomes};
ghost use Rattle.shard_store.specs.commit_log.Contents.{numbers};
ghost use Rattle.shard_store.specs.commit_log.LogEnd.{NoneFrom};
ghost use Rattle.m3_model.specs.declared.reason.Damage.{Damage as Wrong};
ghost use Rattle.shard_store.specs.shard_files.FilesHold.{IsSound};
ghost use Rattle.shard_store.specs.shard_files.Gains.{a_tenure};
ghost use Rattle.shard_store.specs.shard_files.Once.{HeldOnce};
ghost use Rattle.shard_store.specs.shard_files.Parts.{IsNewestNumber};
ghost use Rattle.shard_store.specs.Loads.{AreOpened};
ghost use Rattle.cluster_core.specs.declared.event.StepCall.TheVariants as call;
ghost use Rattle.cluster_core.specs.declared.event.StepReply.TheVariants as reply;
ghost use Rattle.replica_machine.specs.Machines.{IsOwn};
ghost use Rattle.replica_machine.specs.Damages.{IsDamageOf, IsFileDamage};
ghost use Rattle.replica_machine.specs.Boots.{BeganFrom, BeganAgain, HoldsHigher, MayBeUnowned, MayNotLoad, IsRefused, IsBootReason};
ghost use Rattle.replica_machine.specs.Steps.{reply_by, IsStep, BringsTo};

use crate::damage::{damaged_digest, damaged_form};
use crate::machine::{Began, Machine, fall};
use crate::opening::open_store;
use m3_model::{Damage, Memory, Reason, Seq, Standing};
use m3_outside::{Disk, DiskErr};
use shard_store::Loaded;
use shard_store::of_shard_files::LoadErr;

impl<D: Disk> Machine<D> {
    /// Begins a tenure. From Boot it syncs and loads the files, begins a fresh segment of the log, has the tenure in it where
    /// the files have a lower one, and is open, with a fence of at least the tenure. An open machine takes the tenure, has it in
    /// the log where it is above all that it began with before, and gives no points.
    ///
    /// # Errors
    ///
    /// `Down`. `NotOwned`, exactly where a higher tenure was begun, or the files were read and hold one: no segment is begun
    /// then. Want of memory, after which a segment may have been begun. Each of these leaves the machine as it was, and where
    /// the files weren't read its disk too. `Disk`, by a fault, and `Corrupt`, where a volume that counts, the newest snapshot that
    /// counts or a segment is damaged: it names the first such file, as `load` tells it. Then the machine is closed.
    pub fn boot(&mut self, tenure: u64) -> Result<Began, Reason>
        ensures began { self.old.standing ≡ IsBoot → IfOk result (BeganFrom D.state tenure self.old self.new) }
        ensures again { self.old.standing ≡ IsOpen → IfOk result (BeganAgain tenure self.old self.new) }
        ensures down { IsErrOf result reason.Down ↔ (self.old.standing ≡ IsDown) }
        ensures unowned { IsErrOf result reason.NotOwned → MayBeUnowned D.state tenure self.old }
        ensures unowned_always { self.old.standing ≢ IsDown → tenure < self.old.begun → IsErrOf result reason.NotOwned }
        ensures unowned_files { (D.state self.old.disk).tells ≡ true → IsErrOf result reason.NotOwned → Becomes (λ files. files) (D.state self.old.disk) (D.state self.new.disk) }
        ensures plain { (self.old.standing ≡ IsDown) ⊎ (tenure < self.old.begun) → self.new ≡ self.old }
        ensures sound { (damage : Wrong) → IsErrOf result (reason.Corrupt damage) → Told (D.state self.old.disk) (λ files. ¬ IsSound files) }
        ensures damage { (damage : Wrong) → IsErrOf result (reason.Corrupt damage) → Told (D.state self.old.disk) (IsDamageOf damage) }
        ensures form { (damage : Wrong) → IsErrOf result (reason.Corrupt damage) → IsFileDamage damage }
        ensures reasons { IfErr result IsBootReason }
        ensures err { IfErr result (IsRefused self.old self.new) }
        ensures disk { BringsTo (a_tenure tenure) result (D.state self.old.disk) (D.state self.new.disk) }
        ensures step { IsStep D.state self.old (call.Begin tenure) (reply_by (λ began. reply.Began began.fence began.points) result) self.new }
    {
        if let Standing::Down = self.standing {
            return Err(Reason::Down);
        }
        if tenure < self.begun {
            return Err(Reason::NotOwned);
        }
        match self.standing {
            Standing::Boot => self.begin(tenure),
            _ => self.begin_again(tenure),
        }
    }

    // From Boot, where no higher tenure was begun.
    fn begin(&mut self, tenure: u64) -> Result<Began, Reason>
        requires boot { self.old.standing ≡ IsBoot }
        requires high { self.old.begun ≤ tenure }
        ensures began { IfOk result (BeganFrom D.state tenure self.old self.new) }
        ensures not_down { ¬ (IsErrOf result reason.Down) }
        ensures unowned { IsErrOf result reason.NotOwned → Told (D.state self.old.disk) (HoldsHigher tenure) }
        ensures unowned_files { (D.state self.old.disk).tells ≡ true → IsErrOf result reason.NotOwned → Becomes (λ files. files) (D.state self.old.disk) (D.state self.new.disk) }
        ensures damage { (damage : Wrong) → IsErrOf result (reason.Corrupt damage) → Told (D.state self.old.disk) (IsDamageOf damage) }
        ensures form { (damage : Wrong) → IsErrOf result (reason.Corrupt damage) → IsFileDamage damage }
        ensures reasons { IfErr result IsBootReason }
        ensures err { IfErr result (IsRefused self.old self.new) }
        ensures disk { BringsTo (a_tenure tenure) result (D.state self.old.disk) (D.state self.new.disk) }
        ensures step { IsStep D.state self.old (call.Begin tenure) (reply_by (λ began. reply.Began began.fence began.points) result) self.new }
    {
        let loaded = match self.store.load() {
            Ok(loaded) => loaded,
            Err(why) => return Err(self.not_loaded(why)),
        };
        if tenure < loaded.tenure {
            return Err(Reason::NotOwned);
        }
        self.open(tenure, loaded)
    }

    // Of an open machine, where no higher tenure was begun.
    fn begin_again(&mut self, tenure: u64) -> Result<Began, Reason>
        requires open_ { self.old.standing ≡ IsOpen }
        requires high { self.old.begun ≤ tenure }
        ensures again { IfOk result (BeganAgain tenure self.old self.new) }
        ensures err { IfErr result (IsRefused self.old self.new) }
        ensures own { IfErr result IsOwn }
        ensures disk { BringsTo (a_tenure tenure) result (D.state self.old.disk) (D.state self.new.disk) }
        ensures step { IsStep D.state self.old (call.Begin tenure) (reply_by (λ began. reply.Began began.fence began.points) result) self.new }
    {
        if let Err(why) = self.store.begin(tenure) {
            return Err(fall(&mut self.standing, why));
        }
        self.tenure = Some(tenure);
        self.begun = tenure;
        Ok(Began {
            fence: self.store.present_fence(),
            points: Seq::new(self.alloc),
        })
    }

    // With what was loaded, of which the tenure isn't higher.
    fn open(&mut self, tenure: u64, loaded: Loaded) -> Result<Began, Reason>
        requires boot { self.old.standing ≡ IsBoot }
        requires high { self.old.begun ≤ tenure }
        requires not_higher { loaded.tenure ≤ tenure }
        requires held { Told (D.state self.old.disk) (HeldOnce loaded.points loaded.tenure loaded.fence) }
        requires only { EachImage (D.state self.old.disk) (λ c. c ≡ (D.state self.old.disk).files) }
        requires fresh { Told (D.state self.old.disk) (NoneFrom loaded.next_segment) }
        requires volumes { Told (D.state self.old.disk) (AreOpened loaded.volumes) }
        requires order { loaded.tenure ≤ loaded.fence }
        requires segments { Told (D.state self.old.disk) (λ files. loaded.segments ≡ length (numbers files)) }
        requires snapshot { Told (D.state self.old.disk) (IsNewestNumber loaded.snapshot) }
        ensures began { IfOk result (BeganFrom D.state tenure self.old self.new) }
        ensures err { IfErr result (IsRefused self.old self.new) }
        ensures own { IfErr result IsOwn }
        ensures disk { BringsTo (a_tenure tenure) result (D.state self.old.disk) (D.state self.new.disk) }
        ensures step { IsStep D.state self.old (call.Begin tenure) (reply_by (λ began. reply.Began began.fence began.points) result) self.new }
    {
        if let Err(why) = open_store(&mut self.store, &loaded, tenure) {
            return Err(self.refused(why));
        }
        self.standing = Standing::Open;
        self.tenure = Some(tenure);
        self.begun = tenure;
        let fence = self.store.present_fence();
        Ok(Began {
            fence,
            points: loaded.points,
        })
    }

    // What the machine answers where its files couldn't be read: a fault closes it, and so does damage.
    fn not_loaded(&mut self, why: LoadErr) -> Reason
        ensures why { MayNotLoad why result }
        ensures left { IsRefused self.old self.new result }
        ensures disk { self.new.disk ≡ self.old.disk }
    {
        match why {
            LoadErr::Disk => self.refused(DiskErr::Failed),
            LoadErr::Memory => self.refused(DiskErr::Memory),
            LoadErr::Digest { file, kept, found } => {
                self.damaged(damaged_digest(self.alloc, file, kept, found))
            }
            LoadErr::Form { file, at } => self.damaged(damaged_form(self.alloc, file, at)),
        }
    }

    // The same of damage, which closes the machine where there was memory to tell of it.
    fn damaged(&mut self, told: Result<Damage, Memory>) -> Reason
        ensures told { IfOk told (λ damage. result ≡ reason.Corrupt damage) }
        ensures memory { OnErr told (result ≡ reason.Memory) }
        ensures left { IsRefused self.old self.new result }
        ensures disk { self.new.disk ≡ self.old.disk }
    {
        match told {
            Ok(damage) => {
                self.stop();
                Reason::Corrupt(damage)
            }
            Err(_) => Reason::Memory,
        }
    }
}
