ghost use Rattle.std.specs.Prelude.{◌≡◌, ◌≢◌, ℕ, ◌-◌, ◌<◌, ◌≤◌, true, false, List, None, max, length, IfOk, IfErr, OnOk, OnErr, IsErrOf};
ghost use Rattle.std.specs.List.{All};
ghost use Rattle.std.specs.Option.{option_copied};
ghost use Rattle.std.specs.FinMap as finite;
ghost use Rattle.m3_model.specs.Answers.{HasPoint, IsAnswer};
ghost use Rattle.m3_model.specs.Contents.{raised, content_of};
ghost use Rattle.m3_model.specs.Reads.{IsOrdered};
ghost use Rattle.m3_model.specs.declared.limits.TheConstants.{MOST_REPLICA_POINTS};
ghost use Rattle.m3_model.specs.declared.point.Point.{Point};
ghost use Rattle.m3_outside.specs.Causes.{CountsFaults};
ghost use Rattle.m3_outside.specs.DiskState.{DiskState, Told, EachImage, Elapses, Becomes};
ghost use Rattle.m3_outside.specs.DiskCalls.{LeavesFiles, Restarts};
ghost use Rattle.m3_outside.specs.Files.{Stays};
ghost use Rattle.m3_outside.specs.declared.disk_err.DiskErr.TheVariants.{Failed as DiskFailed, Memory as WantOfMemory};
ghost use Rattle.store_log.specs.listed_volumes.block_buffer.Held.{without, has_expired};
ghost use Rattle.store_log.specs.first_points.Firsts.{IsPageOf};
ghost use Rattle.store_log.specs.listed_volumes.commit_log.Contents.{numbers as numbers_in, next_after};
ghost use Rattle.store_log.specs.listed_volumes.commit_log.LogEnd.{NoneFrom};
ghost use Rattle.store_log.specs.listed_volumes.wire_bytes.Entries.{IsBounded};
ghost use Rattle.store_log.specs.listed_volumes.shard_files.Gains.{Brings, nothing, a_point, a_fence, a_tenure};
ghost use Rattle.shard_open.specs.Told.{AreApart, MayBeUnsound};
ghost use Rattle.store_log.specs.listed_volumes.shard_files.Keeps.{HoldContent, Rearranges};
ghost use Rattle.store_log.specs.listed_volumes.shard_files.Once.{HeldOnce};
ghost use Rattle.store_log.specs.listed_volumes.shard_files.Parts.{KnownVolume, VolumesAre, counted_volumes, IsNewestNumber};
ghost use Rattle.store_log.specs.listed_volumes.shard_files.Steps.{next_snapshot};
ghost use Rattle.store_log.specs.listed_volumes.shard_files.declared.load_err.LoadErr.TheVariants as failures;
ghost use Rattle.store_log.specs.listed_volumes.fileset_read.Volumes.{IsUndamaged};
ghost use Rattle.store_log.specs.listed_volumes.fileset_read.declared.file_err.FileErr.TheVariants as unread;
ghost use Rattle.shard_open.specs.Loads.{AreOpened};
ghost use Rattle.store_log.specs.joined_reads.Beside.{risen_in};
ghost use Rattle.store_log.specs.Whole.{BringsWhole, of_points};
ghost use Rattle.shard_store.specs.Flushes.{AreFlushed, HasFlushed, IsPartFlushed};
ghost use Rattle.shard_store.specs.Merges.{HasMerged};
ghost use Rattle.shard_store.specs.OneSnapshot.{HasOneSnapshot};
ghost use Rattle.shard_store.specs.Openings.{beside_volumes};
ghost use Rattle.shard_store.specs.Stores.{closed_over, HoldsOpened};
ghost use Rattle.shard_store.specs.Ticks.{HasTicked};

use crate::opened::Opened;
use crate::settle::take_in;
use m3_model::{Key, Page, Pick, Point, Rules, Seq, Series};
use m3_outside::{Disk, DiskErr};
use shard_open::Loaded;
use shard_open::load::load;
use std::alloc::Global;
use std::marker::Model;
use store_log::begin_log;
use store_log::of_fileset_read::FileErr;
use store_log::of_listed_volumes::RowCache;
use store_log::of_shard_files::LoadErr;
use store_log::of_snapshot_steps::Counts;

/// One replica's points of one shard, on its disk and, while it is open, those of them in memory that no volume has. Each put,
/// fence and tenure is in the replica's commit log, synced, before it is acknowledged.
///
/// While it is open, each stop leaves all that it has: see `images_hold`. So a fault closes it, since what a stop then leaves
/// isn't known.
///
/// See M3DB's pages "Storage Engine" and "Commit Logs and Snapshot Files".
pub struct Store<D: Disk> {
    alloc: Global,
    disk: D,
    opened: Option<Opened>,
}

impl<D: Disk> Drop for Store<D> {
    fn drop(self) {
        let Store {
            alloc: _,
            disk: _,
            opened: _,
        } = self;
    }
}

impl<D: Disk> Model for Store<D> {
    ghost use Rattle.shard_store.specs.Stores.{StoreState, store_code};

    ghost Value = { StoreState D };

    ghost coded = { store_code D.code };

    ghost use Rattle.shard_store.specs.StoreParts.{state_of, IsKept};

    ghost view = { λ s. state_of s.disk s.opened };

    ghost invariant = { λ s. IsKept s.opened (D.state s.disk) };
}

// Forgets what is in memory where the disk failed, and hands on what was said.
fn close_after<T>(opened: &mut Option<Opened>, said: Result<T, DiskErr>) -> Result<T, DiskErr>
    ensures said { result ≡ said }
    ensures closed { IsErrOf said DiskFailed → opened.new ≡ None }
    ensures stays { ¬ (IsErrOf said DiskFailed) → opened.new ≡ opened.old }
{
    if let Err(DiskErr::Failed) = &said {
        drop(opened.take());
    }
    said
}

// Forgets what is in memory where the disk failed or a file isn't what it is to be, and hands on what was said.
fn close_unless<T>(opened: &mut Option<Opened>, said: Result<T, FileErr>) -> Result<T, FileErr>
    ensures said { result ≡ said }
    ensures closed { IfErr said (λ why. why ≢ unread.Memory → opened.new ≡ None) }
    ensures ok { OnOk said (opened.new ≡ opened.old) }
    ensures memory { IsErrOf said unread.Memory → opened.new ≡ opened.old }
{
    match &said {
        Ok(_) | Err(FileErr::Memory) => {}
        Err(_) => drop(opened.take()),
    }
    said
}

impl<D: Disk> Store<D> {
    /// A closed store over the disk. Takes no memory.
    pub fn new(alloc: Global, disk: D) -> Store<D>
        ensures { result ≡ closed_over disk }
    {
        Store {
            alloc,
            disk,
            opened: None,
        }
    }

    /// Syncs the files and reads what they hold, as `load`. The store stays as it is.
    pub fn load(&mut self) -> Result<Loaded, LoadErr>
        requires { self.old.open_ ≡ false }
        ensures closed { self.new ≡ record self.old { disk = self.new.disk } }
        ensures ok { IfOk result (λ l. Told (D.state self.new.disk) (HeldOnce l.points l.tenure l.fence)) }
        ensures volumes { IfOk result (λ l. Told (D.state self.new.disk) (AreOpened l.volumes)) }
        ensures snapshot { IfOk result (λ l. Told (D.state self.new.disk) (IsNewestNumber l.snapshot)) }
        ensures segments { IfOk result (λ l. Told (D.state self.new.disk) (λ files. l.segments ≡ length (numbers_in files))) }
        ensures only { IfOk result (λ _. EachImage (D.state self.new.disk) (λ c. c ≡ (D.state self.new.disk).files)) }
        ensures fresh { IfOk result (λ l. Told (D.state self.new.disk) (NoneFrom l.next_segment)) }
        ensures order { IfOk result (λ l. l.tenure ≤ l.fence) }
        ensures err { IfErr result (λ e. Told (D.state self.old.disk) (λ files. MayBeUnsound files e)) }
        ensures apart { IfErr result AreApart }
        ensures any_moment { (D.state self.old.disk).tells ≡ true → Elapses Stays (D.state self.old.disk) (D.state self.new.disk) }
        ensures files { (D.state self.old.disk).tells ≡ true → (D.state self.new.disk).files ≡ (D.state self.old.disk).files }
        ensures tells { (D.state self.new.disk).tells ≡ (D.state self.old.disk).tells }
        ensures faults { CountsFaults (IsErrOf result failures.Disk) (D.state self.old.disk).faults (D.state self.new.disk).faults }
    {
        load(self.alloc, &mut self.disk)
    }

    /// Takes those of the points that were loaded into memory that no volume has, and begins a fresh segment of the log.
    ///
    /// # Errors
    ///
    /// A fault: the files hold what they held. Want of memory, always where the points have more than `MOST_REPLICA_POINTS`
    /// keys: the files are as they were. The store stays closed.
    pub fn open(&mut self, loaded: &Loaded) -> Result<(), DiskErr>
        requires closed { self.old.open_ ≡ false }
        requires held { Told (D.state self.old.disk) (HeldOnce loaded.now.points loaded.now.tenure loaded.now.fence) }
        requires only { EachImage (D.state self.old.disk) (λ c. c ≡ (D.state self.old.disk).files) }
        requires fresh { Told (D.state self.old.disk) (NoneFrom loaded.now.next_segment) }
        requires volumes { Told (D.state self.old.disk) (AreOpened loaded.now.volumes) }
        requires order { loaded.now.tenure ≤ loaded.now.fence }
        requires segments { Told (D.state self.old.disk) (λ files. loaded.now.segments ≡ length (numbers_in files)) }
        requires snapshot { Told (D.state self.old.disk) (IsNewestNumber loaded.now.snapshot) }
        ensures ok { OnOk result (self.new ≡ record { disk = self.new.disk; open_ = true; buffered = beside_volumes loaded.now; content = self.new.content; tenure = loaded.now.tenure; fence = loaded.now.fence }) }
        ensures content { (D.state self.old.disk).tells ≡ true → OnOk result (self.new.content ≡ content_of loaded.now.points) }
        ensures err { OnErr result (self.new ≡ record self.old { disk = self.new.disk }) }
        ensures unchanged { (D.state self.old.disk).tells ≡ true → IsErrOf result WantOfMemory → Becomes (λ files. files) (D.state self.old.disk) (D.state self.new.disk) }
        ensures disk { Brings nothing result (D.state self.old.disk) (D.state self.new.disk) }
    {
        let taken = take_in(self.alloc, loaded)?;
        let (held, volumes) = taken;
        let log = match begin_log(&mut self.disk, loaded.next_segment) {
            Ok(log) => log,
            Err(e) => {
                drop(held);
                drop(volumes);
                return Err(e);
            }
        };
        let opened = Opened {
            log,
            held,
            volumes,
            cache: RowCache::new(),
            tenure: loaded.tenure,
            fence: loaded.fence,
            counts: Counts {
                missing: loaded.next_segment.saturating_sub(loaded.segments),
                snapshot: loaded.snapshot,
            },
            bytes: Vec::new(self.alloc),
        };
        drop(self.opened.replace(opened));
        Ok(())
    }

    /// The tenure is in the log, if none was that isn't below it. A tenure is a fence too.
    ///
    /// # Errors
    ///
    /// A fault, after which a stop may leave the tenure or not, and the store is closed. Want of memory, which leaves the
    /// store and the files as they were.
    pub fn begin(&mut self, tenure: u64) -> Result<(), DiskErr>
        requires open_ { self.old.open_ ≡ true }
        ensures ok { OnOk result (self.new ≡ record { disk = self.new.disk; open_ = true; buffered = self.old.buffered; content = self.old.content; tenure = max self.old.tenure tenure; fence = max self.old.fence tenure }) }
        ensures memory { IsErrOf result WantOfMemory → self.new ≡ record self.old { disk = self.new.disk } }
        ensures unchanged { (D.state self.old.disk).tells ≡ true → IsErrOf result WantOfMemory → Becomes (λ files. files) (D.state self.old.disk) (D.state self.new.disk) }
        ensures fault { IsErrOf result DiskFailed → self.new ≡ closed_over self.new.disk }
        ensures disk { Brings (a_tenure tenure) result (D.state self.old.disk) (D.state self.new.disk) }
    {
        let opened = self.opened.as_mut().unwrap();
        let said = opened.begin(&mut self.disk, tenure);
        close_after(&mut self.opened, said)
    }

    /// The fence is in the log, if none was that isn't below it.
    ///
    /// # Errors
    ///
    /// A fault, after which a stop may leave the fence or not, and the store is closed. Want of memory, which leaves the store
    /// and the files as they were.
    pub fn fence(&mut self, version: u64) -> Result<(), DiskErr>
        requires open_ { self.old.open_ ≡ true }
        ensures ok { OnOk result (self.new ≡ record { disk = self.new.disk; open_ = true; buffered = self.old.buffered; content = self.old.content; tenure = self.old.tenure; fence = max self.old.fence version }) }
        ensures memory { IsErrOf result WantOfMemory → self.new ≡ record self.old { disk = self.new.disk } }
        ensures unchanged { (D.state self.old.disk).tells ≡ true → IsErrOf result WantOfMemory → Becomes (λ files. files) (D.state self.old.disk) (D.state self.new.disk) }
        ensures fault { IsErrOf result DiskFailed → self.new ≡ closed_over self.new.disk }
        ensures disk { Brings (a_fence version) result (D.state self.old.disk) (D.state self.new.disk) }
    {
        let opened = self.opened.as_mut().unwrap();
        let said = opened.fence(&mut self.disk, version);
        close_after(&mut self.opened, said)
    }

    /// Joins the point, of which the higher value stays at its key, and has it in the log. Its memory is taken before the
    /// log's step. It costs logarithmic time in the points held, beside the log's step; a series that is new costs as much
    /// for each of its tags.
    ///
    /// # Errors
    ///
    /// A fault, after which a stop may leave the point or not, and the store is closed. Want of memory, always where there are
    /// `MOST_REPLICA_POINTS` points and none stands at the key, which leaves the store and the files as they were.
    pub fn put(&mut self, point: &Point) -> Result<(), DiskErr>
        requires open_ { self.old.open_ ≡ true }
        requires bounded { IsBounded point.now }
        ensures ok { OnOk result (self.new ≡ record self.old { disk = self.new.disk; buffered = raised self.old.buffered point.now; content = raised self.old.content point.now }) }
        ensures memory { IsErrOf result WantOfMemory → self.new ≡ record self.old { disk = self.new.disk } }
        ensures unchanged { (D.state self.old.disk).tells ≡ true → IsErrOf result WantOfMemory → Becomes (λ files. files) (D.state self.old.disk) (D.state self.new.disk) }
        ensures fault { IsErrOf result DiskFailed → self.new ≡ closed_over self.new.disk }
        ensures disk { Brings (a_point point.now) result (D.state self.old.disk) (D.state self.new.disk) }
    {
        let opened = self.opened.as_mut().unwrap();
        let said = opened.put(&mut self.disk, point);
        close_after(&mut self.opened, said)
    }

    /// The points with `from <= t < to` of the series that the pick asks for: those in memory, as `HeldPoints::fetch` finds them,
    /// joined with those of the volumes, as `listed_volumes::fetch` does. Identifiers ascend strictly by bytes, times ascend
    /// strictly, and no series is empty. Of one identifier a piece of the index and one record are read of each volume whose
    /// block has a time in the range, and neither where its bloom filter or summaries exclude it; these two are in memory. For
    /// matchers the data of each such volume is read in one piece, but for the volumes that were matched last, of 64 at most: their
    /// rows are in memory then.
    ///
    /// # Errors
    ///
    /// A fault, and damage only where the disk doesn't tell what it holds: these close the store. Want of memory, which leaves it
    /// as it was. In any case the files, and what a stop leaves of them, are as they were.
    pub fn fetch(&mut self, pick: &Pick, from: u64, to: u64) -> Result<Seq<Series>, FileErr>
        requires open_ { self.old.open_ ≡ true }
        ensures ok { OnOk result (self.new ≡ record self.old { disk = self.new.disk }) }
        ensures answer { (D.state self.old.disk).tells ≡ true → IfOk result (IsAnswer self.old.content pick.now from to) }
        ensures ordered { IfOk result IsOrdered }
        ensures memory { IsErrOf result unread.Memory → self.new ≡ record self.old { disk = self.new.disk } }
        ensures closed { IfErr result (λ why. why ≢ unread.Memory → self.new ≡ closed_over self.new.disk) }
        ensures sound { (D.state self.old.disk).tells ≡ true → IfErr result IsUndamaged }
        ensures leaves { LeavesFiles (IsErrOf result unread.Disk) (D.state self.old.disk) (D.state self.new.disk) }
    {
        let opened = self.opened.as_mut().unwrap();
        let said = opened.fetch(self.alloc, &mut self.disk, pick, from, to);
        close_unless(&mut self.opened, said)
    }

    /// The page of the first points above the key, of those in memory joined with those of the volumes: the first 64, or all that
    /// there are. It goes on from the key of its last point exactly where a point stands above that. Without a key it has the first
    /// points of all.
    ///
    /// Of each volume whose rows aren't in memory the data is read in one piece, but of those of namespaces before the key's: its rows
    /// are in memory then, of 64 volumes at most, those that were read last. So a stream of pages, each from the key from which the
    /// one before goes on, reads each volume once where these are no more. Beside that a page costs the logarithm of the points of each
    /// volume, and for each of its points that of the points in memory.
    ///
    /// # Errors
    ///
    /// A fault, and damage only where the disk doesn't tell what it holds: these close the store. Want of memory, which leaves it
    /// as it was. In any case the files, and what a stop leaves of them, are as they were.
    pub fn page(&mut self, after: Option<&Key>) -> Result<Page, FileErr>
        requires open_ { self.old.open_ ≡ true }
        ensures ok { OnOk result (self.new ≡ record self.old { disk = self.new.disk }) }
        ensures page { (D.state self.old.disk).tells ≡ true → IfOk result (IsPageOf self.old.content (option_copied after.entry)) }
        ensures memory { IsErrOf result unread.Memory → self.new ≡ record self.old { disk = self.new.disk } }
        ensures closed { IfErr result (λ why. why ≢ unread.Memory → self.new ≡ closed_over self.new.disk) }
        ensures sound { (D.state self.old.disk).tells ≡ true → IfErr result IsUndamaged }
        ensures leaves { LeavesFiles (IsErrOf result unread.Disk) (D.state self.old.disk) (D.state self.new.disk) }
    {
        let opened = self.opened.as_mut().unwrap();
        let said = opened.page(self.alloc, &mut self.disk, after);
        close_unless(&mut self.opened, said)
    }

    /// Joins the points of a page, of which the higher value stays at a key. Those that are new to the content, or
    /// raise what stands at their key in memory and volumes, are in the log, all in one entry, and in memory; of the others nothing
    /// is done. Answers how many these are. Their memory is taken before the log's step.
    ///
    /// It costs a read of one series at one time for each of the points, and beside the log's step as much as a put for each that is
    /// logged.
    ///
    /// # Errors
    ///
    /// A fault, after which a stop may leave all of the points or none, and the store is closed; damage only where the disk doesn't
    /// tell what it holds, which closes it, too. Want of memory, always where there would be more than `MOST_REPLICA_POINTS` points
    /// in memory, and where the page has more points than one may have or one that is out of bounds, which only a disk that doesn't
    /// tell what it holds can have given; it leaves the store, and what a stop leaves holds what it held.
    pub fn merge(&mut self, page: &Page) -> Result<u64, FileErr>
        requires open_ { self.old.open_ ≡ true }
        ensures ok { IfOk result (HasMerged D.state page.now.points self.old self.new) }
        ensures memory { IsErrOf result unread.Memory → self.new ≡ record self.old { disk = self.new.disk } }
        ensures closed { IfErr result (λ why. why ≢ unread.Memory → self.new ≡ closed_over self.new.disk) }
        ensures sound { (D.state self.old.disk).tells ≡ true → IfErr result IsUndamaged }
        ensures disk { BringsWhole (of_points (risen_in self.old.content page.now.points)) (IsErrOf result unread.Disk) result (D.state self.old.disk) (D.state self.new.disk) }
    {
        let opened = self.opened.as_mut().unwrap();
        let said = opened.merge(self.alloc, &mut self.disk, page.points.as_slice());
        close_unless(&mut self.opened, said)
    }

    /// Writes a volume for each block that may be flushed and has points in memory, in order: one whose writes are all over,
    /// `start + block + past <= now` by the rules of its namespace. The volume has the points of the block in memory and those of
    /// all its volumes, under the next number; then these points leave memory and the older volumes of the block are taken away.
    /// Answers how many volumes it wrote. Block sizes are at least 1, as in all rules within their limits.
    ///
    /// It costs in proportion to the points of the blocks that are flushed, in memory and in volumes, times the logarithm of all in
    /// memory.
    ///
    /// # Errors
    ///
    /// A fault, and damage only where the disk doesn't tell what it holds: these close the store. Want of memory, also where a
    /// block has more than a volume may have: the first few blocks are flushed then. In any case a stop at any moment leaves all
    /// that the store had.
    pub fn flush(&mut self, rules: &Rules) -> Result<u64, FileErr>
        requires open_ { self.old.open_ ≡ true }
        requires sizes { All (λ space. 0 < space.block) rules.now.spaces }
        ensures ok { IfOk result (λ n. (blocks : List (ℕ × ℕ)) × AreFlushed rules.entry.now self.old.buffered blocks × HasFlushed D.state rules.entry.now blocks self.old self.new × (n ≡ length blocks)) }
        ensures memory { IsErrOf result unread.Memory → IsPartFlushed D.state self.old self.new }
        ensures closed { IfErr result (λ why. why ≢ unread.Memory → self.new ≡ closed_over self.new.disk) }
        ensures sound { (D.state self.old.disk).tells ≡ true → IfErr result IsUndamaged }
        ensures disk { Rearranges self.old.content (IsErrOf result unread.Disk) (D.state self.old.disk) (D.state self.new.disk) }
    {
        let opened = self.opened.as_mut().unwrap();
        let said = opened.flush(self.alloc, &mut self.disk, rules);
        close_unless(&mut self.opened, said)
    }

    /// Drops the expired points from memory, and takes away each volume whose block has expired as a whole,
    /// `start + size + retention <= now` by the rules of its namespace. Answers how many keys the content lost: one at which a
    /// volume that stays has a lower value isn't lost.
    ///
    /// It reads the volumes that go and, where anything goes, those of the namespace that have times which have expired.
    ///
    /// # Errors
    ///
    /// A fault, and damage only where the disk doesn't tell what it holds: these close the store. Want of memory, which leaves the
    /// store and the files as they were. In any case a stop at any moment leaves each point of the store that hasn't expired.
    pub fn tick(&mut self, rules: &Rules) -> Result<u64, FileErr>
        requires open_ { self.old.open_ ≡ true }
        ensures ok { OnOk result (HasTicked D.state rules.entry.now self.old self.new) }
        ensures lost { (D.state self.old.disk).tells ≡ true → IfOk result (λ n. n ≡ finite.len self.old.content - finite.len self.new.content) }
        ensures there { OnOk result (Told (D.state self.old.disk) (HoldContent self.new.content)) }
        ensures stays { (D.state self.old.disk).tells ≡ true → OnOk result ((p : Point) → HasPoint (without self.old.content (has_expired rules.entry.now)) p → HasPoint self.new.content p) }
        ensures memory { IsErrOf result unread.Memory → self.new ≡ record self.old { disk = self.new.disk } }
        ensures unchanged { (D.state self.old.disk).tells ≡ true → IsErrOf result unread.Memory → Becomes (λ files. files) (D.state self.old.disk) (D.state self.new.disk) }
        ensures closed { IfErr result (λ why. why ≢ unread.Memory → self.new ≡ closed_over self.new.disk) }
        ensures sound { (D.state self.old.disk).tells ≡ true → IfErr result IsUndamaged }
        ensures disk { Rearranges (without self.old.content (has_expired rules.entry.now)) (IsErrOf result unread.Disk) (D.state self.old.disk) (D.state self.new.disk) }
    {
        let opened = self.opened.as_mut().unwrap();
        let said = opened.tick(self.alloc, &mut self.disk, rules);
        close_unless(&mut self.opened, said)
    }

    /// Takes a snapshot, and gives its number: one above those of all snapshots of which a file was there, complete or not.
    /// It has the points in memory, the tenure and the fence. A fresh segment begins first; when the snapshot stands, all
    /// other segments of the log are taken away, and then all other snapshots.
    ///
    /// It costs in proportion to the points in memory, times their logarithm.
    ///
    /// # Errors
    ///
    /// A fault closes the store. Want of memory leaves it as it was, also where a number is at its limit, or where a point in
    /// memory is out of bounds, which only a disk that doesn't tell what it holds can have given. The snapshot may stand then,
    /// beside older ones and older segments. In any case a stop at any moment leaves all that the store had.
    pub fn snapshot(&mut self) -> Result<u64, DiskErr>
        requires open_ { self.old.open_ ≡ true }
        ensures ok { OnOk result (self.new ≡ record self.old { disk = self.new.disk }) }
        ensures number { (D.state self.old.disk).tells ≡ true → IfOk result (λ n. n ≡ next_snapshot (D.state self.old.disk).files) }
        ensures saved { IfOk result (λ n. EachImage (D.state self.new.disk) (HasOneSnapshot n (next_after (numbers_in (D.state self.old.disk).files)) self.old.buffered self.old.tenure self.old.fence)) }
        ensures volumes { (D.state self.old.disk).tells ≡ true → ¬ (IsErrOf result DiskFailed) → (known : List KnownVolume) → VolumesAre known (D.state self.old.disk).files → VolumesAre known (D.state self.new.disk).files }
        ensures memory { IsErrOf result WantOfMemory → self.new ≡ record self.old { disk = self.new.disk } }
        ensures fault { IsErrOf result DiskFailed → self.new ≡ closed_over self.new.disk }
        ensures disk { Rearranges self.old.content (IsErrOf result DiskFailed) (D.state self.old.disk) (D.state self.new.disk) }
    {
        let opened = self.opened.as_mut().unwrap();
        let said = opened.snapshot(self.alloc, &mut self.disk);
        close_after(&mut self.opened, said)
    }

    /// How many points it has in memory, one at each key: never more than `MOST_REPLICA_POINTS`. 0 of a closed store.
    pub fn buffered_points(&self) -> u64
        ensures counted { result ≡ finite.len self.now.buffered }
        ensures limit { result ≤ MOST_REPLICA_POINTS }
    {
        match &self.opened {
            Some(opened) => opened.held.len(),
            None => 0,
        }
    }

    /// How many volumes count on its disk. 0 of a closed store.
    pub fn volumes_known(&self) -> u64
        ensures open_ { self.now.open_ ≡ true → Told (D.state self.now.disk) (λ files. result ≡ length (counted_volumes files)) }
        ensures closed { self.now.open_ ≡ false → result ≡ 0 }
    {
        match &self.opened {
            Some(opened) => opened.volumes.len() as u64,
            None => 0,
        }
    }

    /// How many segments the log on its disk has. 0 of a closed store.
    pub fn segments(&self) -> u64
        ensures open_ { self.now.open_ ≡ true → Told (D.state self.now.disk) (λ files. result ≡ length (numbers_in files)) }
        ensures closed { self.now.open_ ≡ false → result ≡ 0 }
    {
        match &self.opened {
            Some(opened) => opened.segments(),
            None => 0,
        }
    }

    /// The number of the newest snapshot that counts on its disk, and 0 where none counts. 0 of a closed store.
    pub fn newest_snapshot(&self) -> u64
        ensures open_ { self.now.open_ ≡ true → Told (D.state self.now.disk) (IsNewestNumber result) }
        ensures closed { self.now.open_ ≡ false → result ≡ 0 }
    {
        match &self.opened {
            Some(opened) => opened.counts.snapshot,
            None => 0,
        }
    }

    /// The greatest fence or tenure; 0 where there is none, and of a closed store.
    pub fn present_fence(&self) -> u64
        ensures { result ≡ self.now.fence }
    {
        match &self.opened {
            Some(opened) => opened.fence,
            None => 0,
        }
    }

    /// Forgets what is in memory. The files stay. Takes no memory.
    pub fn close(&mut self)
        ensures { self.new ≡ closed_over self.old.disk }
    {
        drop(self.opened.take());
    }

    /// Restarts the disk, as after a stop of the process, and closes the store.
    ///
    /// # Errors
    ///
    /// A fault or want of memory. The store, its files and images stay.
    pub fn restart(&mut self, pick: u64) -> Result<(), DiskErr>
        ensures ok { OnOk result (self.new ≡ closed_over self.new.disk) }
        ensures err { OnErr result (self.new ≡ record self.old { disk = self.new.disk }) }
        ensures restarts { Restarts result (D.state self.old.disk) (D.state self.new.disk) }
    {
        self.disk.restart(pick)?;
        let forgotten = self.opened.take();
        drop(forgotten);
        Ok(())
    }

    /// The disk. Takes no memory.
    pub fn into_disk(self) -> D
        ensures { result ≡ self.disk }
    {
        let Store {
            alloc: _,
            disk,
            opened,
        } = self;
        drop(opened);
        disk
    }

    /// What each stop leaves of an open store has each point of its content, its very tenure and its very fence.
    pub fn images_hold(&self)
        ensures { self.now.open_ ≡ true → EachImage (D.state self.now.disk) (HoldsOpened self.now.content self.now.tenure self.now.fence) }
    {
        let _opened = &self.opened;
    }
}
