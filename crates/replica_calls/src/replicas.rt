ghost use Rattle.std.specs.Prelude.{◌≡◌, ◌↔◌, ◌+◌, ◌<◌, ◌≤◌, length, nat_le, OnOk, OnErr, IfOk, IfErr, IsErr};
ghost use Rattle.std.specs.FinMap as finite;
ghost use Rattle.std.specs.List.{All};
ghost use Rattle.std.specs.Option.{option_copied};
ghost use Rattle.replica_exchange.specs.m3_model.Reads.{space_picked};
ghost use Rattle.replica_exchange.specs.wire_bytes.Entries.{IsBounded};
ghost use Rattle.replica_exchange.specs.cluster_core.Earlier.{HasClock, HasPage, HasSend, HasTenure};
ghost use Rattle.replica_exchange.specs.cluster_core.Replicas.{replica, fresh};
ghost use Rattle.replica_exchange.specs.cluster_core.declared.event.StepCall.TheVariants as call;
ghost use Rattle.replica_exchange.specs.cluster_core.declared.event.StepReply.TheVariants as reply;
ghost use Rattle.event_book.specs.Lists.{most_entries};
ghost use Rattle.replica_exchange.specs.event_trail.Trails.{IsLegalOver, IsLawfulOver};
ghost use Rattle.replica_exchange.specs.MachineCalls.{HasRoom};
ghost use Rattle.replica_exchange.specs.Exchanges.{seen_in, IsNothing, HasAdded};
ghost use Rattle.replica_exchange.specs.Promises.{Begins, Puts, Reads, Pages, Merges, Flushes, Ticks, Saves, Fences, Ends, Stops, Restarts, Reports};
ghost use Rattle.replica_calls.specs.Calls.{first_member, AreMembersOf, MayCall, MayTell, IsNoStep};

use event_book::Full;
use replica_exchange::of_event_trail::{EventView, Trail};
use replica_exchange::of_m3_model::{Key, Page, Pick, Point, Reason, Report, Rules, Seq, Series};
use replica_exchange::of_m3_outside::Disk;
use replica_exchange::{
    CallErr, CallId, Machine, Member, Slot, boot_on, end_on, fence_on, flush_on, merge_on, page_on,
    put_on, read_on, report_on, restart_on, snapshot_on, stop_on, tick_on,
};
use std::alloc::Global;
use std::collections::BTreeMap;
use std::marker::Model;
use std::snapshot::Snapshot;

/// The replicas of a run, each at its slot, with the list of the run's events. Contracts see a finite map from slots to replicas, and
/// the list, which is legal as far as the disks tell. Each machine is that of its slot's replica after these events.
///
/// A call of a replica adds an Ask and the step that answers it, with the machine's own reply; a report adds its step alone. It isn't made
/// where the slot has no replica, nor where the list has no room for these events. Each call takes time in proportion to the logarithm
/// of the number of replicas, beside what it does at the machine; none copies what it is given.
pub struct Replicas<D: Disk> {
    map: BTreeMap<Slot, Member<D>>,
    trail: Trail<D>,
}

impl<D: Disk> Drop for Replicas<D> {
    fn drop(self) {
        let Replicas { map: _, trail: _ } = self;
    }
}

impl<D: Disk> Model for Replicas<D> {
    ghost use Rattle.std.specs.FinMap.{from_sorted};
    ghost use Rattle.replica_exchange.specs.cluster_core.contracts.event.Event as event;
    ghost use Rattle.replica_calls.specs.Calls.{Tracked, tracked_code, IsTracked};

    ghost Value = { Tracked D };

    ghost coded = { tracked_code D.code event.the_row.coded };

    ghost view = { λ r. record { members = from_sorted r.map.entries; events = r.trail } };

    ghost invariant = { λ r. IsTracked D.state r.map r.trail };
}

impl<D: Disk> Replicas<D> {
    /// No replicas yet, and a list that was opened. Takes no memory.
    pub fn new(alloc: Global, trail: Trail<D>) -> Replicas<D>
        requires { 2 ≤ length trail }
        ensures { result ≡ record { members = finite.empty; events = trail } }
    {
        Replicas {
            map: BTreeMap::new(alloc),
            trail,
        }
    }

    /// Makes a machine over the disk and puts it at the slot, of which no step is in the list, in place of one that stands there. Want of
    /// memory changes nothing, and gives the disk back.
    pub fn insert(&mut self, alloc: Global, slot: Slot, disk: D) -> Result<(), D>
        requires { replica slot.node slot.shard self.old.events ≡ fresh }
        ensures ok { OnOk result (self.new ≡ record self.old { members = finite.insert self.old.members slot (first_member disk) }) }
        ensures err { IfErr result (λ back. (back ≡ disk) × (self.new ≡ self.old)) }
    {
        let first = Snapshot::of(&disk);
        let member = Member {
            machine: Machine::new(alloc, disk),
            first,
        };
        match self.map.insert(slot, member) {
            Ok(_) => Ok(()),
            Err(refused) => {
                let (_, back) = refused.value;
                Err(back.machine.into_disk())
            }
        }
    }

    /// Takes the replica at the slot out, if there is one. Takes no memory.
    pub fn take(&mut self, slot: Slot) -> Option<Member<D>>
        ensures taken { result ≡ finite.get self.old.members slot }
        ensures left { self.new ≡ record self.old { members = finite.remove self.old.members slot } }
    {
        self.map.remove(&slot)
    }

    /// The replica at the slot, if there is one. Takes no memory.
    pub fn get(&self, slot: Slot) -> Option<&Member<D>>
        ensures { option_copied result ≡ finite.get self.now.members slot }
    {
        self.map.get(&slot)
    }

    /// What is so of the list and of each replica.
    pub fn know(&self)
        ensures opened { 2 ≤ length self.now.events }
        ensures legal { IsLegalOver D.state self.now.events }
        ensures members { AreMembersOf D.state self.now }
    {
        self.trail.know();
    }

    /// Whether so many more events go in. Takes no memory.
    pub fn has_room(&self, more: u64) -> bool
        ensures { result ≡ nat_le (length self.now.events + more) most_entries }
    {
        self.trail.has_room(more)
    }

    /// Adds an event that no replica makes and that is lawful after the list, and answers its position. Takes no memory.
    ///
    /// # Errors
    ///
    /// Full, exactly where the list has no room. Nothing changes.
    pub fn add(&mut self, event: &EventView) -> Result<u64, Full>
        requires lawful { IsLawfulOver D.state self.old.events event.now }
        requires no_step { IsNoStep event.now }
        ensures ok { IfOk result (λ position. HasAdded IsNothing event.now position (seen_in self.old.events) (seen_in self.new.events)) }
        ensures members { self.new.members ≡ self.old.members }
        ensures err { OnErr result (self.new ≡ self.old) }
        ensures full { IsErr result ↔ (¬ HasRoom 1 self.old.events) }
    {
        self.trail.know();
        self.trail.append(event)
    }

    /// Puts the point on the replica at the slot, as a client's write of this version.
    ///
    /// # Errors
    ///
    /// The replica's reason. `NotOwned` where the slot has no replica, or `Full` where the list has no room for two events: these change
    /// nothing.
    pub fn put(
        &mut self,
        slot: Slot,
        id: CallId,
        rules: &Rules,
        version: u64,
        point: &Point,
    ) -> Result<(), CallErr>
        requires clock { HasClock self.old.events rules.now }
        requires sent { HasSend self.old.events version slot.shard point.now }
        requires space { point.now.ns < length rules.now.spaces }
        requires bounded { IsBounded point.now }
        ensures { MayCall D.state slot (call.Put id.client id.number rules.entry.now version point.now) (λ _. reply.Done) (Puts D.state rules.entry.now point.now) (λ u. u) result self.old self.new }
    {
        match self.map.get_mut(&slot) {
            Some(member) => put_on(member, &mut self.trail, slot, id, rules, version, point),
            None => Err(CallErr::Refused(Reason::NotOwned)),
        }
    }

    /// Has the replica at the slot begin a tenure that a placement gave it: from Boot it loads its files and is open.
    ///
    /// # Errors
    ///
    /// The replica's reason. `NotOwned` where the slot has no replica, or `Full` where the list has no room for two events: these change
    /// nothing.
    pub fn boot(&mut self, slot: Slot, tenure: u64) -> Result<(), CallErr>
        requires tenure { HasTenure self.old.events slot.node slot.shard tenure }
        ensures { MayCall D.state slot (call.Begin tenure) (λ began. reply.Began began.fence began.points) (Begins D.state tenure) (λ _. tt) result self.old self.new }
    {
        match self.map.get_mut(&slot) {
            Some(member) => boot_on(member, &mut self.trail, slot, tenure),
            None => Err(CallErr::Refused(Reason::NotOwned)),
        }
    }

    /// What the replica at the slot answers a client's read of this version: its points with `from <= t < to` that haven't expired, of the
    /// series that are picked, in order.
    ///
    /// # Errors
    ///
    /// The replica's reason. `NotOwned` where the slot has no replica, or `Full` where the list has no room for two events: these change
    /// nothing.
    pub fn read(
        &mut self,
        slot: Slot,
        id: CallId,
        rules: &Rules,
        version: u64,
        pick: &Pick,
        from: u64,
        to: u64,
    ) -> Result<Seq<Series>, CallErr>
        requires clock { HasClock self.old.events rules.now }
        requires space { space_picked pick.now < length rules.now.spaces }
        ensures { MayCall D.state slot (call.Read id.client id.number rules.entry.now version pick.now from to) (λ series. reply.Found series) (Reads D.state rules.entry.now pick.now from to) (λ series. series) result self.old self.new }
    {
        match self.map.get_mut(&slot) {
            Some(member) => read_on(
                member,
                &mut self.trail,
                slot,
                id,
                rules,
                version,
                pick,
                from,
                to,
            ),
            None => Err(CallErr::Refused(Reason::NotOwned)),
        }
    }

    /// Has the replica at the slot give the page of the first points above the key that it holds, the first 64 or all that there are. It goes
    /// on from the key of its last point exactly where a point stands above that; without a key it has the first points of all.
    ///
    /// # Errors
    ///
    /// The replica's reason. `NotOwned` where the slot has no replica, or `Full` where the list has no room for two events: these change
    /// nothing.
    pub fn page(&mut self, slot: Slot, after: Option<&Key>) -> Result<Page, CallErr>
        ensures { MayCall D.state slot (call.Page (option_copied after.entry)) (λ page. reply.Paged page) (Pages D.state (option_copied after.entry)) (λ page. page) result self.old self.new }
    {
        match self.map.get_mut(&slot) {
            Some(member) => page_on(member, &mut self.trail, slot, after),
            None => Err(CallErr::Refused(Reason::NotOwned)),
        }
    }

    /// Has the replica at the slot merge a page that a replica of its shard gave, and answers how many of its points were new to it or
    /// raised what stood at their keys.
    ///
    /// # Errors
    ///
    /// The replica's reason. `NotOwned` where the slot has no replica, or `Full` where the list has no room for two events: these change
    /// nothing.
    pub fn merge(&mut self, slot: Slot, page: &Page) -> Result<u64, CallErr>
        requires given { HasPage self.old.events slot.shard page.now }
        ensures { MayCall D.state slot (call.Merge page.now) (λ n. reply.Count n) (Merges D.state page.now) (λ n. n) result self.old self.new }
    {
        match self.map.get_mut(&slot) {
            Some(member) => merge_on(member, &mut self.trail, slot, page),
            None => Err(CallErr::Refused(Reason::NotOwned)),
        }
    }

    /// Has the replica at the slot write its ended blocks as volumes, by rules of an earlier Clock, and answers how many volumes it wrote.
    /// Block sizes are at least 1, as in all rules within their limits.
    ///
    /// # Errors
    ///
    /// The replica's reason. `NotOwned` where the slot has no replica, or `Full` where the list has no room for two events: these change
    /// nothing.
    pub fn flush(&mut self, slot: Slot, rules: &Rules) -> Result<u64, CallErr>
        requires clock { HasClock self.old.events rules.now }
        requires sizes { All (λ space. 0 < space.block) rules.now.spaces }
        ensures { MayCall D.state slot (call.Flush rules.entry.now) (λ n. reply.Count n) (Flushes D.state rules.entry.now) (λ n. n) result self.old self.new }
    {
        match self.map.get_mut(&slot) {
            Some(member) => flush_on(member, &mut self.trail, slot, rules),
            None => Err(CallErr::Refused(Reason::NotOwned)),
        }
    }

    /// Has the replica at the slot take away what has expired, by rules of an earlier Clock, and answers how many keys its content lost.
    ///
    /// # Errors
    ///
    /// The replica's reason. `NotOwned` where the slot has no replica, or `Full` where the list has no room for two events: these change
    /// nothing.
    pub fn tick(&mut self, slot: Slot, rules: &Rules) -> Result<u64, CallErr>
        requires clock { HasClock self.old.events rules.now }
        ensures { MayCall D.state slot (call.Tick rules.entry.now) (λ n. reply.Count n) (Ticks D.state rules.entry.now) (λ n. n) result self.old self.new }
    {
        match self.map.get_mut(&slot) {
            Some(member) => tick_on(member, &mut self.trail, slot, rules),
            None => Err(CallErr::Refused(Reason::NotOwned)),
        }
    }

    /// Has the replica at the slot save what is in memory as a snapshot, and answers the snapshot's number. The replica's log is then one
    /// segment without chunks.
    ///
    /// # Errors
    ///
    /// The replica's reason. `NotOwned` where the slot has no replica, or `Full` where the list has no room for two events: these change
    /// nothing.
    pub fn snapshot(&mut self, slot: Slot) -> Result<u64, CallErr>
        ensures { MayCall D.state slot call.Snapshot (λ n. reply.Count n) (Saves D.state) (λ n. n) result self.old self.new }
    {
        match self.map.get_mut(&slot) {
            Some(member) => snapshot_on(member, &mut self.trail, slot),
            None => Err(CallErr::Refused(Reason::NotOwned)),
        }
    }

    /// Raises the fence of the replica at the slot to the version. A fence never falls.
    ///
    /// # Errors
    ///
    /// The replica's reason. `NotOwned` where the slot has no replica, or `Full` where the list has no room for two events: these change
    /// nothing.
    pub fn fence(&mut self, slot: Slot, version: u64) -> Result<(), CallErr>
        ensures { MayCall D.state slot (call.Fence version) (λ _. reply.Done) (Fences D.state version) (λ u. u) result self.old self.new }
    {
        match self.map.get_mut(&slot) {
            Some(member) => fence_on(member, &mut self.trail, slot, version),
            None => Err(CallErr::Refused(Reason::NotOwned)),
        }
    }

    /// Ends the tenure of the replica at the slot: it doesn't own its shard any more, until it begins again. Takes no memory.
    ///
    /// # Errors
    ///
    /// `NotOwned` where the slot has no replica, or `Full` where the list has no room for two events. Nothing changes.
    pub fn end(&mut self, slot: Slot) -> Result<(), CallErr>
        ensures { MayCall D.state slot call.End (λ _. reply.Done) (Ends D.state) (λ u. u) result self.old self.new }
    {
        match self.map.get_mut(&slot) {
            Some(member) => end_on(member, &mut self.trail, slot),
            None => Err(CallErr::Refused(Reason::NotOwned)),
        }
    }

    /// Stops the replica at the slot. Takes no memory.
    ///
    /// # Errors
    ///
    /// `NotOwned` where the slot has no replica, or `Full` where the list has no room for two events. Nothing changes.
    pub fn stop(&mut self, slot: Slot) -> Result<(), CallErr>
        ensures { MayCall D.state slot call.Stop (λ _. reply.Done) (Stops D.state) (λ u. u) result self.old self.new }
    {
        match self.map.get_mut(&slot) {
            Some(member) => stop_on(member, &mut self.trail, slot),
            None => Err(CallErr::Refused(Reason::NotOwned)),
        }
    }

    /// The process of the replica at the slot stops and starts again: it stands at Boot, over what its disk kept. The pick chooses what
    /// that is, where the disk knows how.
    ///
    /// # Errors
    ///
    /// The replica's reason. `NotOwned` where the slot has no replica, or `Full` where the list has no room for two events: these change
    /// nothing.
    pub fn restart(&mut self, slot: Slot, pick: u64) -> Result<(), CallErr>
        ensures { MayCall D.state slot call.Restart (λ _. reply.Done) (Restarts D.state) (λ u. u) result self.old self.new }
    {
        match self.map.get_mut(&slot) {
            Some(member) => restart_on(member, &mut self.trail, slot, pick),
            None => Err(CallErr::Refused(Reason::NotOwned)),
        }
    }

    /// How the replica at the slot stands, with its fence where it is open and else 0; how many points it has in memory, one at each
    /// key; how many segments its log has, the number of the newest snapshot on its disk, and how many volumes count there. Nobody asks
    /// for its step, so the list needs room for that alone. Takes no memory.
    ///
    /// # Errors
    ///
    /// `NotOwned` where the slot has no replica, or `Full` where the list has no room for one event. Nothing changes.
    pub fn report(&mut self, slot: Slot) -> Result<Report, CallErr>
        ensures { MayTell D.state slot call.Report (λ report. reply.Told report) (Reports D.state) (λ report. report) result self.old self.new }
    {
        match self.map.get(&slot) {
            Some(member) => report_on(member, &mut self.trail, slot),
            None => Err(CallErr::Refused(Reason::NotOwned)),
        }
    }
}
