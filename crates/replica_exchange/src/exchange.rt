//! Calls of one machine, each with its events in the list: an Ask, and the step that answers it with the machine's own reply. The member that
//! is given is the replica of the slot, and stays so. Replicas of other slots stay as the list has them.
ghost use Rattle.std.specs.Prelude.{◌≡◌, ◌<◌, ◌≤◌, [], ◌∷◌, ◌++◌, length};
ghost use Rattle.std.specs.List.{All};
ghost use Rattle.std.specs.Option.{option_copied};
ghost use Rattle.replica_machine.specs.m3_model.Reads.{space_picked};
ghost use Rattle.replica_machine.specs.wire_bytes.Entries.{IsBounded};
ghost use Rattle.replica_machine.specs.cluster_core.Earlier.{HasClock, HasPage, HasSend, HasTenure};
ghost use Rattle.replica_machine.specs.cluster_core.declared.event.Event.TheVariants as event;
ghost use Rattle.replica_machine.specs.cluster_core.declared.event.StepCall.TheVariants as call;
ghost use Rattle.replica_machine.specs.cluster_core.declared.event.StepReply.TheVariants as reply;
ghost use Rattle.event_trail.specs.Trails.{IsLawfulOver};
ghost use Rattle.replica_exchange.specs.MachineCalls.{IsMemberOf, HasRoom, AddsStep, MayAnswerBy, MayAnswer, IsAnswer, OtherReplicasStay};
ghost use Rattle.replica_exchange.specs.Exchanges.{ask_of};
ghost use Rattle.replica_exchange.specs.Promises.{Begins, Puts, Reads, Pages, Merges, Flushes, Ticks, Saves, Fences, Ends, Stops, Restarts, Reports};

use crate::call_err::CallErr;
use crate::call_id::CallId;
use crate::member::Member;
use crate::parts::{
    began_of, began_view, count_of, count_view, done_of, done_view, found_of, found_view, page_of,
    paged_view,
};
use crate::slot::Slot;
use event_trail::{CallView, EventView, ReplyView, Trail, tell_apart};
use replica_machine::of_cluster_core::StepCall;
use replica_machine::of_m3_model::{Key, Page, Pick, Point, Report, Rules, Seq, Series};
use replica_machine::of_m3_outside::Disk;

// Adds an Ask for the call.
fn ask<D: Disk>(trail: &mut Trail<D>, slot: Slot, call: &CallView)
    requires opened { 2 ≤ length trail.old }
    requires room { HasRoom 1 trail.old }
    ensures { trail.new ≡ trail.old ++ ask_of slot.node slot.shard call.now ∷ [] }
{
    let ask = EventView::ask_step(slot.node, slot.shard, call);
    trail.append_reserved(&ask);
}

// Adds the step that answers the Ask.
fn answer<D: Disk>(trail: &mut Trail<D>, slot: Slot, call: &CallView, reply: &ReplyView)
    requires answers { IsAnswer D.state slot call.now reply.now trail.old }
    requires room { HasRoom 1 trail.old }
    ensures { trail.new ≡ trail.old ++ event.Step slot.node slot.shard call.now reply.now ∷ [] }
{
    trail.know();
    tell_apart::<StepCall>();
    let step = EventView::step(slot.node, slot.shard, call, reply);
    trail.append_reserved(&step);
}

// Adds the step by which a replica reports.
fn tell<D: Disk>(trail: &mut Trail<D>, slot: Slot, report: &Report)
    requires lawful { IsLawfulOver D.state trail.old (event.Step slot.node slot.shard call.Report (reply.Told report.now)) }
    requires room { HasRoom 1 trail.old }
    ensures { trail.new ≡ trail.old ++ event.Step slot.node slot.shard call.Report (reply.Told report.now) ∷ [] }
{
    let call = CallView::report();
    let reply = ReplyView::told(report);
    let step = EventView::step(slot.node, slot.shard, &call, &reply);
    trail.append_reserved(&step);
}

/// Puts the point on the machine, as a client's write of this version, and adds an Ask and the step.
///
/// # Errors
///
/// The machine's reason. `Full` where the list has no room for two events: this changes nothing.
pub fn put_on<D: Disk>(
    member: &mut Member<D>,
    trail: &mut Trail<D>,
    slot: Slot,
    id: CallId,
    rules: &Rules,
    version: u64,
    point: &Point,
) -> Result<(), CallErr>
    requires is { IsMemberOf D.state slot trail.old member.old }
    requires opened { 2 ≤ length trail.old }
    requires clock { HasClock trail.old rules.now }
    requires sent { HasSend trail.old version slot.shard point.now }
    requires space { point.now.ns < length rules.now.spaces }
    requires bounded { IsBounded point.now }
    ensures is { IsMemberOf D.state slot trail.new member.new }
    ensures others { OtherReplicasStay slot trail.old trail.new }
    ensures opened { 2 ≤ length trail.new }
    ensures answered { MayAnswer D.state slot (call.Put id.client id.number rules.entry.now version point.now) (λ _. reply.Done) (Puts D.state rules.entry.now point.now) (λ u. u) result member.old trail.old member.new trail.new }
{
    if !trail.has_room(2) {
        return Err(CallErr::Full);
    }
    let call = CallView::put(id.client, id.number, rules, version, point);
    ask(trail, slot, &call);
    let said = member.machine.put(rules, version, point);
    let reply = done_view(&said);
    answer(trail, slot, &call, &reply);
    done_of(said)
}

/// Has the machine begin a tenure that a placement gave it, and adds an Ask and the step: from Boot it loads its files and is open.
///
/// # Errors
///
/// The machine's reason. `Full` where the list has no room for two events: this changes nothing.
pub fn boot_on<D: Disk>(
    member: &mut Member<D>,
    trail: &mut Trail<D>,
    slot: Slot,
    tenure: u64,
) -> Result<(), CallErr>
    requires is { IsMemberOf D.state slot trail.old member.old }
    requires opened { 2 ≤ length trail.old }
    requires tenure { HasTenure trail.old slot.node slot.shard tenure }
    ensures is { IsMemberOf D.state slot trail.new member.new }
    ensures others { OtherReplicasStay slot trail.old trail.new }
    ensures opened { 2 ≤ length trail.new }
    ensures answered { MayAnswer D.state slot (call.Begin tenure) (λ began. reply.Began began.fence began.points) (Begins D.state tenure) (λ _. tt) result member.old trail.old member.new trail.new }
{
    if !trail.has_room(2) {
        return Err(CallErr::Full);
    }
    let call = CallView::begin(tenure);
    ask(trail, slot, &call);
    let said = member.machine.boot(tenure);
    let reply = began_view(&said);
    answer(trail, slot, &call, &reply);
    began_of(said)
}

/// What the machine answers a client's read of this version: its points with `from <= t < to` that haven't expired, of the series that are
/// picked, in order. Adds an Ask and the step.
///
/// # Errors
///
/// The machine's reason. `Full` where the list has no room for two events: this changes nothing.
pub fn read_on<D: Disk>(
    member: &mut Member<D>,
    trail: &mut Trail<D>,
    slot: Slot,
    id: CallId,
    rules: &Rules,
    version: u64,
    pick: &Pick,
    from: u64,
    to: u64,
) -> Result<Seq<Series>, CallErr>
    requires is { IsMemberOf D.state slot trail.old member.old }
    requires opened { 2 ≤ length trail.old }
    requires clock { HasClock trail.old rules.now }
    requires space { space_picked pick.now < length rules.now.spaces }
    ensures is { IsMemberOf D.state slot trail.new member.new }
    ensures others { OtherReplicasStay slot trail.old trail.new }
    ensures opened { 2 ≤ length trail.new }
    ensures answered { MayAnswer D.state slot (call.Read id.client id.number rules.entry.now version pick.now from to) (λ series. reply.Found series) (Reads D.state rules.entry.now pick.now from to) (λ series. series) result member.old trail.old member.new trail.new }
{
    if !trail.has_room(2) {
        return Err(CallErr::Full);
    }
    let call = CallView::read(id.client, id.number, rules, version, pick, from, to);
    ask(trail, slot, &call);
    let said = member.machine.read(rules, version, pick, from, to);
    let reply = found_view(&said);
    answer(trail, slot, &call, &reply);
    found_of(said)
}

/// Has the machine give the page of the first points above the key that it holds, and adds an Ask and the step.
///
/// # Errors
///
/// The machine's reason. `Full` where the list has no room for two events: this changes nothing.
pub fn page_on<D: Disk>(
    member: &mut Member<D>,
    trail: &mut Trail<D>,
    slot: Slot,
    after: Option<&Key>,
) -> Result<Page, CallErr>
    requires is { IsMemberOf D.state slot trail.old member.old }
    requires opened { 2 ≤ length trail.old }
    ensures is { IsMemberOf D.state slot trail.new member.new }
    ensures others { OtherReplicasStay slot trail.old trail.new }
    ensures opened { 2 ≤ length trail.new }
    ensures answered { MayAnswer D.state slot (call.Page (option_copied after.entry)) (λ page. reply.Paged page) (Pages D.state (option_copied after.entry)) (λ page. page) result member.old trail.old member.new trail.new }
{
    if !trail.has_room(2) {
        return Err(CallErr::Full);
    }
    let call = CallView::page(after);
    ask(trail, slot, &call);
    let said = member.machine.page(after);
    let reply = paged_view(&said);
    answer(trail, slot, &call, &reply);
    page_of(said)
}

/// Has the machine merge a page that a replica of its shard gave, and adds an Ask and the step. Answers how many of its points were new to
/// it or raised what stood at their keys.
///
/// # Errors
///
/// The machine's reason. `Full` where the list has no room for two events: this changes nothing.
pub fn merge_on<D: Disk>(
    member: &mut Member<D>,
    trail: &mut Trail<D>,
    slot: Slot,
    page: &Page,
) -> Result<u64, CallErr>
    requires is { IsMemberOf D.state slot trail.old member.old }
    requires opened { 2 ≤ length trail.old }
    requires given { HasPage trail.old slot.shard page.now }
    ensures is { IsMemberOf D.state slot trail.new member.new }
    ensures others { OtherReplicasStay slot trail.old trail.new }
    ensures opened { 2 ≤ length trail.new }
    ensures answered { MayAnswer D.state slot (call.Merge page.now) (λ n. reply.Count n) (Merges D.state page.now) (λ n. n) result member.old trail.old member.new trail.new }
{
    if !trail.has_room(2) {
        return Err(CallErr::Full);
    }
    let call = CallView::merge(page);
    ask(trail, slot, &call);
    let said = member.machine.merge(page);
    let reply = count_view(&said);
    answer(trail, slot, &call, &reply);
    count_of(said)
}

/// Has the machine write its ended blocks as volumes, by rules of an earlier Clock, and adds an Ask and the step. Answers how many volumes
/// it wrote. Block sizes are at least 1, as in all rules within their limits.
///
/// # Errors
///
/// The machine's reason. `Full` where the list has no room for two events: this changes nothing.
pub fn flush_on<D: Disk>(
    member: &mut Member<D>,
    trail: &mut Trail<D>,
    slot: Slot,
    rules: &Rules,
) -> Result<u64, CallErr>
    requires is { IsMemberOf D.state slot trail.old member.old }
    requires opened { 2 ≤ length trail.old }
    requires clock { HasClock trail.old rules.now }
    requires sizes { All (λ space. 0 < space.block) rules.now.spaces }
    ensures is { IsMemberOf D.state slot trail.new member.new }
    ensures others { OtherReplicasStay slot trail.old trail.new }
    ensures opened { 2 ≤ length trail.new }
    ensures answered { MayAnswer D.state slot (call.Flush rules.entry.now) (λ n. reply.Count n) (Flushes D.state rules.entry.now) (λ n. n) result member.old trail.old member.new trail.new }
{
    if !trail.has_room(2) {
        return Err(CallErr::Full);
    }
    let call = CallView::flush(rules);
    ask(trail, slot, &call);
    let said = member.machine.flush(rules);
    let reply = count_view(&said);
    answer(trail, slot, &call, &reply);
    count_of(said)
}

/// Has the machine take away what has expired, by rules of an earlier Clock, and adds an Ask and the step. Answers how many keys its
/// content lost.
///
/// # Errors
///
/// The machine's reason. `Full` where the list has no room for two events: this changes nothing.
pub fn tick_on<D: Disk>(
    member: &mut Member<D>,
    trail: &mut Trail<D>,
    slot: Slot,
    rules: &Rules,
) -> Result<u64, CallErr>
    requires is { IsMemberOf D.state slot trail.old member.old }
    requires opened { 2 ≤ length trail.old }
    requires clock { HasClock trail.old rules.now }
    ensures is { IsMemberOf D.state slot trail.new member.new }
    ensures others { OtherReplicasStay slot trail.old trail.new }
    ensures opened { 2 ≤ length trail.new }
    ensures answered { MayAnswer D.state slot (call.Tick rules.entry.now) (λ n. reply.Count n) (Ticks D.state rules.entry.now) (λ n. n) result member.old trail.old member.new trail.new }
{
    if !trail.has_room(2) {
        return Err(CallErr::Full);
    }
    let call = CallView::tick(rules);
    ask(trail, slot, &call);
    let said = member.machine.tick(rules);
    let reply = count_view(&said);
    answer(trail, slot, &call, &reply);
    count_of(said)
}

/// Has the machine save what is in memory as a snapshot, and adds an Ask and the step. Answers the snapshot's number; its log is then one
/// segment without chunks.
///
/// # Errors
///
/// The machine's reason. `Full` where the list has no room for two events: this changes nothing.
pub fn snapshot_on<D: Disk>(
    member: &mut Member<D>,
    trail: &mut Trail<D>,
    slot: Slot,
) -> Result<u64, CallErr>
    requires is { IsMemberOf D.state slot trail.old member.old }
    requires opened { 2 ≤ length trail.old }
    ensures is { IsMemberOf D.state slot trail.new member.new }
    ensures others { OtherReplicasStay slot trail.old trail.new }
    ensures opened { 2 ≤ length trail.new }
    ensures answered { MayAnswer D.state slot call.Snapshot (λ n. reply.Count n) (Saves D.state) (λ n. n) result member.old trail.old member.new trail.new }
{
    if !trail.has_room(2) {
        return Err(CallErr::Full);
    }
    let call = CallView::snapshot();
    ask(trail, slot, &call);
    let said = member.machine.snapshot();
    let reply = count_view(&said);
    answer(trail, slot, &call, &reply);
    count_of(said)
}

/// Raises the machine's fence to the version, and adds an Ask and the step. A fence never falls.
///
/// # Errors
///
/// The machine's reason. `Full` where the list has no room for two events: this changes nothing.
pub fn fence_on<D: Disk>(
    member: &mut Member<D>,
    trail: &mut Trail<D>,
    slot: Slot,
    version: u64,
) -> Result<(), CallErr>
    requires is { IsMemberOf D.state slot trail.old member.old }
    requires opened { 2 ≤ length trail.old }
    ensures is { IsMemberOf D.state slot trail.new member.new }
    ensures others { OtherReplicasStay slot trail.old trail.new }
    ensures opened { 2 ≤ length trail.new }
    ensures answered { MayAnswer D.state slot (call.Fence version) (λ _. reply.Done) (Fences D.state version) (λ u. u) result member.old trail.old member.new trail.new }
{
    if !trail.has_room(2) {
        return Err(CallErr::Full);
    }
    let call = CallView::fence(version);
    ask(trail, slot, &call);
    let said = member.machine.fence(version);
    let reply = done_view(&said);
    answer(trail, slot, &call, &reply);
    done_of(said)
}

/// Ends the machine's tenure, and adds an Ask and the step. Takes no memory.
///
/// # Errors
///
/// `Full` where the list has no room for two events. Nothing changes.
pub fn end_on<D: Disk>(
    member: &mut Member<D>,
    trail: &mut Trail<D>,
    slot: Slot,
) -> Result<(), CallErr>
    requires is { IsMemberOf D.state slot trail.old member.old }
    requires opened { 2 ≤ length trail.old }
    ensures is { IsMemberOf D.state slot trail.new member.new }
    ensures others { OtherReplicasStay slot trail.old trail.new }
    ensures opened { 2 ≤ length trail.new }
    ensures answered { MayAnswer D.state slot call.End (λ _. reply.Done) (Ends D.state) (λ u. u) result member.old trail.old member.new trail.new }
{
    if !trail.has_room(2) {
        return Err(CallErr::Full);
    }
    let call = CallView::end();
    ask(trail, slot, &call);
    member.machine.end();
    let reply = ReplyView::done();
    answer(trail, slot, &call, &reply);
    Ok(())
}

/// Stops the machine, and adds an Ask and the step. Takes no memory.
///
/// # Errors
///
/// `Full` where the list has no room for two events. Nothing changes.
pub fn stop_on<D: Disk>(
    member: &mut Member<D>,
    trail: &mut Trail<D>,
    slot: Slot,
) -> Result<(), CallErr>
    requires is { IsMemberOf D.state slot trail.old member.old }
    requires opened { 2 ≤ length trail.old }
    ensures is { IsMemberOf D.state slot trail.new member.new }
    ensures others { OtherReplicasStay slot trail.old trail.new }
    ensures opened { 2 ≤ length trail.new }
    ensures answered { MayAnswer D.state slot call.Stop (λ _. reply.Done) (Stops D.state) (λ u. u) result member.old trail.old member.new trail.new }
{
    if !trail.has_room(2) {
        return Err(CallErr::Full);
    }
    let call = CallView::stop();
    ask(trail, slot, &call);
    member.machine.stop();
    let reply = ReplyView::done();
    answer(trail, slot, &call, &reply);
    Ok(())
}

/// The machine's process stops and starts again, with an Ask and the step: it stands at Boot, over what its disk kept. The pick chooses what
/// that is, where the disk knows how.
///
/// # Errors
///
/// The machine's reason. `Full` where the list has no room for two events: this changes nothing.
pub fn restart_on<D: Disk>(
    member: &mut Member<D>,
    trail: &mut Trail<D>,
    slot: Slot,
    pick: u64,
) -> Result<(), CallErr>
    requires is { IsMemberOf D.state slot trail.old member.old }
    requires opened { 2 ≤ length trail.old }
    ensures is { IsMemberOf D.state slot trail.new member.new }
    ensures others { OtherReplicasStay slot trail.old trail.new }
    ensures opened { 2 ≤ length trail.new }
    ensures answered { MayAnswer D.state slot call.Restart (λ _. reply.Done) (Restarts D.state) (λ u. u) result member.old trail.old member.new trail.new }
{
    if !trail.has_room(2) {
        return Err(CallErr::Full);
    }
    let call = CallView::restart();
    ask(trail, slot, &call);
    let said = member.machine.restart(pick);
    let reply = done_view(&said);
    answer(trail, slot, &call, &reply);
    done_of(said)
}

/// How the machine stands, with its fence where it is open and else 0, how many points it has in memory, and how many volumes count on its
/// disk. Adds its step alone, as nobody asks for it. Takes no memory.
///
/// # Errors
///
/// `Full` where the list has no room for one event. Nothing changes.
pub fn report_on<D: Disk>(
    member: &Member<D>,
    trail: &mut Trail<D>,
    slot: Slot,
) -> Result<Report, CallErr>
    requires is { IsMemberOf D.state slot trail.old member.now }
    requires opened { 2 ≤ length trail.old }
    ensures is { IsMemberOf D.state slot trail.new member.now }
    ensures others { OtherReplicasStay slot trail.old trail.new }
    ensures opened { 2 ≤ length trail.new }
    ensures answered { MayAnswerBy 1 (AddsStep slot) D.state call.Report (λ report. reply.Told report) (Reports D.state) (λ report. report) result member.now trail.old member.now trail.new }
{
    if !trail.has_room(1) {
        return Err(CallErr::Full);
    }
    let report = member.machine.report();
    tell(trail, slot, &report);
    Ok(report)
}
