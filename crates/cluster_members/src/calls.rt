//! Calls of clients on a cluster that stands.
ghost use Rattle.std.specs.Prelude.{◌≡◌, ◌<◌, ◌^◌, length};
ghost use Rattle.m3_model.specs.declared.limits.TheConstants.{TIME_END};
ghost use Rattle.m3_model.specs.Identifiers.{IsIdentifier};
ghost use Rattle.m3_model.specs.Reads.{space_picked};
ghost use Rattle.m3_model.specs.declared.point.Pick.TheVariants as pick;
ghost use Rattle.m3_model.specs.declared.rules.MetaState.{MetaState as State};
ghost use Rattle.session_writes.specs.session_net.Ready.{IsReady, IsCallable};
ghost use Rattle.session_writes.specs.wire_bytes.Entries.{IsBounded};
ghost use Rattle.m3_model.specs.declared.placement.Placement.{Placement as Place};
ghost use Rattle.cluster_members.specs.Kept.{MadeBy, PastServes, StandsAt};
ghost use Rattle.cluster_members.specs.Calls.{answer_of, IsWritten, IsFetchAnswer, IsReadAnswer, IsWriteAnswer, wish};

use crate::kept::{Kept, exchange, kept_of, unkept};
use crate::members::Members;
use crate::spaces::namespace_position;
use m3_model::{Answer, Matcher, Pick, Placement, Point, ReadLevel, Seq, Text, WriteLevel};
use m3_outside::Disk;
use session_reads::fetch;
use session_writes::of_replica_exchange::CallId;
use session_writes::of_session_net::{Net, SessionErr};
use session_writes::write::write;
use std::alloc::Global;

/// The times of a read, which has its lower end and not its upper one.
#[derive(Clone, Copy)]
pub struct Range {
    pub from: u64,
    pub to: u64,
}

// Why a call of the session was refused, as an answer.
fn answer_of(refused: SessionErr) -> Answer
    ensures { result ≡ answer_of refused }
{
    match refused {
        SessionErr::Consistency {
            shard,
            needed,
            got,
            reasons,
        } => Answer::Consistency {
            got,
            needed,
            reasons,
            shard,
        },
        SessionErr::Memory => Answer::Memory,
        SessionErr::Full => Answer::Full,
    }
}

// Writes the point by the placement that is kept there; then the net goes by its own again.
fn write_by<D: Disk>(
    net: &mut Net<D>,
    past: &mut [Placement],
    kept: Kept,
    alloc: Global,
    id: CallId,
    point: &Point,
    level: WriteLevel,
) -> Answer
    requires known { point.now.ns < length net.old.state.rules.spaces }
    requires bounded { IsBounded point.now }
    requires there { (place : Place) × StandsAt net.old.state.place past.old kept place × IsCallable (record net.old.state { place = place }) net.old.replicas net.old.bag }
    ensures by { (place : Place) → StandsAt net.old.state.place past.old kept place → MadeBy place (λ before after. IsWriteAnswer D.state before id point.now level result after) net.old net.new }
    ensures callable { (s : State) → IsCallable s net.old.replicas net.old.bag → IsCallable s net.new.replicas net.new.bag }
    ensures ready { (s : State) → IsReady s net.old.replicas net.old.bag → IsReady s net.new.replicas net.new.bag }
    ensures state { net.new.state ≡ net.old.state }
    ensures fates { net.new.fates ≡ net.old.fates }
    ensures past { past.new ≡ past.old }
{
    exchange(net, past, kept);
    let said = write(net, alloc, id, point, level);
    exchange(net, past, kept);
    match said {
        Ok(acks) => Answer::Acks { acks },
        Err(refused) => answer_of(refused),
    }
}

// Reads what is picked, by the placement that is kept there; then the net goes by its own again.
fn read_by<D: Disk>(
    net: &mut Net<D>,
    past: &mut [Placement],
    kept: Kept,
    alloc: Global,
    id: CallId,
    pick: &Pick,
    range: Range,
    level: ReadLevel,
) -> Answer
    requires known { space_picked pick.now < length net.old.state.rules.spaces }
    requires there { (place : Place) × StandsAt net.old.state.place past.old kept place × IsCallable (record net.old.state { place = place }) net.old.replicas net.old.bag }
    ensures by { (place : Place) → StandsAt net.old.state.place past.old kept place → MadeBy place (λ before after. IsReadAnswer D.state before id (wish pick.now range) level result after) net.old net.new }
    ensures callable { (s : State) → IsCallable s net.old.replicas net.old.bag → IsCallable s net.new.replicas net.new.bag }
    ensures ready { (s : State) → IsReady s net.old.replicas net.old.bag → IsReady s net.new.replicas net.new.bag }
    ensures state { net.new.state ≡ net.old.state }
    ensures fates { net.new.fates ≡ net.old.fates }
    ensures bag { net.new.bag ≡ net.old.bag }
    ensures past { past.new ≡ past.old }
{
    exchange(net, past, kept);
    let said = fetch(net, alloc, id, pick, range.from, range.to, level);
    exchange(net, past, kept);
    match said {
        Ok(found) => Answer::Found {
            series: found.series,
            short: found.short,
        },
        Err(refused) => answer_of(refused),
    }
}

impl<D: Disk> Members<D> {
    /// Writes a point to the members of the shard of its identifier, within the limits of a request, by the placement of the version, or,
    /// without one, by the one that stands. `Unknown` says that there is no such namespace or that no such version is kept, and `Full`
    /// that the list has no room for all that the write may add: nothing changes in these. `Consistency` says that too few of the nodes that count took it, and `Memory` that no node was asked.
    pub fn write(
        &mut self,
        alloc: Global,
        id: CallId,
        ns: Text,
        name: Text,
        t: u64,
        v: i64,
        level: WriteLevel,
        version: Option<u64>,
    ) -> Answer
        requires name { IsIdentifier name }
        requires time { t < TIME_END }
        requires ready { IsReady self.old.net.state self.old.net.replicas self.old.net.bag }
        requires past { PastServes self.old }
        ensures ready { IsReady self.new.net.state self.new.net.replicas self.new.net.bag }
        ensures past { PastServes self.new }
        ensures written { IsWritten D.state self.old id (record { ns = ns; id = name; t = t; v = v }) level version result self.new }
    {
        let spaces = self.net.state.rules.spaces.as_slice();
        let Some(position) = namespace_position(spaces, ns.as_str()) else {
            return Answer::Unknown { name: ns };
        };
        let net = &self.net;
        let Some(kept) = kept_of(&net.state.place, &self.past, version) else {
            return unkept(alloc, version);
        };
        let point = Point {
            ns: position as u8,
            id: name,
            t,
            v,
        };
        write_by(
            &mut self.net,
            &mut self.past,
            kept,
            alloc,
            id,
            &point,
            level,
        )
    }

    /// Fetches the points of an identifier from the nodes that count for its shard, by the placement of the version, or, without one, by
    /// the one that stands. `Unknown` says that there is no such namespace or that no such version is kept; nothing changes then. `Consistency` says that too few nodes answered, `Memory` that memory was wanted,
    /// and `Full` that the list has no room.
    pub fn fetch(
        &mut self,
        alloc: Global,
        id: CallId,
        ns: Text,
        name: Text,
        range: Range,
        level: ReadLevel,
        version: Option<u64>,
    ) -> Answer
        requires ready { IsReady self.old.net.state self.old.net.replicas self.old.net.bag }
        requires past { PastServes self.old }
        ensures ready { IsReady self.new.net.state self.new.net.replicas self.new.net.bag }
        ensures past { PastServes self.new }
        ensures fetched { IsFetchAnswer D.state self.old id ns (λ k. pick.One k name) range level version result self.new }
    {
        let spaces = self.net.state.rules.spaces.as_slice();
        let Some(position) = namespace_position(spaces, ns.as_str()) else {
            return Answer::Unknown { name: ns };
        };
        let net = &self.net;
        let Some(kept) = kept_of(&net.state.place, &self.past, version) else {
            return unkept(alloc, version);
        };
        let pick = Pick::One {
            ns: position as u8,
            id: name,
        };
        read_by(
            &mut self.net,
            &mut self.past,
            kept,
            alloc,
            id,
            &pick,
            range,
            level,
        )
    }

    /// Fetches the points of all series whose tags meet the matchers, from the nodes that count for each shard. It answers
    /// as `fetch` does; `Consistency` names the first shard of which too few answered, and before `Memory` and `Full` some
    /// first shards were read.
    pub fn find(
        &mut self,
        alloc: Global,
        id: CallId,
        ns: Text,
        wanted: Seq<Matcher>,
        range: Range,
        level: ReadLevel,
        version: Option<u64>,
    ) -> Answer
        requires ready { IsReady self.old.net.state self.old.net.replicas self.old.net.bag }
        requires past { PastServes self.old }
        ensures ready { IsReady self.new.net.state self.new.net.replicas self.new.net.bag }
        ensures past { PastServes self.new }
        ensures fetched { IsFetchAnswer D.state self.old id ns (λ k. pick.Match k wanted) range level version result self.new }
    {
        let spaces = self.net.state.rules.spaces.as_slice();
        let Some(position) = namespace_position(spaces, ns.as_str()) else {
            return Answer::Unknown { name: ns };
        };
        let net = &self.net;
        let Some(kept) = kept_of(&net.state.place, &self.past, version) else {
            return unkept(alloc, version);
        };
        let pick = Pick::Match {
            ns: position as u8,
            wanted,
        };
        read_by(
            &mut self.net,
            &mut self.past,
            kept,
            alloc,
            id,
            &pick,
            range,
            level,
        )
    }
}
