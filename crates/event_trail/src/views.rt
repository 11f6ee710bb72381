//! Events for the list, and the calls and replies of replicas in them: views of what their makers have, so that nothing is copied for
//! the list. A view has no bytes of what it is made of.
ghost use Rattle.std.specs.Prelude.{◌≡◌, []};
ghost use Rattle.std.specs.Option.{option_copied};
ghost use Rattle.cluster_core.specs.declared.event.Asked.TheVariants as asked;
ghost use Rattle.cluster_core.specs.declared.event.Event.TheVariants as event;
ghost use Rattle.cluster_core.specs.declared.event.StepCall.TheVariants as call;
ghost use Rattle.cluster_core.specs.declared.event.StepReply.TheVariants as reply;

use placement_core::of_m3_model::{
    Key, Page, Pick, Placement, Point, Reason, Report, Rules, Seq, Series,
};
use std::marker::Model;
use std::snapshot::Snapshot;

/// A call of a replica. Contracts see the call.
pub struct CallView {
    parts: CallParts,
}

impl Drop for CallView {
    fn drop(self) {
        let CallView { parts: _ } = self;
    }
}

#[derive(Drop)]
enum CallParts {
    Begin(u64),
    Put(u32, u64, Snapshot<Rules>, u64, Snapshot<Point>),
    Read(u32, u64, Snapshot<Rules>, u64, Snapshot<Pick>, u64, u64),
    Fence(u64),
    Page(Option<Snapshot<Key>>),
    Merge(Snapshot<Page>),
    Tick(Snapshot<Rules>),
    Flush(Snapshot<Rules>),
    Snapshot,
    Report,
    End,
    Stop,
    Restart,
}

impl Model for CallView {
    ghost use Rattle.cluster_core.specs.declared.event.StepCall.{StepCall};

    ghost Value = { StepCall };

    ghost use Rattle.event_trail.specs.Views.{call_of};

    ghost view = { λ c. call_of c.parts };
}

impl CallView {
    /// The call that opens a replica with this tenure.
    pub fn begin(tenure: u64) -> CallView
        ensures { result ≡ call.Begin tenure }
    {
        CallView {
            parts: CallParts::Begin(tenure),
        }
    }

    /// A client's write of a version, by the number of its call.
    pub fn put(client: u32, number: u64, rules: &Rules, version: u64, point: &Point) -> CallView
        ensures { result ≡ call.Put client number rules.entry.now version point.now }
    {
        CallView {
            parts: CallParts::Put(
                client,
                number,
                Snapshot::of(rules),
                version,
                Snapshot::of(point),
            ),
        }
    }

    /// A client's read of a version, by the number of its call: the series that are picked, with `from <= t < to`.
    pub fn read(
        client: u32,
        number: u64,
        rules: &Rules,
        version: u64,
        pick: &Pick,
        from: u64,
        to: u64,
    ) -> CallView
        ensures { result ≡ call.Read client number rules.entry.now version pick.now from to }
    {
        CallView {
            parts: CallParts::Read(
                client,
                number,
                Snapshot::of(rules),
                version,
                Snapshot::of(pick),
                from,
                to,
            ),
        }
    }

    /// The call that raises a fence to this version.
    pub fn fence(version: u64) -> CallView
        ensures { result ≡ call.Fence version }
    {
        CallView {
            parts: CallParts::Fence(version),
        }
    }

    /// The call for the page of the first points above the key.
    pub fn page(after: Option<&Key>) -> CallView
        ensures { result ≡ call.Page (option_copied after.entry) }
    {
        let after = match after {
            Some(key) => Some(Snapshot::of(key)),
            None => None,
        };
        CallView {
            parts: CallParts::Page(after),
        }
    }

    /// The call that joins the points of this page.
    pub fn merge(page: &Page) -> CallView
        ensures { result ≡ call.Merge page.now }
    {
        CallView {
            parts: CallParts::Merge(Snapshot::of(page)),
        }
    }

    /// The call that takes away what has expired by these rules.
    pub fn tick(rules: &Rules) -> CallView
        ensures { result ≡ call.Tick rules.entry.now }
    {
        CallView {
            parts: CallParts::Tick(Snapshot::of(rules)),
        }
    }

    /// The call that writes the blocks that have ended by these rules as volumes.
    pub fn flush(rules: &Rules) -> CallView
        ensures { result ≡ call.Flush rules.entry.now }
    {
        CallView {
            parts: CallParts::Flush(Snapshot::of(rules)),
        }
    }

    /// The call that saves what is in memory.
    pub fn snapshot() -> CallView
        ensures { result ≡ call.Snapshot }
    {
        CallView {
            parts: CallParts::Snapshot,
        }
    }

    pub fn report() -> CallView
        ensures { result ≡ call.Report }
    {
        CallView {
            parts: CallParts::Report,
        }
    }

    /// The call that ends a tenure.
    pub fn end() -> CallView
        ensures { result ≡ call.End }
    {
        CallView {
            parts: CallParts::End,
        }
    }

    pub fn stop() -> CallView
        ensures { result ≡ call.Stop }
    {
        CallView {
            parts: CallParts::Stop,
        }
    }

    pub fn restart() -> CallView
        ensures { result ≡ call.Restart }
    {
        CallView {
            parts: CallParts::Restart,
        }
    }
}

/// What a replica answered. Contracts see the reply.
pub struct ReplyView {
    parts: ReplyParts,
}

impl Drop for ReplyView {
    fn drop(self) {
        let ReplyView { parts: _ } = self;
    }
}

#[derive(Drop)]
enum ReplyParts {
    Done,
    Began(u64, Snapshot<Seq<Point>>),
    Found(Snapshot<Seq<Series>>),
    Paged(Snapshot<Page>),
    Count(u64),
    Told(Snapshot<Report>),
    Refused(Snapshot<Reason>),
}

impl Model for ReplyView {
    ghost use Rattle.cluster_core.specs.declared.event.StepReply.{StepReply};

    ghost Value = { StepReply };

    ghost use Rattle.event_trail.specs.Views.{reply_of};

    ghost view = { λ r. reply_of r.parts };
}

impl ReplyView {
    pub fn done() -> ReplyView
        ensures { result ≡ reply.Done }
    {
        ReplyView {
            parts: ReplyParts::Done,
        }
    }

    /// That it is open with this fence, and loaded these points.
    pub fn began(fence: u64, points: &Seq<Point>) -> ReplyView
        ensures { result ≡ reply.Began fence points.now }
    {
        ReplyView {
            parts: ReplyParts::Began(fence, Snapshot::of(points)),
        }
    }

    /// The series that it found.
    pub fn found(series: &Seq<Series>) -> ReplyView
        ensures { result ≡ reply.Found series.now }
    {
        ReplyView {
            parts: ReplyParts::Found(Snapshot::of(series)),
        }
    }

    /// The page that it has.
    pub fn paged(page: &Page) -> ReplyView
        ensures { result ≡ reply.Paged page.now }
    {
        ReplyView {
            parts: ReplyParts::Paged(Snapshot::of(page)),
        }
    }

    /// How many it were.
    pub fn count(count: u64) -> ReplyView
        ensures { result ≡ reply.Count count }
    {
        ReplyView {
            parts: ReplyParts::Count(count),
        }
    }

    /// How it stands.
    pub fn told(report: &Report) -> ReplyView
        ensures { result ≡ reply.Told report.now }
    {
        ReplyView {
            parts: ReplyParts::Told(Snapshot::of(report)),
        }
    }

    /// Why it refused the call.
    pub fn refused(reason: &Reason) -> ReplyView
        ensures { result ≡ reply.Refused reason.now }
    {
        ReplyView {
            parts: ReplyParts::Refused(Snapshot::of(reason)),
        }
    }
}

/// An event. Contracts see the event.
pub struct EventView {
    parts: EventParts,
}

impl Drop for EventView {
    fn drop(self) {
        let EventView { parts: _ } = self;
    }
}

#[derive(Drop)]
enum EventParts {
    AskPlace(Snapshot<Placement>),
    Place(Snapshot<Placement>),
    AskEnded(Snapshot<Placement>, Snapshot<Seq<(u32, u8)>>),
    Ended(Snapshot<Placement>, Snapshot<Seq<(u32, u8)>>),
    AskClock(Snapshot<Rules>),
    Clock(Snapshot<Rules>),
    Send(u64, u32, Snapshot<Point>),
    Ack(u64, Snapshot<Seq<u8>>),
    FetchStart(u64, u32, Snapshot<Rules>, Snapshot<Pick>, u64, u64),
    FetchDone(u64, Snapshot<Seq<u8>>, Snapshot<Seq<Series>>),
    AskStep(u8, u32, Snapshot<CallView>),
    Step(u8, u32, Snapshot<CallView>, Snapshot<ReplyView>),
}

impl Model for EventView {
    ghost use Rattle.cluster_core.specs.declared.event.Event.{Event};

    ghost Value = { Event };

    ghost use Rattle.event_trail.specs.Views.{event_of};

    ghost view = { λ e. event_of e.parts };
}

impl EventView {
    /// That this placement is asked for, with which no move ends.
    pub fn ask_place(place: &Placement) -> EventView
        ensures { result ≡ event.Ask (asked.Place place.now []) }
    {
        EventView {
            parts: EventParts::AskPlace(Snapshot::of(place)),
        }
    }

    /// The placement from now on, with which no move ends.
    pub fn place(place: &Placement) -> EventView
        ensures { result ≡ event.Place place.now [] }
    {
        EventView {
            parts: EventParts::Place(Snapshot::of(place)),
        }
    }

    /// That this placement is asked for, with which these moves end: each of a shard and the node that joins it.
    pub fn ask_ended(place: &Placement, done: &Seq<(u32, u8)>) -> EventView
        ensures { result ≡ event.Ask (asked.Place place.now done.now) }
    {
        EventView {
            parts: EventParts::AskEnded(Snapshot::of(place), Snapshot::of(done)),
        }
    }

    /// The placement from now on, with which these moves end.
    pub fn ended(place: &Placement, done: &Seq<(u32, u8)>) -> EventView
        ensures { result ≡ event.Place place.now done.now }
    {
        EventView {
            parts: EventParts::Ended(Snapshot::of(place), Snapshot::of(done)),
        }
    }

    /// That these rules are asked for.
    pub fn ask_clock(rules: &Rules) -> EventView
        ensures { result ≡ event.Ask (asked.Clock rules.entry.now) }
    {
        EventView {
            parts: EventParts::AskClock(Snapshot::of(rules)),
        }
    }

    /// The rules from now on.
    pub fn clock(rules: &Rules) -> EventView
        ensures { result ≡ event.Clock rules.entry.now }
    {
        EventView {
            parts: EventParts::Clock(Snapshot::of(rules)),
        }
    }

    /// That a point goes out to the replicas of its shard, by this version of the placement.
    pub fn send(version: u64, shard: u32, point: &Point) -> EventView
        ensures { result ≡ event.Send version shard point.now }
    {
        EventView {
            parts: EventParts::Send(version, shard, Snapshot::of(point)),
        }
    }

    /// That these nodes took the point of the Send at this position of the list.
    pub fn ack(send: u64, nodes: &Seq<u8>) -> EventView
        ensures { result ≡ event.Ack send nodes.now }
    {
        EventView {
            parts: EventParts::Ack(send, Snapshot::of(nodes)),
        }
    }

    /// That a shard is read by this version of the placement: the series that are picked, with `from <= t < to`.
    pub fn fetch_start(
        version: u64,
        shard: u32,
        rules: &Rules,
        pick: &Pick,
        from: u64,
        to: u64,
    ) -> EventView
        ensures { result ≡ event.FetchStart version shard rules.entry.now pick.now from to }
    {
        EventView {
            parts: EventParts::FetchStart(
                version,
                shard,
                Snapshot::of(rules),
                Snapshot::of(pick),
                from,
                to,
            ),
        }
    }

    /// That these nodes answered the FetchStart at this position of the list, and these series are their answers, joined.
    pub fn fetch_done(start: u64, nodes: &Seq<u8>, series: &Seq<Series>) -> EventView
        ensures { result ≡ event.FetchDone start nodes.now series.now }
    {
        EventView {
            parts: EventParts::FetchDone(start, Snapshot::of(nodes), Snapshot::of(series)),
        }
    }

    /// That a call of a node's replica of a shard is asked for.
    pub fn ask_step(node: u8, shard: u32, call: &CallView) -> EventView
        ensures { result ≡ event.Ask (asked.Step node shard call.now) }
    {
        EventView {
            parts: EventParts::AskStep(node, shard, Snapshot::of(call)),
        }
    }

    /// That a node's replica of a shard was called, and answered so.
    pub fn step(node: u8, shard: u32, call: &CallView, reply: &ReplyView) -> EventView
        ensures { result ≡ event.Step node shard call.now reply.now }
    {
        EventView {
            parts: EventParts::Step(node, shard, Snapshot::of(call), Snapshot::of(reply)),
        }
    }
}
