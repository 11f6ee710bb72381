//! What happens in a cluster, as far as its points, its placement and its moments go.
use event_book::Entries;
use m3_model::{
    BlockDigest, Key, Page, Pick, Placement, Point, Reason, Report, Rules, Seq, Series,
};

/// A call of one replica: of a node's slot for a shard.
#[derive(Drop)]
pub enum StepCall {
    /// Opens the replica, or gives an open one its tenure.
    Begin {
        tenure: u64,
    },
    /// A write of a client, by the number of its call.
    Put {
        client: u32,
        number: u64,
        rules: Rules,
        version: u64,
        point: Point,
    },
    Read {
        client: u32,
        number: u64,
        rules: Rules,
        version: u64,
        pick: Pick,
        from: u64,
        to: u64,
    },
    /// Refuses writes and reads of lower versions from now on.
    Fence {
        version: u64,
    },
    /// The first points above the key.
    Page {
        after: Option<Key>,
    },
    /// The first points of one block above the key.
    Block {
        ns: u8,
        start: u64,
        size: u64,
        after: Option<Key>,
    },
    Digests {
        rules: Rules,
    },
    /// Takes another replica's page.
    Merge {
        page: Page,
    },
    Tick {
        rules: Rules,
    },
    Flush {
        rules: Rules,
    },
    Snapshot,
    Report,
    /// Takes the tenure away.
    End,
    Stop,
    Restart,
}

/// What a replica answers to a call.
#[derive(Drop)]
pub enum StepReply {
    Done,
    /// The replica is open, with this fence, and loaded these points.
    Began { fence: u64, points: Seq<Point> },
    Found { series: Seq<Series> },
    Paged { page: Page },
    Sums { digests: Seq<BlockDigest> },
    Count { n: u64 },
    Told { report: Report },
    Refused { reason: Reason },
}

/// What is asked for before it is done.
#[derive(Drop)]
pub enum Asked {
    Step {
        node: u8,
        shard: u32,
        call: StepCall,
    },
    Place {
        place: Placement,
        done: Seq<(u32, u8)>,
    },
    Clock {
        rules: Rules,
    },
}

/// One event of a cluster.
#[derive(Drop)]
pub enum Event {
    Ask {
        asked: Asked,
    },
    /// The moment and the namespaces from now on.
    Clock {
        rules: Rules,
    },
    /// The placement from now on, with the shard and the joining node of each move that it ends.
    Place {
        place: Placement,
        done: Seq<(u32, u8)>,
    },
    /// A point goes out to the replicas of its shard.
    Send {
        version: u64,
        shard: u32,
        point: Point,
    },
    /// These nodes took the point of the `Send` at this position of the list.
    Ack {
        send: u64,
        nodes: Seq<u8>,
    },
    FetchStart {
        version: u64,
        shard: u32,
        rules: Rules,
        pick: Pick,
        from: u64,
        to: u64,
    },
    /// These nodes answered the `FetchStart` at this position of the list, and these series are their answers, joined.
    FetchDone {
        start: u64,
        nodes: Seq<u8>,
        series: Seq<Series>,
    },
    /// A replica was called, and answered.
    Step {
        node: u8,
        shard: u32,
        call: StepCall,
        reply: StepReply,
    },
}

/// A book of events takes the lists that are legal by whether its name says that the disks tell, each event made by one who may.
impl Entries for Event {
    ghost use Rattle.cluster_core.specs.Makers.{IsLawfulLog, starts_lawful};

    ghost lawful = { IsLawfulLog };

    ghost starts = { starts_lawful };
}
