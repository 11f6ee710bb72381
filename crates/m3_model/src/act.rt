ghost use Rattle.std.specs.Prelude.{◌≡◌, IsTrue};

use crate::copies::{copied_list, copied_text, finished};
use crate::duplicate::Duplicate;
use crate::memory::Memory;
use crate::point::Matcher;
use crate::seq::Seq;
use crate::text::Text;
use std::alloc::Global;

/// How many replicas have to take a write.
///
/// See M3DB's page "Consistency Levels".
#[derive(Clone, Copy, Debug, PartialEq, Eq)]
pub enum WriteLevel {
    One,
    Majority,
    All,
}

/// How many replicas have to answer a read. Unstrict wants one, and says whether a majority answered.
///
/// See M3DB's page "Consistency Levels".
#[derive(Clone, Copy, Debug, PartialEq, Eq)]
pub enum ReadLevel {
    One,
    Unstrict,
    Majority,
    All,
}

/// What becomes of the message of one call to one node.
#[derive(Clone, Copy, Debug, PartialEq, Eq)]
pub enum Fate {
    Deliver,
    Lose,
    Twice,
    Late,
}

/// What one request asks for. A `par` line asks for several.
#[derive(Drop)]
pub enum Act {
    Init {
        rf: u32,
        shards: u32,
        seed: u32,
        /// Names with their isolation groups.
        nodes: Seq<(Text, Text)>,
    },
    Namespace {
        name: Text,
        block: u64,
        past: u64,
        future: u64,
        retention: u64,
    },
    Now {
        now: u64,
    },
    Write {
        ns: Text,
        id: Text,
        t: u64,
        v: i64,
        level: WriteLevel,
        version: Option<u64>,
    },
    Fetch {
        ns: Text,
        id: Text,
        from: u64,
        to: u64,
        level: ReadLevel,
        version: Option<u64>,
    },
    Match {
        ns: Text,
        wanted: Seq<Matcher>,
        from: u64,
        to: u64,
        level: ReadLevel,
        version: Option<u64>,
    },
    Fates {
        /// Client, number of its call, node, fate.
        list: Seq<(u32, u64, Text, Fate)>,
    },
    Deliver,
    Stop {
        node: Text,
    },
    Restart {
        node: Text,
        pick: u64,
    },
    Bootstrap {
        node: Text,
        shard: Option<u32>,
    },
    Add {
        node: Text,
        group: Text,
    },
    Drain {
        node: Text,
    },
    Cancel {
        node: Text,
    },
    Remove {
        node: Text,
    },
    Replace {
        node: Text,
        by: Text,
        group: Text,
    },
    Tick,
    Flush,
    Snapshot,
    Repair,
    Status,
}

impl Duplicate for WriteLevel {
    fn copy(&self, _alloc: Global) -> Result<WriteLevel, Memory> {
        Ok(*self)
    }
}

impl Duplicate for ReadLevel {
    fn copy(&self, _alloc: Global) -> Result<ReadLevel, Memory> {
        Ok(*self)
    }
}

impl Duplicate for Fate {
    fn copy(&self, _alloc: Global) -> Result<Fate, Memory> {
        Ok(*self)
    }
}

/// A copy if memory is there for all of it, and an act with empty parts if not.
pub(crate) fn copied_act(alloc: Global, enough: &mut bool, act: &Act) -> Act
    ensures { IsTrue enough.new → (IsTrue enough.old × (result ≡ act.now)) }
{
    match *act {
        Act::Init {
            rf,
            shards,
            seed,
            ref nodes,
        } => Act::Init {
            rf,
            shards,
            seed,
            nodes: copied_list(alloc, enough, nodes),
        },
        Act::Namespace {
            ref name,
            block,
            past,
            future,
            retention,
        } => Act::Namespace {
            name: copied_text(alloc, enough, name),
            block,
            past,
            future,
            retention,
        },
        Act::Now { now } => Act::Now { now },
        Act::Write {
            ref ns,
            ref id,
            t,
            v,
            level,
            version,
        } => Act::Write {
            ns: copied_text(alloc, enough, ns),
            id: copied_text(alloc, enough, id),
            t,
            v,
            level,
            version,
        },
        Act::Fetch {
            ref ns,
            ref id,
            from,
            to,
            level,
            version,
        } => Act::Fetch {
            ns: copied_text(alloc, enough, ns),
            id: copied_text(alloc, enough, id),
            from,
            to,
            level,
            version,
        },
        Act::Match {
            ref ns,
            ref wanted,
            from,
            to,
            level,
            version,
        } => Act::Match {
            ns: copied_text(alloc, enough, ns),
            wanted: copied_list(alloc, enough, wanted),
            from,
            to,
            level,
            version,
        },
        Act::Fates { ref list } => Act::Fates {
            list: copied_list(alloc, enough, list),
        },
        Act::Deliver => Act::Deliver,
        Act::Stop { ref node } => Act::Stop {
            node: copied_text(alloc, enough, node),
        },
        Act::Restart { ref node, pick } => Act::Restart {
            node: copied_text(alloc, enough, node),
            pick,
        },
        Act::Bootstrap { ref node, shard } => Act::Bootstrap {
            node: copied_text(alloc, enough, node),
            shard,
        },
        Act::Add {
            ref node,
            ref group,
        } => Act::Add {
            node: copied_text(alloc, enough, node),
            group: copied_text(alloc, enough, group),
        },
        Act::Drain { ref node } => Act::Drain {
            node: copied_text(alloc, enough, node),
        },
        Act::Cancel { ref node } => Act::Cancel {
            node: copied_text(alloc, enough, node),
        },
        Act::Remove { ref node } => Act::Remove {
            node: copied_text(alloc, enough, node),
        },
        Act::Replace {
            ref node,
            ref by,
            ref group,
        } => Act::Replace {
            node: copied_text(alloc, enough, node),
            by: copied_text(alloc, enough, by),
            group: copied_text(alloc, enough, group),
        },
        Act::Tick => Act::Tick,
        Act::Flush => Act::Flush,
        Act::Snapshot => Act::Snapshot,
        Act::Repair => Act::Repair,
        Act::Status => Act::Status,
    }
}

impl Duplicate for Act {
    fn copy(&self, alloc: Global) -> Result<Act, Memory> {
        let mut enough = true;
        let copy = copied_act(alloc, &mut enough, self);
        finished(enough, copy, self)
    }
}
