ghost use Rattle.std.specs.Prelude.{◌≡◌, IsTrue};

use crate::copies::{copied_list, copied_text, finished};
use crate::duplicate::Duplicate;
use crate::memory::Memory;
use crate::placement::{Placement, ShardState, copied_placement};
use crate::point::Series;
use crate::reason::{Damage, Reason, copied_damage};
use crate::replica::Standing;
use crate::seq::Seq;
use crate::text::Text;
use std::alloc::Global;

/// What one repair did in one shard.
#[derive(Drop)]
pub struct RepairLine {
    /// The digests of the replicas that took part to the end.
    pub digests: Seq<(u8, [u8; 32])>,
    pub failed: Seq<(u8, Reason)>,
    pub merged: u64,
    pub shard: u32,
}

/// What one replica says of itself.
#[derive(Drop)]
pub struct StatusLine {
    pub buffered: u64,
    pub fence: u64,
    pub node: u8,
    pub segments: u64,
    pub shard: u32,
    pub snapshot: u64,
    pub standing: Standing,
    pub state: ShardState,
    pub volumes: u64,
}

/// The answer to one request. Nodes are numbers, but names in refusals.
#[derive(Drop)]
pub enum Answer {
    Done,
    Placed {
        placement: Placement,
        version: u64,
    },
    Acks {
        acks: Seq<u8>,
    },
    Found {
        series: Seq<Series>,
        short: bool,
    },
    Outcomes {
        /// Node, shard, and the reason where the write wasn't taken.
        outcomes: Seq<(u8, u32, Option<Reason>)>,
    },
    Available {
        /// Shards that turned available, each with the peers that were merged.
        available: Seq<(u32, Seq<u8>)>,
        placement: Placement,
        version: u64,
    },
    Swept {
        done: Seq<(u8, u32, u64)>,
        failed: Seq<(u8, u32, Reason)>,
    },
    Repaired {
        shards: Seq<RepairLine>,
    },
    Status {
        now: u64,
        replicas: Seq<StatusLine>,
        version: u64,
    },
    Form,
    Long,
    Order,
    Unknown {
        name: Text,
    },
    Limit {
        limit: u64,
    },
    Clock {
        now: u64,
    },
    Consistency {
        got: u32,
        needed: u32,
        reasons: Seq<(u8, Reason)>,
        shard: u32,
    },
    Busy {
        node: Text,
        shard: u32,
    },
    Group {
        shard: u32,
    },
    Peers {
        got: u32,
        needed: u32,
        reasons: Seq<(u8, Reason)>,
        shard: u32,
    },
    Disk {
        node: Text,
        shard: u32,
    },
    State {
        node: Text,
    },
    Memory,
    Full,
    Corrupt {
        node: Text,
        shard: u32,
        damage: Damage,
    },
    /// No part of the program serves the request yet.
    Later,
}

impl Duplicate for RepairLine {
    fn copy(&self, alloc: Global) -> Result<RepairLine, Memory> {
        let digests = self.digests.copy(alloc)?;
        let failed = self.failed.copy(alloc)?;
        Ok(RepairLine {
            digests,
            failed,
            merged: self.merged,
            shard: self.shard,
        })
    }
}

impl Duplicate for StatusLine {
    fn copy(&self, _alloc: Global) -> Result<StatusLine, Memory> {
        Ok(StatusLine {
            buffered: self.buffered,
            fence: self.fence,
            node: self.node,
            segments: self.segments,
            shard: self.shard,
            snapshot: self.snapshot,
            standing: self.standing,
            state: self.state,
            volumes: self.volumes,
        })
    }
}

/// A copy if memory is there for all of it, and an answer with empty parts if not.
pub(crate) fn copied_answer(alloc: Global, enough: &mut bool, answer: &Answer) -> Answer
    ensures { IsTrue enough.new → (IsTrue enough.old × (result ≡ answer.now)) }
{
    match *answer {
        Answer::Done => Answer::Done,
        Answer::Placed {
            ref placement,
            version,
        } => Answer::Placed {
            placement: copied_placement(alloc, enough, placement),
            version,
        },
        Answer::Acks { ref acks } => Answer::Acks {
            acks: copied_list(alloc, enough, acks),
        },
        Answer::Found { ref series, short } => Answer::Found {
            series: copied_list(alloc, enough, series),
            short,
        },
        Answer::Outcomes { ref outcomes } => Answer::Outcomes {
            outcomes: copied_list(alloc, enough, outcomes),
        },
        Answer::Available {
            ref available,
            ref placement,
            version,
        } => Answer::Available {
            available: copied_list(alloc, enough, available),
            placement: copied_placement(alloc, enough, placement),
            version,
        },
        Answer::Swept {
            ref done,
            ref failed,
        } => Answer::Swept {
            done: copied_list(alloc, enough, done),
            failed: copied_list(alloc, enough, failed),
        },
        Answer::Repaired { ref shards } => Answer::Repaired {
            shards: copied_list(alloc, enough, shards),
        },
        Answer::Status {
            now,
            ref replicas,
            version,
        } => Answer::Status {
            now,
            replicas: copied_list(alloc, enough, replicas),
            version,
        },
        Answer::Form => Answer::Form,
        Answer::Long => Answer::Long,
        Answer::Order => Answer::Order,
        Answer::Unknown { ref name } => Answer::Unknown {
            name: copied_text(alloc, enough, name),
        },
        Answer::Limit { limit } => Answer::Limit { limit },
        Answer::Clock { now } => Answer::Clock { now },
        Answer::Consistency {
            got,
            needed,
            ref reasons,
            shard,
        } => Answer::Consistency {
            got,
            needed,
            reasons: copied_list(alloc, enough, reasons),
            shard,
        },
        Answer::Busy { ref node, shard } => Answer::Busy {
            node: copied_text(alloc, enough, node),
            shard,
        },
        Answer::Group { shard } => Answer::Group { shard },
        Answer::Peers {
            got,
            needed,
            ref reasons,
            shard,
        } => Answer::Peers {
            got,
            needed,
            reasons: copied_list(alloc, enough, reasons),
            shard,
        },
        Answer::Disk { ref node, shard } => Answer::Disk {
            node: copied_text(alloc, enough, node),
            shard,
        },
        Answer::State { ref node } => Answer::State {
            node: copied_text(alloc, enough, node),
        },
        Answer::Memory => Answer::Memory,
        Answer::Full => Answer::Full,
        Answer::Corrupt {
            ref node,
            shard,
            ref damage,
        } => Answer::Corrupt {
            node: copied_text(alloc, enough, node),
            shard,
            damage: copied_damage(alloc, enough, damage),
        },
        Answer::Later => Answer::Later,
    }
}

impl Duplicate for Answer {
    fn copy(&self, alloc: Global) -> Result<Answer, Memory> {
        let mut enough = true;
        let copy = copied_answer(alloc, &mut enough, self);
        finished(enough, copy, self)
    }
}
