//! Shards that a node joined.
ghost use Rattle.std.specs.Prelude.{◌≡◌};

use m3_model::Seq;
use peer_boot::Merged;
use std::marker::Model;

/// A shard that a node joined, the node from which it takes over, and the former replicas that streamed whole. Made of a merge alone.
#[derive(Drop)]
pub struct JoinedShard {
    shard: u32,
    source: u8,
    peers: Seq<u8>,
}

impl Model for JoinedShard {
    ghost use Rattle.node_joins.specs.Joined.{JoinedOf, joined_code};

    ghost Value = { JoinedOf };

    ghost coded = { joined_code };

    ghost view = { λ j. record { shard = j.shard; source = j.source; peers = j.peers } };
}

impl JoinedShard {
    // What was merged, where the node takes over from this one. Uses the merge up.
    pub(crate) fn of(source: u8, merged: Merged) -> JoinedShard
        ensures { result ≡ record { shard = merged.shard; source = source; peers = merged.peers } }
    {
        let shard = merged.shard();
        JoinedShard {
            shard,
            source,
            peers: merged.into_peers(),
        }
    }

    /// The number of the shard.
    pub fn shard(&self) -> u32
        ensures { result ≡ self.now.shard }
    {
        self.shard
    }

    /// The node from which the node takes over.
    pub fn source(&self) -> u8
        ensures { result ≡ self.now.source }
    {
        self.source
    }

    /// The shard with the nodes of the former replicas that streamed whole, by name.
    pub fn into_printed(self) -> (u32, Seq<u8>)
        ensures { result ≡ (self.shard, self.peers) }
    {
        let JoinedShard { shard, peers, .. } = self;
        (shard, peers)
    }
}
