//! What a stream and a join leave in the hand of who asked for them. Neither can be made elsewhere, nor dropped: each is used up.
ghost use Rattle.std.specs.Prelude.{◌≡◌, [], length};

use m3_model::Seq;
use std::marker::Model;

/// A former replica that streamed whole, by its node.
pub struct Cover {
    peer: u8,
}

impl Model for Cover {
    ghost use Rattle.std.specs.Prelude.{ℕ};

    ghost Value = { ℕ };

    ghost view = { λ c. c.peer };
}

impl Cover {
    // Of this node.
    pub(crate) fn of(peer: u8) -> Cover
        ensures { result ≡ peer }
    {
        Cover { peer }
    }

    /// Its node. Uses the cover up.
    pub fn into_peer(self) -> u8
        ensures { result ≡ self }
    {
        let Cover { peer } = self;
        peer
    }
}

/// A shard that a node joins with a tenure, and the former replicas, a majority, that streamed whole to it. It is used up where
/// the move is marked as over, or given up.
pub struct Merged {
    shard: u32,
    node: u8,
    tenure: u64,
    peers: Seq<u8>,
}

impl Model for Merged {
    ghost use Rattle.peer_boot.specs.Merges.{MergedOf, merged_code};

    ghost Value = { MergedOf };

    ghost coded = { merged_code };

    ghost view = { λ m. record { shard = m.shard; node = m.node; tenure = m.tenure; peers = m.peers } };
}

impl Merged {
    // Of these nodes, in their order.
    pub(crate) fn of(shard: u32, node: u8, tenure: u64, peers: Seq<u8>) -> Merged
        ensures { result ≡ record { shard = shard; node = node; tenure = tenure; peers = peers } }
    {
        Merged {
            shard,
            node,
            tenure,
            peers,
        }
    }

    /// The number of the shard.
    pub fn shard(&self) -> u32
        ensures { result ≡ self.now.shard }
    {
        self.shard
    }

    /// The node that joins it.
    pub fn node(&self) -> u8
        ensures { result ≡ self.now.node }
    {
        self.node
    }

    /// The nodes of the former replicas, in the order in which they streamed, which is that of their names.
    pub fn peers(&self) -> &[u8]
        ensures { result.now ≡ self.now.peers }
    {
        self.peers.as_slice()
    }

    /// The same, for the marking, which uses the merge up.
    pub fn into_peers(self) -> Seq<u8>
        ensures { result ≡ self.peers }
    {
        let Merged {
            shard: _,
            node: _,
            tenure: _,
            peers,
        } = self;
        peers
    }

    /// Gives the merge up: the move goes on, and what was merged stays.
    pub fn give_up(self) {
        let Merged {
            shard: _,
            node: _,
            tenure: _,
            peers,
        } = self;
        drop(peers);
    }
}
