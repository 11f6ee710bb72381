//! What a bootstrap is to mark, and what it has marked. Neither can be made elsewhere, nor dropped: each is used up.
ghost use Rattle.std.specs.Prelude.{◌≡◌};

use m3_model::{Answer, Placement, Seq};
use node_calls::of_replica_exchange::Slot;

/// Shards that a node joined and that stand marked, with the nodes whose tenures are still to end. Used up by `end_sources`.
pub struct Marked {
    // The placement that stands.
    pub(crate) printed: Placement,
    // Each shard, with whom the node merged.
    pub(crate) joined: Seq<(u32, Seq<u8>)>,
    // The slots from which the node takes over.
    pub(crate) sources: Vec<Slot>,
}

/// Shards that a node joined, and all that it takes to mark them: the placement in which their moves are over. Used up by `mark`, or given up.
pub struct Marking {
    pub(crate) next: Placement,
    // Each shard that was joined, with the node.
    pub(crate) done: Seq<(u32, u8)>,
    pub(crate) marked: Marked,
}

impl Marking {
    /// The placement that comes next.
    pub fn next(&self) -> &Placement
        ensures { result.now ≡ self.now.next }
    {
        &self.next
    }

    /// Gives the marking up: the moves go on, and what was merged stays.
    pub fn give_up(self) {
        let Marking { next, done, marked } = self;
        let Marked {
            printed,
            joined,
            sources,
        } = marked;
        drop(next);
        drop(done);
        drop(printed);
        drop(joined);
        drop(sources);
    }
}

/// How far the bootstrap of a node came before anything was marked.
pub enum Booting {
    /// The line is answered so: nothing is to be marked.
    Answered(Answer),
    /// Shards were joined, which are to be marked.
    Joined(Marking),
}
