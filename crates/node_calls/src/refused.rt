//! Replicas that refuse a restart, and what is answered then.
ghost use Rattle.std.specs.Prelude.{◌≡◌};
ghost use Rattle.node_calls.specs.Boots.{refused_answer};

use m3_model::{Answer, Reason, Text};

// A shard of a node whose replica refused its restart, and why.
#[derive(Drop)]
pub(crate) struct Refused {
    pub(crate) shard: u32,
    pub(crate) why: Reason,
}

impl Refused {
    // The answer, of the node of this name.
    pub(crate) fn answer(self, node: Text) -> Answer
        ensures { result ≡ refused_answer node self.shard self.why }
    {
        let Refused { shard, why } = self;
        match why {
            Reason::Disk => Answer::Disk { node, shard },
            _ => Answer::Memory,
        }
    }
}
