ghost use Rattle.std.specs.Prelude.{◌≡◌, IsTrue};

use crate::copies::{copied_list, finished};
use crate::duplicate::Duplicate;
use crate::memory::Memory;
use crate::seq::Seq;
use crate::text::Text;
use std::alloc::Global;

/// The state of a shard on a node.
///
/// See M3DB's page "Placement": shards are Initializing, Available or Leaving.
#[derive(Clone, Copy, Debug, PartialEq, Eq)]
pub enum ShardState {
    Initializing,
    Available,
    Leaving,
}

/// One shard on one node.
#[derive(Clone, Copy, Debug)]
pub struct Assignment {
    /// The position of the node in the placement's instances.
    pub node: u8,
    /// The placement version that assigned the shard to the node.
    pub tenure: u64,
    pub state: ShardState,
    /// The node whose replica of the shard this one takes over.
    pub source: Option<u8>,
}

/// A node. One that was removed stays, with `listed` false, so that node numbers last.
pub struct Instance {
    pub name: Text,
    /// Its isolation group.
    pub group: Text,
    pub listed: bool,
    /// Whether its shards were taken away, so that it takes no new ones.
    pub drained: bool,
}

impl Drop for Instance {
    fn drop(self) {
        let Instance {
            name: _,
            group: _,
            listed: _,
            drained: _,
        } = self;
    }
}

/// Which node has which shard.
///
/// See M3DB's page "Placement".
pub struct Placement {
    /// 1 for the first placement, one higher with each step.
    pub version: u64,
    /// The number of replicas of each shard, from 1 to 5.
    pub rf: u32,
    /// The nodes in the order in which they were first named.
    pub instances: Seq<Instance>,
    pub shards: Seq<Seq<Assignment>>,
}

impl Drop for Placement {
    fn drop(self) {
        let Placement {
            version: _,
            rf: _,
            instances: _,
            shards: _,
        } = self;
    }
}

impl Duplicate for ShardState {
    fn copy(&self, _alloc: Global) -> Result<ShardState, Memory> {
        Ok(*self)
    }
}

impl Duplicate for Assignment {
    fn copy(&self, _alloc: Global) -> Result<Assignment, Memory> {
        Ok(*self)
    }
}

impl Duplicate for Instance {
    fn copy(&self, alloc: Global) -> Result<Instance, Memory> {
        let name = self.name.copy(alloc)?;
        let group = self.group.copy(alloc)?;
        Ok(Instance {
            name,
            group,
            listed: self.listed,
            drained: self.drained,
        })
    }
}

/// A copy if memory is there for all of it, and a placement with empty lists if not.
pub(crate) fn copied_placement(alloc: Global, enough: &mut bool, placement: &Placement) -> Placement
    ensures { IsTrue enough.new → (IsTrue enough.old × (result ≡ placement.now)) }
{
    Placement {
        version: placement.version,
        rf: placement.rf,
        instances: copied_list(alloc, enough, &placement.instances),
        shards: copied_list(alloc, enough, &placement.shards),
    }
}

impl Duplicate for Placement {
    fn copy(&self, alloc: Global) -> Result<Placement, Memory> {
        let mut enough = true;
        let copy = copied_placement(alloc, &mut enough, self);
        finished(enough, copy, self)
    }
}
