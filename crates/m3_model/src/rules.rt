use crate::duplicate::Duplicate;
use crate::memory::Memory;
use crate::placement::Placement;
use crate::seq::Seq;
use crate::text::Text;
use std::alloc::Global;

/// A namespace. Durations are below 2^40, in the unit of moments and timestamps.
///
/// See M3DB's page "Namespace Configuration".
pub struct Space {
    pub name: Text,
    /// The size of a block, at least 1.
    pub block: u64,
    /// How far below the moment a write may lie; below `block`.
    pub past: u64,
    /// How far above the moment a write may lie; below `block`.
    pub future: u64,
    /// How long a point is kept; at least `block`.
    pub retention: u64,
}

impl Drop for Space {
    fn drop(self) {
        let Space {
            name: _,
            block: _,
            past: _,
            future: _,
            retention: _,
        } = self;
    }
}

/// The moment and the namespaces in the order in which they were made.
pub struct Rules {
    pub now: u64,
    pub spaces: Seq<Space>,
}

impl Drop for Rules {
    fn drop(self) {
        let Rules { now: _, spaces: _ } = self;
    }
}

/// What the meta disk holds of a cluster.
pub struct MetaState {
    pub rules: Rules,
    pub seed: u32,
    pub place: Placement,
}

impl Drop for MetaState {
    fn drop(self) {
        let MetaState {
            rules: _,
            seed: _,
            place: _,
        } = self;
    }
}

impl Duplicate for Space {
    fn copy(&self, alloc: Global) -> Result<Space, Memory> {
        Ok(Space {
            name: self.name.copy(alloc)?,
            block: self.block,
            past: self.past,
            future: self.future,
            retention: self.retention,
        })
    }
}

impl Duplicate for Rules {
    fn copy(&self, alloc: Global) -> Result<Rules, Memory> {
        Ok(Rules {
            now: self.now,
            spaces: self.spaces.copy(alloc)?,
        })
    }
}

impl Duplicate for MetaState {
    fn copy(&self, alloc: Global) -> Result<MetaState, Memory> {
        let rules = self.rules.copy(alloc)?;
        let place = self.place.copy(alloc)?;
        Ok(MetaState {
            rules,
            seed: self.seed,
            place,
        })
    }
}
