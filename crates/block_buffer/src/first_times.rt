ghost use Rattle.std.specs.Prelude.{◌≡◌, ℕ, ◌/◌, ◌^◌, ◌<◌, ◌≤◌, [], None, false, length, get_or, IsTrue, IfSome, OnOk};
ghost use Rattle.block_buffer.specs.Bounds.{bound_at, HasGroup};

use crate::bounds::Bounds;
use m3_model::Memory;
use std::alloc::Global;

// For each namespace times at groups of series, by which those groups are found that have a series with an early slot.
#[derive(Drop)]
pub(crate) struct FirstTimes {
    spaces: Vec<Bounds>,
}

impl FirstTimes {
    // No groups. Takes no memory.
    pub(crate) fn new(alloc: Global) -> FirstTimes
        ensures { result.spaces.items ≡ [] }
    {
        FirstTimes {
            spaces: Vec::new(alloc),
        }
    }

    // Takes the memory for a time at the group.
    pub(crate) fn room(&mut self, alloc: Global, ns: u8, group: usize) -> Result<(), Memory>
        ensures lower { (n g : ℕ) → bound_at self.new.spaces.items n g ≤ bound_at self.old.spaces.items n g }
        ensures room { OnOk result (HasGroup self.new.spaces.items ns group) }
    {
        let space = ns as usize;
        while self.spaces.len() <= space {
            self.spaces.push(Bounds::new(alloc))?;
        }
        self.spaces[space].widen(alloc, group)
    }

    // Whether a time stands at the group.
    fn has(&self, ns: u8, group: usize) -> bool
        ensures space { IsTrue result → ns < length self.now.spaces.items }
        ensures position { IsTrue result → group < length (get_or self.now.spaces.items ns []) / 2 }
        ensures none { result ≡ false → (g : ℕ) → group ≤ g → HasGroup self.now.spaces.items ns g → ⊥ }
    {
        match self.spaces.get(ns as usize) {
            Some(bounds) => group < bounds.len(),
            None => false,
        }
    }

    // Lowers the time at the group to this one, if it is later.
    pub(crate) fn lower(&mut self, ns: u8, group: usize, t: u64)
        ensures lower { (n g : ℕ) → bound_at self.new.spaces.items n g ≤ bound_at self.old.spaces.items n g }
        ensures noted { (g : ℕ) → group ≤ g → HasGroup self.old.spaces.items ns g → bound_at self.new.spaces.items ns group ≤ t }
    {
        if !self.has(ns, group) {
            return;
        }
        if t < self.spaces[ns as usize].get(group) {
            self.spaces[ns as usize].set(group, t);
        }
    }

    // Puts the time at the group, if one stands there.
    pub(crate) fn set(&mut self, ns: u8, group: usize, t: u64)
        ensures others { (n g : ℕ) → ((n ≡ ns) → (g ≡ group) → ⊥) → bound_at self.new.spaces.items n g ≡ bound_at self.old.spaces.items n g }
        ensures here { HasGroup self.old.spaces.items ns group → bound_at self.new.spaces.items ns group ≡ t }
    {
        if self.has(ns, group) {
            self.spaces[ns as usize].set(group, t);
        }
    }

    // The first group from this one on at which a time up to the high one stands.
    pub(crate) fn next_up_to(&self, ns: u8, from: usize, high: u64) -> Option<usize>
        ensures none { result ≡ None → (g : ℕ) → from ≤ g → high < bound_at self.now.spaces.items ns g }
        ensures small { IfSome result (λ group. group < 2 ^ 63) }
        ensures some { IfSome result (λ group. (from ≤ group) × (bound_at self.now.spaces.items ns group ≤ high) × ((g : ℕ) → from ≤ g → g < group → high < bound_at self.now.spaces.items ns g)) }
    {
        self.spaces.get(ns as usize)?.next_up_to(from, high)
    }
}
