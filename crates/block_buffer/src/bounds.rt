ghost use Rattle.std.specs.Prelude.{◌≡◌, ◌≢◌, ℕ, ◌+◌, ◌-◌, ◌*◌, ◌/◌, ◌^◌, ◌<◌, ◌≤◌, [], None, length, get_or, IfOk, IfSome, OnOk, OnErr, ◌⊎◌};
ghost use Rattle.block_buffer.specs.Bounds.{IsTreeBut, IsTree, bound_in};

use m3_model::Memory;
use std::alloc::Global;
use std::marker::Model;

// Times at positions that count from 0, in a tree: the next position with a time up to a given one is found in few steps, and a time is
// changed in the logarithm of the positions, without memory.
#[derive(Drop)]
pub(crate) struct Bounds {
    // Under the node n stand the nodes 2n and 2n + 1. The second half of the nodes are the positions.
    nodes: Vec<u64>,
}

impl Model for Bounds {
    ghost use Rattle.std.specs.Prelude.{◌≡◌, ◌*◌, ◌/◌, ℕ, List, length};
    ghost use Rattle.block_buffer.specs.Bounds.{IsTree};

    ghost Value = { List ℕ };

    ghost view = { λ b. b.nodes.items };

    ghost invariant = { λ b. IsTree b.nodes.items × (length b.nodes.items ≡ 2 * (length b.nodes.items / 2)) };
}

// The greater one of two numbers.
pub(crate) fn higher_of(a: usize, b: usize) -> usize
    ensures first { a ≤ result }
    ensures second { b ≤ result }
    ensures one { (result ≡ a) ⊎ (result ≡ b) }
{
    if a < b { b } else { a }
}

// The lesser one of two times.
pub(crate) fn lesser(a: u64, b: u64) -> u64
    ensures first { result ≤ a }
    ensures second { result ≤ b }
    ensures one { (result ≡ a) ⊎ (result ≡ b) }
{
    if b < a { b } else { a }
}

// Makes each node above this one the lesser of the two under it.
fn mend(nodes: &mut [u64], from: usize)
    requires inside { from < 2 * (length nodes.old / 2) }
    requires tree { IsTreeBut (from / 2) nodes.old }
    ensures tree { IsTree nodes.new }
    ensures kept { (j d : ℕ) → length nodes.old / 2 ≤ j → get_or nodes.new j d ≡ get_or nodes.old j d }
{
    let mut node = from;
    while node > 1 {
        node /= 2;
        nodes[node] = lesser(nodes[2 * node], nodes[2 * node + 1]);
    }
}

// How many nodes from this one on are known to be above the time, by the highest node above it that is, which stands over it and
// those after it.
fn width(nodes: &[u64], leaf: usize, high: u64) -> usize
    requires tree { IsTree nodes.now }
    requires leaf { (1 ≤ leaf) × (leaf < length nodes.now) }
    requires above { high < get_or nodes.now leaf 0 }
    ensures some { (0 < result) × (result ≤ leaf) }
    ensures above { (j : ℕ) → leaf ≤ j → j < leaf + result → j < length nodes.now → high < get_or nodes.now j 0 }
{
    let mut node = leaf;
    let mut width = 1;
    while node % 2 == 0 && high < nodes[node / 2] {
        node /= 2;
        width *= 2;
    }
    width
}

// The first position from this one on with a time up to the high one.
fn next_in(nodes: &[u64], from: usize, high: u64) -> Option<usize>
    requires tree { IsTree nodes.now }
    requires even { length nodes.now ≡ 2 * (length nodes.now / 2) }
    ensures none { result ≡ None → (q : ℕ) → from ≤ q → high < bound_in nodes.now q }
    ensures small { IfSome result (λ position. position < 2 ^ 63) }
    ensures some { IfSome result (λ position. (from ≤ position) × (bound_in nodes.now position ≤ high) × ((q : ℕ) → from ≤ q → q < position → high < bound_in nodes.now q)) }
{
    let positions = nodes.len() / 2;
    let mut position = from;
    while position < positions {
        if nodes[positions + position] <= high {
            return Some(position);
        }
        position += width(nodes, positions + position, high);
    }
    None
}

// Puts the times of the one at the same positions of the other, which has as many at least.
fn refill(wider: &mut Bounds, from: &Bounds)
    requires { length from.now / 2 ≤ length wider.old / 2 }
    ensures len { length wider.new ≡ length wider.old }
    ensures kept { (q : ℕ) → q < length from.now / 2 → bound_in wider.new q ≡ bound_in from.now q }
    ensures others { (q : ℕ) → length from.now / 2 ≤ q → bound_in wider.new q ≡ bound_in wider.old q }
{
    for position in 0..from.len() {
        wider.set(position, from.get(position));
    }
}

impl Bounds {
    // No positions. Takes no memory.
    pub(crate) fn new(alloc: Global) -> Bounds
        ensures { result ≡ [] }
    {
        Bounds {
            nodes: Vec::new(alloc),
        }
    }

    // How many positions there are.
    pub(crate) fn len(&self) -> usize
        ensures len { result ≡ length self.now / 2 }
        ensures even { length self.now ≡ 2 * (length self.now / 2) }
    {
        self.nodes.len() / 2
    }

    // The time at the position.
    pub(crate) fn get(&self, position: usize) -> u64
        requires { position < length self.now / 2 }
        ensures { result ≡ bound_in self.now position }
    {
        self.nodes[self.nodes.len() / 2 + position]
    }

    // Puts a time at the position.
    pub(crate) fn set(&mut self, position: usize, bound: u64)
        requires { position < length self.old / 2 }
        ensures len { length self.new ≡ length self.old }
        ensures set { bound_in self.new position ≡ bound }
        ensures others { (q : ℕ) → q ≢ position → bound_in self.new q ≡ bound_in self.old q }
    {
        let leaf = self.nodes.len() / 2 + position;
        self.nodes[leaf] = bound;
        mend(&mut self.nodes, leaf);
    }

    // The first position from this one on with a time up to the high one.
    pub(crate) fn next_up_to(&self, from: usize, high: u64) -> Option<usize>
        ensures none { result ≡ None → (q : ℕ) → from ≤ q → high < bound_in self.now q }
        ensures small { IfSome result (λ position. position < 2 ^ 63) }
        ensures some { IfSome result (λ position. (from ≤ position) × (bound_in self.now position ≤ high) × ((q : ℕ) → from ≤ q → q < position → high < bound_in self.now q)) }
    {
        next_in(&self.nodes, from, high)
    }

    // Makes positions up to this one, of which the new ones have the last time.
    pub(crate) fn widen(&mut self, alloc: Global, position: usize) -> Result<(), Memory>
        ensures lower { (q : ℕ) → bound_in self.new q ≤ bound_in self.old q }
        ensures ok { OnOk result (position < length self.new / 2) }
        ensures err { OnErr result (self.new ≡ self.old) }
    {
        if position < self.len() {
            return Ok(());
        }
        let Some(positions) = higher_of(position, self.nodes.len()).checked_add(1) else {
            return Err(Memory);
        };
        let mut wider = Bounds::filled(alloc, positions)?;
        refill(&mut wider, self);
        *self = wider;
        Ok(())
    }

    // So many positions with the last time.
    fn filled(alloc: Global, positions: usize) -> Result<Bounds, Memory>
        ensures len { IfOk result (λ b. length b ≡ 2 * positions) }
        ensures last { IfOk result (λ b. (q : ℕ) → q < positions → bound_in b q ≡ 2 ^ 64 - 1) }
    {
        let Some(count) = positions.checked_mul(2) else {
            return Err(Memory);
        };
        let mut nodes = Vec::with_capacity(alloc, count)?;
        nodes.resize(count, u64::MAX)?;
        Ok(Bounds { nodes })
    }
}
