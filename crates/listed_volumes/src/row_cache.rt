//! The rows of the volumes that were matched last.
ghost use Rattle.std.specs.Prelude.{◌≡◌, ◌⊎◌, ◌↔◌, ◌≤◌, is_some, [], ◌∷◌, length, None, IfOk, IfSome, IsTrue};
ghost use Rattle.std.specs.Option.{option_copied};
ghost use Rattle.m3_model.specs.Reads.{IsOrdered};
ghost use Rattle.volume_points.specs.volume_bytes.Heads.{head_of};
ghost use Rattle.block_cache.specs.Blocks.{no_blocks, rows_of, after_forget, after_get, after_put};
ghost use Rattle.volume_points.specs.Picked.{AreAscending};
ghost use Rattle.listed_volumes.specs.Cached.{HasForgotten, IsFoundInRows, blocks_in, cache_key};
ghost use Rattle.listed_volumes.specs.FirstListed.{AreFirstInRows};

use block_cache::Cache;
use first_points::first_of_rows;
use m3_model::{Key, Memory, Pick, Point, Seq, Series};
use std::alloc::Global;
use std::marker::Model;
use volume_points::of_volume_bytes::Head;
use volume_points::select_from;

/// At most so many volumes have their rows kept.
const MOST_BLOCKS: usize = 64;

/// The rows of the volumes that were matched last, of 64 at most. Rows that are kept ascend, so that points are selected from them
/// without another check. It takes no memory before the first rows are kept.
#[derive(Drop)]
pub struct RowCache {
    blocks: Option<Cache>,
}

impl Model for RowCache {
    ghost use Rattle.block_cache.specs.Blocks.{Blocks};

    ghost Value = { Blocks };

    ghost use Rattle.listed_volumes.specs.Cached.{AreInOrder, blocks_in};

    ghost view = { λ c. blocks_in c.blocks };

    ghost invariant = { λ c. AreInOrder (blocks_in c.blocks) };
}

// The block of a volume.
fn cache_key(head: &Head) -> (u8, u64, u64)
    ensures { result ≡ cache_key (head_of head.now) }
{
    (head.ns, head.start, head.number)
}

// Drops the rows of the block, of which the cache has each once.
fn forget_block(cache: &mut Cache, key: (u8, u64, u64))
    ensures same { cache.new ≡ after_forget key cache.old }
    ensures gone { rows_of key cache.new ≡ None }
{
    if 0 < cache.len() {
        cache.forget(key);
    }
}

// The same, where there is a cache.
fn forget_in(blocks: &mut Option<Cache>, key: (u8, u64, u64))
    ensures same { blocks_in blocks.new ≡ after_forget key (blocks_in blocks.old) }
    ensures gone { rows_of key (blocks_in blocks.new) ≡ None }
{
    if let Some(cache) = blocks {
        forget_block(cache, key);
    }
}

// The points in the range that the pick asks for, of the rows of the block, where the cache has it.
fn find_block(
    alloc: Global,
    cache: &mut Cache,
    key: (u8, u64, u64),
    pick: &Pick,
    from: u64,
    to: u64,
) -> Result<Option<Seq<Series>>, Memory>
    requires { IfSome (rows_of key cache.old) AreAscending }
    ensures used { cache.new ≡ after_get key cache.old }
    ensures there { IfOk result (λ found. is_some found ≡ is_some (rows_of key cache.old)) }
    ensures found { IfOk result (λ found. IfSome found (IsFoundInRows key cache.old pick.now from to)) }
    ensures ordered { IfOk result (λ found. IfSome found IsOrdered) }
{
    match cache.get(key) {
        Some(rows) => Ok(Some(select_from(alloc, rows.as_slice(), pick, from, to)?)),
        None => Ok(None),
    }
}

// The same, where there is a cache.
fn find_in(
    alloc: Global,
    blocks: &mut Option<Cache>,
    key: (u8, u64, u64),
    pick: &Pick,
    from: u64,
    to: u64,
) -> Result<Option<Seq<Series>>, Memory>
    requires { IfSome (rows_of key (blocks_in blocks.old)) AreAscending }
    ensures used { blocks_in blocks.new ≡ after_get key (blocks_in blocks.old) }
    ensures there { IfOk result (λ found. is_some found ≡ is_some (rows_of key (blocks_in blocks.old))) }
    ensures found { IfOk result (λ found. IfSome found (IsFoundInRows key (blocks_in blocks.old) pick.now from to)) }
    ensures ordered { IfOk result (λ found. IfSome found IsOrdered) }
{
    match blocks {
        Some(cache) => find_block(alloc, cache, key, pick, from, to),
        None => Ok(None),
    }
}

// The first points above the key, up to the last one, of the rows of the block, where the cache has it.
fn first_of_block(
    alloc: Global,
    cache: &mut Cache,
    key: (u8, u64, u64),
    after: Option<&Key>,
    last: Option<&Point>,
    limit: usize,
) -> Result<Option<Seq<Point>>, Memory>
    requires { IfSome (rows_of key cache.old) AreAscending }
    ensures used { cache.new ≡ after_get key cache.old }
    ensures first { IfOk result (λ found. IfSome found (AreFirstInRows key cache.old (option_copied after.entry) (option_copied last.entry) limit)) }
{
    match cache.get(key) {
        Some(rows) => Ok(Some(first_of_rows(alloc, key.0, rows.as_slice(), after, last, limit)?)),
        None => Ok(None),
    }
}

// The same, where there is a cache.
fn first_in(
    alloc: Global,
    blocks: &mut Option<Cache>,
    key: (u8, u64, u64),
    after: Option<&Key>,
    last: Option<&Point>,
    limit: usize,
) -> Result<Option<Seq<Point>>, Memory>
    requires { IfSome (rows_of key (blocks_in blocks.old)) AreAscending }
    ensures used { blocks_in blocks.new ≡ after_get key (blocks_in blocks.old) }
    ensures first { IfOk result (λ found. IfSome found (AreFirstInRows key (blocks_in blocks.old) (option_copied after.entry) (option_copied last.entry) limit)) }
{
    match blocks {
        Some(cache) => first_of_block(alloc, cache, key, after, last, limit),
        None => Ok(None),
    }
}

// Makes the cache where there is none, if there is memory for it.
fn begin(alloc: Global, blocks: &mut Option<Cache>)
    ensures { blocks_in blocks.new ≡ blocks_in blocks.old }
{
    if blocks.is_some() {
        return;
    }
    if let Ok(cache) = Cache::new(alloc, MOST_BLOCKS) {
        drop(blocks.replace(cache));
    }
}

// Keeps the rows of the block, where there is memory for them. Else they are dropped.
fn keep_in(alloc: Global, blocks: &mut Option<Cache>, key: (u8, u64, u64), rows: Seq<Series>)
    ensures { (blocks_in blocks.new ≡ blocks_in blocks.old) ⊎ (blocks_in blocks.new ≡ after_put key rows (blocks_in blocks.old)) }
{
    begin(alloc, blocks);
    if let Some(cache) = blocks {
        drop(cache.put(key, rows));
    }
}

impl RowCache {
    /// Keeps nothing yet.
    pub fn new() -> RowCache
        ensures { result ≡ no_blocks 64 }
    {
        RowCache { blocks: None }
    }

    /// Forgets the rows of this volume. Takes no memory.
    pub fn forget(&mut self, head: &Head)
        ensures { HasForgotten (head.now ∷ []) self.old self.new }
    {
        forget_in(&mut self.blocks, cache_key(head));
    }

    /// Forgets the rows of these volumes. Takes no memory.
    pub fn forget_all(&mut self, heads: &[Head])
        ensures { HasForgotten heads.now self.old self.new }
    {
        for head in heads {
            self.forget(head);
        }
    }

    // Whether the rows of as many volumes are kept as may be.
    pub(crate) fn is_full(&self) -> bool
        ensures { IsTrue result ↔ (64 ≤ length self.now.held) }
    {
        match &self.blocks {
            Some(cache) => MOST_BLOCKS <= cache.len(),
            None => false,
        }
    }

    // The points in the range that the pick asks for, of the rows of this volume; `None` exactly where they aren't kept.
    pub(crate) fn find(
        &mut self,
        alloc: Global,
        head: &Head,
        pick: &Pick,
        from: u64,
        to: u64,
    ) -> Result<Option<Seq<Series>>, Memory>
        ensures used { self.new ≡ after_get (cache_key (head_of head.now)) self.old }
        ensures there { IfOk result (λ found. is_some found ≡ is_some (rows_of (cache_key (head_of head.now)) self.old)) }
        ensures found { IfOk result (λ found. IfSome found (IsFoundInRows (cache_key (head_of head.now)) self.old pick.now from to)) }
        ensures ordered { IfOk result (λ found. IfSome found IsOrdered) }
    {
        find_in(alloc, &mut self.blocks, cache_key(head), pick, from, to)
    }

    // The first points above the key, up to the last one, of the rows of this volume, so many or all; `None` where they aren't kept.
    pub(crate) fn first(
        &mut self,
        alloc: Global,
        head: &Head,
        after: Option<&Key>,
        last: Option<&Point>,
        limit: usize,
    ) -> Result<Option<Seq<Point>>, Memory>
        ensures used { self.new ≡ after_get (cache_key (head_of head.now)) self.old }
        ensures first { IfOk result (λ found. IfSome found (AreFirstInRows (cache_key (head_of head.now)) self.old (option_copied after.entry) (option_copied last.entry) limit)) }
    {
        first_in(alloc, &mut self.blocks, cache_key(head), after, last, limit)
    }

    // Keeps these rows of this volume, which ascend, where there is memory for them. Else they are dropped.
    pub(crate) fn keep(&mut self, alloc: Global, head: &Head, rows: Seq<Series>)
        requires { AreAscending rows }
        ensures { (self.new ≡ self.old) ⊎ (self.new ≡ after_put (cache_key (head_of head.now)) rows self.old) }
    {
        keep_in(alloc, &mut self.blocks, cache_key(head), rows);
    }
}
