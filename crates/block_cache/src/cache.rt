ghost use Rattle.std.specs.Prelude.{◌≡◌, ◌≤◌, ◌<◌, ◌↔◌, [], length, None, IsOk, IsSome, IfOk, IfErr, OnOk, OnErr};
ghost use Rattle.std.specs.Borrow.{sem};
ghost use Rattle.std.specs.List.{IsDistinct};
ghost use Rattle.std.specs.Map.{keys_of};
ghost use Rattle.std.specs.Option.{option_copied};
ghost use Rattle.block_cache.specs.Blocks.{no_blocks, same_block, rows_of, after_get, after_put, after_forget};
ghost use Rattle.block_cache.specs.Uses.{Leaves};

use lru::LruCache;
use m3_model::{Memory, Seq, Series};
use std::alloc::Global;
use std::marker::Model;
use std::num::NonZeroUsize;

/// The rows of the blocks that were used last, by namespace, block start and number of the volume. Contracts see them,
/// the one used last first, and how many there may be.
#[derive(Drop)]
pub struct Cache {
    blocks: LruCache<(u8, u64, u64), Seq<Series>>,
}

impl Model for Cache {
    ghost use Rattle.block_cache.specs.Blocks.{Blocks};

    ghost Value = { Blocks };

    ghost view = { λ c. record { held = c.blocks.entries; most = c.blocks.cap } };
}

impl Cache {
    /// A cache that holds nothing, and at most so many blocks: at least 1. It takes the room for all its keys.
    ///
    /// # Errors
    ///
    /// Want of memory.
    pub fn new(alloc: Global, blocks: usize) -> Result<Cache, Memory>
        requires { 1 ≤ blocks }
        ensures { IfOk result (λ cache. cache ≡ no_blocks blocks) }
    {
        let most = NonZeroUsize::new(blocks).unwrap();
        let blocks = LruCache::new(alloc, most)?;
        Ok(Cache { blocks })
    }

    /// The rows of the block, which then is the one used last; `None` exactly where the cache doesn't have it, and then
    /// nothing changes. Takes no memory.
    pub fn get(&mut self, key: (u8, u64, u64)) -> Option<&Seq<Series>>
        ensures value { option_copied result ≡ rows_of key self.old }
        ensures* used { sem 𝓛 (Leaves self.entry (after_get key self.old)) }
    {
        self.blocks.get(&key)
    }

    /// Holds these rows for the block, which then is the one used last. They replace the ones that it had; those of a
    /// further block, where as many blocks are held as there may be, take the place of the one that wasn't used for
    /// longest. Want of memory hands the rows back and changes nothing; it can't come for a block that the cache has.
    pub fn put(&mut self, key: (u8, u64, u64), rows: Seq<Series>) -> Result<(), Seq<Series>>
        ensures ok { OnOk result (self.new ≡ after_put key rows self.old) }
        ensures back { IfErr result (λ back. back ≡ rows) }
        ensures err { OnErr result (self.new ≡ self.old) }
        ensures succeeds { IsSome (rows_of key self.old) → IsOk result }
    {
        match self.blocks.put(key, rows) {
            Ok(_) => Ok(()),
            Err(refused) => Err(refused.value.1),
        }
    }

    /// Drops the rows of the block, where the cache has them; the others stay as they are. Takes no memory.
    pub fn forget(&mut self, key: (u8, u64, u64))
        ensures { self.new ≡ after_forget key self.old }
    {
        drop(self.blocks.pop(&key));
    }

    /// How many blocks are held. Each stands there once, and there are no more than there may be. Takes no memory.
    pub fn len(&self) -> usize
        ensures len { result ≡ length self.now.held }
        ensures few { length self.now.held ≤ self.now.most }
        ensures once { IsDistinct same_block (keys_of self.now.held) }
    {
        self.blocks.len()
    }
}
