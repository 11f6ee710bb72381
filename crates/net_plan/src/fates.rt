ghost use Rattle.std.specs.Prelude.{◌≡◌, ◌↔◌, [], None, IsTrue};
ghost use Rattle.std.specs.FinMap as finite;
ghost use Rattle.std.specs.List.{list_any};
ghost use Rattle.std.specs.Ordering.{eq_by_cmp};
ghost use Rattle.net_plan.specs.FateKeys.{fate_key_cmp};
ghost use Rattle.net_plan.specs.Fates.{key_of, fate_of, fates_of, IsFatesRow};

use crate::fate_key::FateKey;
use m3_model::{Fate, Seq};
use std::alloc::Global;
use std::marker::Model;

/// What becomes of each message: the fate that is listed for it, and else it is delivered. Contracts see a finite map
/// from messages to the listed fates.
#[derive(Drop)]
pub struct Fates {
    items: Vec<(u32, u64, u8, Fate)>,
}

impl Model for Fates {
    ghost use Rattle.net_plan.specs.Fates.{FateMap, fate_map_code, fates_of, IsSortedRow};

    ghost Value = { FateMap };

    ghost coded = { fate_map_code };

    ghost view = { λ f. fates_of f.items.items };

    ghost invariant = { λ f. IsSortedRow f.items.items };
}

fn key_of(item: &(u32, u64, u8, Fate)) -> FateKey
    ensures { result ≡ key_of item.now }
{
    FateKey {
        client: item.0,
        call: item.1,
        node: item.2,
    }
}

fn has_item_of(list: &[(u32, u64, u8, Fate)], key: FateKey) -> bool
    ensures { result ≡ list_any (λ item. eq_by_cmp fate_key_cmp key (key_of item)) list.now }
{
    list.iter().any(|item| key == key_of(item))
}

/// Whether no two items of the list are of one message, and none is `Deliver`. Takes no memory, and time in proportion
/// to the number of pairs.
pub fn is_fates_row(list: &[(u32, u64, u8, Fate)]) -> bool
    ensures { IsTrue result ↔ IsFatesRow list.now }
{
    let mut rest = list;
    while let Some((item, later)) = rest.split_first() {
        if item.3 == Fate::Deliver || has_item_of(later, key_of(item)) {
            return false;
        }
        rest = later;
    }
    true
}

impl Fates {
    /// No fates: each message is delivered. Takes no memory.
    pub fn empty(alloc: Global) -> Fates
        ensures { result ≡ fates_of [] }
    {
        Fates {
            items: Vec::new(alloc),
        }
    }

    /// The fates of a list of client, number of its call, node and fate. No two items are of one message, and none is
    /// `Deliver`, as `is_fates_row` tells. Takes no memory, and time O(n log n).
    pub fn new(list: Seq<(u32, u64, u8, Fate)>) -> Fates
        requires { IsFatesRow list }
        ensures { result ≡ fates_of list }
    {
        let mut items = list.into_vec();
        items.sort_unstable_by_key(key_of);
        Fates { items }
    }

    /// The fate that is listed for the message, and `Deliver` exactly where none is. Takes no memory, and time O(log n).
    pub fn fate(&self, call: &FateKey) -> Fate
        ensures listed { result ≡ fate_of self.now call.now }
        ensures deliver { (result ≡ Fate.Deliver) ↔ (finite.get self.now call.now ≡ None) }
    {
        match self.items.binary_search_by_key(call, key_of) {
            Ok(position) => self.items[position].3,
            Err(_) => Fate::Deliver,
        }
    }
}
