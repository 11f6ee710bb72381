//! The former replicas of a shard, as they are to be asked.
ghost use Rattle.std.specs.Prelude.{◌≡◌, ◌<◌, length, IfOk};
ghost use Rattle.m3_model.specs.declared.limits.TheConstants.{MOST_NAMESPACES};
ghost use Rattle.placement_core.specs.Lawful.{IsLawful};
ghost use Rattle.peer_boot.specs.Claims.{moved_claims, times_below};

use boot_chain::{Claims, Origin, Range, RangeList, claim_by_origin};
use m3_model::limits::MOST_NAMESPACES;
use m3_model::{Memory, Placement, Seq};
use placement_core::former;
use session_net::Tally;
use std::alloc::Global;

// All times of each namespace that there may be, by namespace: placements don't tell which there are.
fn all_times(alloc: Global) -> Result<RangeList, Memory>
    ensures { IfOk result (λ ranges. ranges ≡ times_below MOST_NAMESPACES) }
{
    let mut ranges = Vec::new(alloc);
    for ns in 0..MOST_NAMESPACES as u8 {
        ranges.push(Range {
            ns,
            from: 0,
            to: u64::MAX,
        })?;
    }
    Ok(RangeList::from_vec(ranges))
}

// Runs the four bootstrappers for a shard that a node joins.
fn moved_claims(alloc: Global) -> Result<Claims, Memory>
    ensures { IfOk result (λ claims. claims ≡ moved_claims) }
{
    claim_by_origin(alloc, Origin::Moved, all_times(alloc)?)
}

/// The former replicas of a shard by name, the memory in which they are counted, and who claims what of the shard:
/// all of it the peers, as the files of a joining replica claim nothing. A join of the shard takes no other memory of its own.
#[derive(Drop)]
pub struct Asking {
    pub(crate) peers: Seq<u8>,
    pub(crate) tally: Tally,
    pub(crate) claims: Claims,
}

impl Asking {
    ghost use Rattle.std.specs.Prelude.{IfOk};
    ghost use Rattle.peer_boot.specs.Asks.{AsksOf};

    /// Those of the shard.
    ///
    /// # Errors
    ///
    /// Want of memory.
    pub fn of(alloc: Global, place: &Placement, shard: u32) -> Result<Asking, Memory>
        requires lawful { IsLawful place.now }
        requires below { shard < length place.now.shards }
        ensures { IfOk result (AsksOf place.entry.now shard) }
    {
        let peers = former(alloc, place, shard)?;
        let tally = Tally::with_room(alloc, peers.len())?;
        let claims = moved_claims(alloc)?;
        Ok(Asking {
            peers,
            tally,
            claims,
        })
    }
}
