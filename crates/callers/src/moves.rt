ghost use Rattle.std.specs.Prelude.{IfOk, IfSome, IfNone, IfErr};
ghost use Rattle.placement_core.specs.Lawful.{IsLawful};
ghost use Rattle.placement_plan.specs.Plans.{AreJoining, IsAvailable};
ghost use Rattle.placement_plan.specs.Refusals.{IsMemory};

use m3_model::Placement;
use placement_plan::{PlaceErr, are_joining, available};
use std::alloc::Global;

/// The placement where these moves end, each a shard and the node that joins it, or `None` where one of them isn't under
/// way.
///
/// # Errors
///
/// Want of memory, or of a further version.
pub fn end_moves(
    alloc: Global,
    place: &Placement,
    done: &[(u32, u8)],
) -> Result<Option<Placement>, PlaceErr>
    requires { IsLawful place.now }
    ensures plan { IfOk result (λ next. IfSome next (IsAvailable place.now done.now)) }
    ensures lawful { IfOk result (λ next. IfSome next IsLawful) }
    ensures none { IfOk result (λ next. IfNone next (¬ AreJoining place.now.shards done.now)) }
    ensures memory { IfErr result IsMemory }
{
    if !are_joining(place, done) {
        return Ok(None);
    }
    Ok(Some(available(alloc, place, done)?))
}
