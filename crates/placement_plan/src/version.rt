ghost use Rattle.std.specs.Prelude.{◌≡◌, ◌<◌, suc, IfOk, IfErr};
ghost use Rattle.placement_core.specs.m3_model.declared.limits.TheConstants.{NUMBER_END};
ghost use Rattle.placement_plan.specs.Refusals.{IsMemory};

use crate::plan_err::PlaceErr;
use placement_core::of_m3_model::limits::NUMBER_END;

/// The version after this one. Where there is none the refusal is that for want of memory.
pub fn next_version(version: u64) -> Result<u64, PlaceErr>
    requires { version < NUMBER_END }
    ensures ok { IfOk result (λ next. (next ≡ suc version) × (next < NUMBER_END)) }
    ensures err { IfErr result IsMemory }
{
    let next = version + 1;
    if next < NUMBER_END {
        Ok(next)
    } else {
        Err(PlaceErr::Memory)
    }
}
