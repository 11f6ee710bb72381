//! Why a machine refuses a call before it looks at its points.
ghost use Rattle.std.specs.Prelude.{◌≡◌, ◌<◌, None, Some, OnOk, IfErr, length};
ghost use Rattle.cluster_core.specs.Refusals.{shut, unowned, untenured, outdated, outside};

use m3_model::{Point, Reason, Rules, Standing};

/// Whether a call that needs an open replica may go on.
pub(crate) fn check_open(standing: Standing) -> Result<(), Reason>
    ensures ok { OnOk result (shut standing ≡ None) }
    ensures err { IfErr result (λ why. shut standing ≡ Some why) }
{
    match standing {
        Standing::Down => Err(Reason::Down),
        Standing::Boot => Err(Reason::Boot),
        Standing::Open => Ok(()),
    }
}

/// Whether the replica had its shard at this version.
pub(crate) fn check_owner(tenure: Option<u64>, version: u64) -> Result<(), Reason>
    ensures ok { OnOk result (unowned tenure version ≡ None) }
    ensures err { IfErr result (λ why. unowned tenure version ≡ Some why) }
{
    match tenure {
        Some(since) if since <= version => Ok(()),
        _ => Err(Reason::NotOwned),
    }
}

/// Whether the replica has its shard.
pub(crate) fn check_tenure(tenure: Option<u64>) -> Result<(), Reason>
    ensures ok { OnOk result (untenured tenure ≡ None) }
    ensures err { IfErr result (λ why. untenured tenure ≡ Some why) }
{
    match tenure {
        Some(_) => Ok(()),
        None => Err(Reason::NotOwned),
    }
}

/// Whether the version isn't below the fence.
pub(crate) fn check_fence(fence: u64, version: u64) -> Result<(), Reason>
    ensures ok { OnOk result (outdated fence version ≡ None) }
    ensures err { IfErr result (λ why. outdated fence version ≡ Some why) }
{
    if fence <= version {
        Ok(())
    } else {
        Err(Reason::Stale { fence })
    }
}

/// Whether the point lies above `now - past` and below `now + future` of its namespace.
pub(crate) fn check_window(rules: &Rules, point: &Point) -> Result<(), Reason>
    requires { point.now.ns < length rules.now.spaces }
    ensures ok { OnOk result (outside rules.entry.now point.now ≡ None) }
    ensures err { IfErr result (λ why. outside rules.entry.now point.now ≡ Some why) }
{
    let space = &rules.spaces.as_slice()[point.ns as usize];
    if space.past <= rules.now && point.t <= rules.now - space.past {
        Err(Reason::Past)
    } else if rules.now <= point.t && space.future <= point.t - rules.now {
        Err(Reason::Future)
    } else {
        Ok(())
    }
}
