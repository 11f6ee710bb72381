//! Why a replica refuses a call.
ghost use Rattle.std.specs.Prelude.{◌≡◌, ◌≤◌, ◌<◌, ◌↔◌, IsTrue, slice_get};
ghost use Rattle.std.specs.Option.{option_or};
ghost use Rattle.cluster_core.specs.Refusals.{shut, closed, unowned, untenured, outdated, outside, first_refusal, uses_disk, reads_files};

use cluster_core::{ReplicaState, StepCall};
use event_facts::has_passed;
use m3_model::{Point, Reason, Rules, Standing};

fn shut(standing: Standing) -> Option<Reason>
    ensures { result ≡ shut standing }
{
    match standing {
        Standing::Down => Some(Reason::Down),
        Standing::Boot => Some(Reason::Boot),
        Standing::Open => None,
    }
}

fn closed(standing: Standing) -> Option<Reason>
    ensures { result ≡ closed standing }
{
    match standing {
        Standing::Down => Some(Reason::Down),
        _ => None,
    }
}

fn unowned(tenure: Option<u64>, version: u64) -> Option<Reason>
    ensures { result ≡ unowned tenure version }
{
    match tenure {
        Some(tenure) if tenure <= version => None,
        _ => Some(Reason::NotOwned),
    }
}

fn untenured(tenure: Option<u64>) -> Option<Reason>
    ensures { result ≡ untenured tenure }
{
    match tenure {
        Some(_) => None,
        None => Some(Reason::NotOwned),
    }
}

fn outdated(fence: u64, version: u64) -> Option<Reason>
    ensures { result ≡ outdated fence version }
{
    if fence <= version {
        None
    } else {
        Some(Reason::Stale { fence })
    }
}

fn outside(rules: &Rules, point: &Point) -> Option<Reason>
    ensures { result ≡ outside rules.entry.now point.now }
{
    let space = rules.spaces.as_slice().get(point.ns as usize)?;
    if has_passed(point.t, space.past, rules.now) {
        Some(Reason::Past)
    } else if has_passed(rules.now, space.future, point.t) {
        Some(Reason::Future)
    } else {
        None
    }
}

/// The first of Down, Boot, NotOwned, Stale, Past and Future that holds, of those that the call is refused for; that a
/// Begin is NotOwned is left to it.
pub fn first_refusal(r: &ReplicaState, call: &StepCall) -> Option<Reason>
    ensures { result ≡ first_refusal r.now call.now }
{
    match call {
        StepCall::Begin { .. } => closed(r.standing),
        StepCall::Put {
            rules,
            version,
            point,
            ..
        } => shut(r.standing).or(unowned(r.tenure, *version).or(outdated(r.fence, *version).or(
            outside(rules, point),
        ))),
        StepCall::Read { version, .. } => {
            shut(r.standing).or(unowned(r.tenure, *version).or(outdated(r.fence, *version)))
        }
        StepCall::Fence { version } => shut(r.standing).or(unowned(r.tenure, *version)),
        StepCall::Page { .. }
        | StepCall::Block { .. }
        | StepCall::Digests { .. }
        | StepCall::Merge { .. } => shut(r.standing).or(untenured(r.tenure)),
        StepCall::Tick { .. } | StepCall::Flush { .. } | StepCall::Snapshot => shut(r.standing),
        StepCall::Report | StepCall::End | StepCall::Stop | StepCall::Restart => None,
    }
}

/// Whether the call uses the disk, which may fail.
pub fn uses_disk(call: &StepCall) -> bool
    ensures { result ≡ uses_disk call.now }
{
    !matches!(call, StepCall::Report | StepCall::End | StepCall::Stop)
}

/// Whether the call reads files, which may be damaged.
pub fn reads_files(call: &StepCall) -> bool
    ensures { result ≡ reads_files call.now }
{
    match call {
        StepCall::Put { .. } | StepCall::Fence { .. } => false,
        StepCall::Report | StepCall::End | StepCall::Stop | StepCall::Restart => false,
        _ => true,
    }
}
