//! Whether a step of a replica is lawful, by its state and by what stands earlier, where disks tell.
ghost use Rattle.std.specs.Prelude.{◌≡◌, ◌↔◌, ◌≤◌, ◌<◌, ◌⊎◌, true, None, Some, IsTrue, IfOk, ⊤};
ghost use Rattle.std.specs.List.{All, Any};
ghost use Rattle.m3_model.specs.Members.{IsIn};
ghost use Rattle.cluster_core.specs.Refusals.{first_refusal};
ghost use Rattle.cluster_core.specs.Replicas.{greater};
ghost use Rattle.cluster_core.specs.Rows.{IsOwned, IsOwner, IsServingAt, IsReport, MayFence, IsLoaded, IsBegan, NoneHigher, MayBeHigher, IsTakenCall, TicksByClock, TakesWhatIsThere, DiskMayFail, MayFindDamage, MayBeUnowned, ReplicaMayRefuse, MayBegin, MayTake, LawfulStep};
ghost use Rattle.lawful_steps.specs.NoSums.{GivesNoSums};
ghost use Rattle.lawful_steps.specs.Shows.{IsCovered};
ghost use Rattle.cluster_core.specs.declared.event.StepReply.TheVariants as reply;
ghost use Rattle.m3_model.specs.declared.replica.Standing.TheVariants as standing;

use crate::refusals::{first_refusal, reads_files, uses_disk};
use cluster_core::{Event, ReplicaState, StepCall, StepReply};
use event_facts::{
    covers, has_clock, has_page, has_point, has_send, has_tenure, in_window, is_gone,
};
use lawful_answers::{is_found, is_page};
use m3_model::{Memory, Page, Point, Reason, Report, Standing};
use std::alloc::Global;

fn is_owned(r: &ReplicaState) -> bool
    ensures { IsTrue result ↔ IsOwned r.now }
{
    r.standing == Standing::Open && r.tenure.is_some()
}

fn is_owner(r: &ReplicaState, version: u64) -> bool
    ensures { IsTrue result ↔ IsOwner r.now version }
{
    match r.tenure {
        Some(tenure) => r.standing == Standing::Open && tenure <= version,
        None => false,
    }
}

fn is_serving(r: &ReplicaState, version: u64) -> bool
    ensures { IsTrue result ↔ IsServingAt r.now version }
{
    is_owner(r, version) && r.fence <= version
}

fn is_report(r: &ReplicaState, report: &Report) -> bool
    ensures { IsTrue result ↔ IsReport r.now report.now }
{
    let fence = match r.standing {
        Standing::Open => r.fence,
        _ => 0,
    };
    report.standing == r.standing && report.fence == fence
}

fn greater(one: u64, other: u64) -> u64
    ensures { result ≡ greater one other }
{
    if one <= other { other } else { one }
}

fn may_fence(r: &ReplicaState, tenure: u64, fence: u64) -> bool
    ensures { IsTrue result ↔ MayFence r.now tenure fence }
{
    let least = greater(tenure, r.fence);
    fence == least
        || r.doubt_fences
            .as_slice()
            .iter()
            .any(|doubtful| fence == greater(*doubtful, least))
}

fn are_known(r: &ReplicaState, points: &[Point]) -> bool
    ensures { IsTrue result ↔ All (λ p. IsIn r.now.sure p ⊎ IsIn r.now.doubt p) points.now }
{
    points.iter().all(|p| has_point(r.sure.as_slice(), p) || has_point(r.doubt.as_slice(), p))
}

#[tactic(auto, unfolding(crate::specs::Shows::IsCovered))]
fn is_covered(r: &ReplicaState, points: &[Point], point: &Point) -> bool
    ensures { IsTrue result ↔ IsCovered r.now points.now point.now }
{
    if is_gone(r, point) {
        return true;
    }
    covers(points, point)
}

fn are_covered(r: &ReplicaState, points: &[Point]) -> bool
    ensures { IsTrue result ↔ All (IsCovered r.now points.now) r.now.sure }
{
    r.sure.as_slice().iter().all(|p| is_covered(r, points, p))
}

#[tactic(auto, unfolding(crate::specs::Shows::IsCovered))]
fn is_loaded(r: &ReplicaState, tenure: u64, fence: u64, points: &[Point]) -> bool
    ensures { IsTrue result ↔ IsLoaded r.now tenure fence points.now }
{
    are_known(r, points) && are_covered(r, points) && may_fence(r, tenure, fence)
}

fn is_began(r: &ReplicaState, tenure: u64, fence: u64, points: &[Point]) -> bool
    ensures { IsTrue result ↔ IsBegan r.now.standing r.now.begun r.now tenure fence points.now }
{
    match r.standing {
        Standing::Open => points.is_empty() && fence == greater(tenure, r.fence),
        Standing::Down => false,
        Standing::Boot => r.begun.len() == 0 || is_loaded(r, tenure, fence, points),
    }
}

fn none_higher(r: &ReplicaState, tenure: u64) -> bool
    ensures { IsTrue result ↔ NoneHigher r.now tenure }
{
    r.begun.as_slice().iter().all(|begun| *begun <= tenure)
}

fn may_be_higher(r: &ReplicaState, tenure: u64) -> bool
    ensures { IsTrue result ↔ MayBeHigher r.now tenure }
{
    r.begun.as_slice().iter().any(|begun| tenure < *begun)
        || r.tried.as_slice().iter().any(|tried| tenure < *tried)
        || r.begun.len() == 0
}

fn is_taken(r: &ReplicaState, call: &StepCall) -> bool
    ensures { IsTrue result ↔ IsTakenCall true r.now call.now }
{
    first_refusal(r, call).is_none()
        && match call {
            StepCall::Begin { tenure } => none_higher(r, *tenure),
            _ => true,
        }
}

fn ticks_by_clock(past: &[Event], call: &StepCall) -> bool
    ensures { IsTrue result ↔ TicksByClock past.now call.now }
{
    match call {
        StepCall::Tick { rules } => has_clock(past, rules),
        _ => true,
    }
}

fn takes_what_is_there(past: &[Event], shard: u32, call: &StepCall) -> bool
    ensures { IsTrue result ↔ TakesWhatIsThere past.now shard call.now }
{
    match call {
        StepCall::Put { version, point, .. } => has_send(past, *version, shard, point),
        StepCall::Merge { page } => has_page(past, shard, page),
        _ => true,
    }
}

fn may_fail(past: &[Event], shard: u32, r: &ReplicaState, call: &StepCall) -> bool
    ensures { IsTrue result ↔ DiskMayFail true past.now shard r.now call.now }
{
    uses_disk(call)
        && is_taken(r, call)
        && ticks_by_clock(past, call)
        && takes_what_is_there(past, shard, call)
}

fn may_find_damage(past: &[Event], r: &ReplicaState, call: &StepCall) -> bool
    ensures { IsTrue result ↔ MayFindDamage true past.now r.now call.now }
{
    reads_files(call) && is_taken(r, call) && ticks_by_clock(past, call)
}

fn may_be_unowned(r: &ReplicaState, call: &StepCall) -> bool
    ensures { IsTrue result ↔ MayBeUnowned true r.now call.now }
{
    match call {
        StepCall::Begin { tenure } => {
            first_refusal(r, call).is_none() && may_be_higher(r, *tenure)
        }
        _ => matches!(first_refusal(r, call), Some(Reason::NotOwned)),
    }
}

fn may_refuse(past: &[Event], shard: u32, r: &ReplicaState, call: &StepCall, why: &Reason) -> bool
    ensures { IsTrue result ↔ ReplicaMayRefuse true past.now shard r.now call.now why.now }
{
    match why {
        Reason::Memory => true,
        Reason::Cut => false,
        Reason::NotOwned => may_be_unowned(r, call),
        Reason::Disk => may_fail(past, shard, r, call),
        Reason::Corrupt(_) => may_find_damage(past, r, call),
        Reason::Down => matches!(first_refusal(r, call), Some(Reason::Down)),
        Reason::Boot => matches!(first_refusal(r, call), Some(Reason::Boot)),
        Reason::Stale { fence } => {
            matches!(first_refusal(r, call), Some(Reason::Stale { fence: f }) if f == *fence)
        }
        Reason::Past => matches!(first_refusal(r, call), Some(Reason::Past)),
        Reason::Future => matches!(first_refusal(r, call), Some(Reason::Future)),
    }
}

fn may_begin(
    past: &[Event],
    node: u8,
    shard: u32,
    r: &ReplicaState,
    tenure: u64,
    fence: u64,
    points: &[Point],
) -> bool
    ensures { IsTrue result ↔ MayBegin true past.now node shard r.now tenure fence points.now }
{
    r.standing != Standing::Down
        && tenure <= fence
        && has_tenure(past, node, shard, tenure)
        && none_higher(r, tenure)
        && is_began(r, tenure, fence, points)
}

fn may_be_done(past: &[Event], node: u8, shard: u32, r: &ReplicaState, call: &StepCall) -> bool
    ensures { IsTrue result ↔ LawfulStep true past.now node shard r.now call.now reply.Done }
{
    match call {
        StepCall::Put {
            rules,
            version,
            point,
            ..
        } => {
            is_serving(r, *version)
                && in_window(rules, point)
                && has_send(past, *version, shard, point)
                && has_clock(past, rules)
        }
        StepCall::Fence { version } => is_owner(r, *version),
        StepCall::End | StepCall::Stop | StepCall::Restart => true,
        _ => false,
    }
}

fn may_count(
    past: &[Event],
    node: u8,
    shard: u32,
    r: &ReplicaState,
    call: &StepCall,
    n: u64,
) -> bool
    ensures { IsTrue result ↔ LawfulStep true past.now node shard r.now call.now (reply.Count n) }
{
    match call {
        StepCall::Merge { page } => is_owned(r) && has_page(past, shard, page),
        StepCall::Tick { rules } => r.standing == Standing::Open && has_clock(past, rules),
        StepCall::Flush { rules } => r.standing == Standing::Open && has_clock(past, rules),
        StepCall::Snapshot => r.standing == Standing::Open,
        _ => false,
    }
}

fn may_give(
    past: &[Event],
    node: u8,
    shard: u32,
    r: &ReplicaState,
    call: &StepCall,
    page: &Page,
) -> bool
    ensures { IsTrue result ↔ LawfulStep true past.now node shard r.now call.now (reply.Paged page.now) }
{
    match call {
        StepCall::Page { .. } => is_owned(r) && is_page(r, call, page),
        StepCall::Block { .. } => is_owned(r) && is_page(r, call, page),
        _ => false,
    }
}

/// Whether the step is lawful, and no call for digests that was answered. `r` is the state of the replica before it.
/// Refused only for want of memory.
pub fn is_lawful_step(
    alloc: Global,
    past: &[Event],
    node: u8,
    shard: u32,
    r: &ReplicaState,
    call: &StepCall,
    reply: &StepReply,
) -> Result<bool, Memory>
    ensures { IfOk result (λ b. IsTrue b ↔ (LawfulStep true past.now node shard r.now call.now reply.now × GivesNoSums reply.now)) }
{
    match reply {
        StepReply::Done => Ok(may_be_done(past, node, shard, r, call)),
        StepReply::Began { fence, points } => match call {
            StepCall::Begin { tenure } => {
                let points = points.as_slice();
                Ok(may_begin(past, node, shard, r, *tenure, *fence, points))
            }
            _ => Ok(false),
        },
        StepReply::Found { series } => match call {
            StepCall::Read {
                rules,
                version,
                pick,
                from,
                to,
                ..
            } => Ok(
                is_serving(r, *version)
                    && has_clock(past, rules)
                    && is_found(alloc, r, rules, pick, *from, *to, series.as_slice())?,
            ),
            _ => Ok(false),
        },
        StepReply::Paged { page } => Ok(may_give(past, node, shard, r, call, page)),
        StepReply::Sums { .. } => Ok(false),
        StepReply::Count { n } => Ok(may_count(past, node, shard, r, call, *n)),
        StepReply::Told { report } => {
            Ok(matches!(call, StepCall::Report) && is_report(r, report))
        }
        StepReply::Refused { reason } => Ok(may_refuse(past, shard, r, call, reason)),
    }
}
