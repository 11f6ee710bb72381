//! Whether a replica may show such an answer: what a read finds, and pages.
#![tactic(auto)]

ghost use Rattle.std.specs.Prelude.{◌≡◌, ◌↔◌, IsTrue, IfOk};
ghost use Rattle.std.specs.List.{All};
ghost use Rattle.m3_model.specs.Contents.{key_of};
ghost use Rattle.m3_model.specs.Members.{IsIn};
ghost use Rattle.cluster_core.specs.Answers.{IsWantedUnexpired, IsFoundBy, AsksFor, IsPastKey, IsUpTo, GoesOn, IsPage};
ghost use Rattle.lawful_answers.specs.Shows.{IsAnswered, IsPaged};

use cluster_core::{ReplicaState, StepCall};
use equality::Same;
use event_facts::{
    ByKey, covers, has_point, is_below, is_gone, is_ordered, is_wanted, points_in, space_picked,
};
use m3_model::limits::MOST_PAGE_POINTS;
use m3_model::{Key, Memory, Page, Pick, Point, Rules, Series};
use placement_core::ascend;
use std::alloc::Global;

// Whether the points are sure ones that the read asks for.
fn finds_only(
    r: &ReplicaState,
    rules: &Rules,
    pick: &Pick,
    from: u64,
    to: u64,
    points: &[Point],
) -> bool
    ensures { IsTrue result ↔ All (λ p. IsIn r.now.sure p × IsWantedUnexpired rules.entry.now pick.now from to p) points.now }
{
    let sure = r.sure.as_slice();
    points.iter().all(|p| has_point(sure, p) && is_wanted(rules, pick, from, to, p))
}

#[tactic(auto, unfolding(crate::specs::Shows::IsAnswered))]
fn is_answered(
    r: &ReplicaState,
    rules: &Rules,
    pick: &Pick,
    from: u64,
    to: u64,
    points: &[Point],
    point: &Point,
) -> bool
    ensures { IsTrue result ↔ IsAnswered r.now rules.entry.now pick.now from to points.now point.now }
{
    if is_gone(r, point) {
        return true;
    }
    if !is_wanted(rules, pick, from, to, point) {
        return true;
    }
    covers(points, point)
}

// Whether the points cover each sure one that the read asks for and that isn't gone.
fn finds_all(
    r: &ReplicaState,
    rules: &Rules,
    pick: &Pick,
    from: u64,
    to: u64,
    points: &[Point],
) -> bool
    ensures { IsTrue result ↔ All (IsAnswered r.now rules.entry.now pick.now from to points.now) r.now.sure }
{
    r.sure
        .as_slice()
        .iter()
        .all(|p| is_answered(r, rules, pick, from, to, points, p))
}

/// Whether the series are what a read of the replica may find. Refused only for want of memory.
#[tactic(auto, unfolding(crate::specs::Shows::IsAnswered))]
pub fn is_found(
    alloc: Global,
    r: &ReplicaState,
    rules: &Rules,
    pick: &Pick,
    from: u64,
    to: u64,
    series: &[Series],
) -> Result<bool, Memory>
    ensures { IfOk result (λ b. IsTrue b ↔ IsFoundBy r.now rules.entry.now pick.now from to series.now) }
{
    let points = points_in(alloc, space_picked(pick), series)?;
    let only = finds_only(r, rules, pick, from, to, &points);
    let all = finds_all(r, rules, pick, from, to, &points);
    Ok(only && all && is_ordered(series))
}

fn is_past(from: &Option<Key>, point: &Point) -> bool
    ensures { IsTrue result ↔ IsPastKey from.now (key_of point.now) }
{
    match from {
        None => true,
        Some(key) => is_below(key, point),
    }
}

fn is_up_to(next: &Option<Key>, point: &Point) -> bool
    ensures { IsTrue result ↔ IsUpTo next.now (key_of point.now) }
{
    match next {
        None => true,
        Some(key) => !is_below(key, point),
    }
}

fn asks_for(call: &StepCall, point: &Point) -> bool
    ensures { IsTrue result ↔ AsksFor call.now point.now }
{
    match call {
        StepCall::Page { after } => is_past(after, point),
        StepCall::Block {
            ns,
            start,
            size,
            after,
        } => {
            is_past(after, point)
                && point.ns == *ns
                && *start <= point.t
                && point.t - *start < *size
        }
        _ => false,
    }
}

fn is_key_of(key: &Key, point: &Point) -> bool
    ensures { IsTrue result ↔ (key_of point.now ≡ key.now) }
{
    point.ns == key.ns && point.t == key.t && point.id.is_same(&key.id)
}

fn goes_on(r: &ReplicaState, call: &StepCall, page: &Page, next: &Key) -> bool
    ensures { IsTrue result ↔ GoesOn r.now call.now page.now next.now }
{
    let points = page.points.as_slice();
    match points.get(63) {
        Some(last) => {
            points.len() == MOST_PAGE_POINTS
                && is_key_of(next, last)
                && r.sure
                    .as_slice()
                    .iter()
                    .any(|p| asks_for(call, p) && is_below(next, p))
        }
        None => false,
    }
}

fn has_only(r: &ReplicaState, call: &StepCall, points: &[Point]) -> bool
    ensures { IsTrue result ↔ All (λ p. IsIn r.now.sure p × AsksFor call.now p) points.now }
{
    points
        .iter()
        .all(|p| has_point(r.sure.as_slice(), p) && asks_for(call, p))
}

#[tactic(auto, unfolding(crate::specs::Shows::IsPaged))]
fn is_paged(r: &ReplicaState, call: &StepCall, page: &Page, point: &Point) -> bool
    ensures { IsTrue result ↔ IsPaged r.now call.now page.now point.now }
{
    if is_gone(r, point) {
        return true;
    }
    if !asks_for(call, point) {
        return true;
    }
    if !is_up_to(&page.next, point) {
        return true;
    }
    covers(page.points.as_slice(), point)
}

fn has_all(r: &ReplicaState, call: &StepCall, page: &Page) -> bool
    ensures { IsTrue result ↔ All (IsPaged r.now call.now page.now) r.now.sure }
{
    r.sure.as_slice().iter().all(|p| is_paged(r, call, page, p))
}

/// Whether the page is what the replica may give at this call.
#[tactic(auto, unfolding(crate::specs::Shows::IsPaged))]
pub fn is_page(r: &ReplicaState, call: &StepCall, page: &Page) -> bool
    ensures { IsTrue result ↔ IsPage r.now call.now page.now }
{
    let points = page.points.as_slice();
    let next = match &page.next {
        None => true,
        Some(next) => goes_on(r, call, page, next),
    };
    has_only(r, call, points)
        && has_all(r, call, page)
        && ascend::<Point, ByKey>(points)
        && points.len() <= MOST_PAGE_POINTS
        && next
}
