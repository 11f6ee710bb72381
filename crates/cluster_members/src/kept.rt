//! The placements that a cluster keeps, of which a call uses one.
ghost use Rattle.std.specs.Prelude.{◌≡◌, ◌<◌, ◌^◌, List, Some, None, length, slice_get, IfSome};
ghost use Rattle.m3_model.specs.Members.{IsIn};
ghost use Rattle.m3_model.specs.declared.placement.Placement.{Placement as Place};
ghost use Rattle.cluster_members.specs.Kept.{IsBy, IsNumberOf, IsUnkept, KeepsNone, StandsAt, Uses, past_by};

use m3_model::{Answer, Placement, Text};
use m3_outside::Disk;
use session_writes::of_session_net::Net;
use std::alloc::Global;
use std::mem::swap;

/// Where a placement stands that is kept.
#[derive(Clone, Copy)]
pub(crate) enum Kept {
    /// It is the one that stands.
    Standing,
    /// It is this one of those before it.
    Past(usize),
}

// The position of the placement of the version.
fn version_position(past: &[Placement], version: u64) -> Option<usize>
    ensures some { IfSome result (λ i. (place : Place) × (slice_get past.now i ≡ Some place) × (place.version ≡ version)) }
    ensures none { result ≡ None → (place : Place) → IsIn past.now place → ¬ (place.version ≡ version) }
{
    for (position, place) in past.iter().enumerate() {
        if place.version == version {
            return Some(position);
        }
    }
    None
}

// Where the placement stands that a call uses: without a version the one that stands, else that of the version.
pub(crate) fn kept_of(place: &Placement, past: &[Placement], version: Option<u64>) -> Option<Kept>
    ensures some { IfSome result (λ kept. (used : Place) × StandsAt place.now past.now kept used × Uses place.now past.now version used) }
    ensures none { result ≡ None → KeepsNone place.now past.now version }
{
    let Some(version) = version else {
        return Some(Kept::Standing);
    };
    if place.version == version {
        return Some(Kept::Standing);
    }
    match version_position(past, version) {
        Some(position) => Some(Kept::Past(position)),
        None => None,
    }
}

// Exchanges the placement that stands for the one that is kept there; done twice, all is as it was. Takes no memory.
pub(crate) fn exchange<D: Disk>(net: &mut Net<D>, past: &mut [Placement], kept: Kept)
    requires there { (place : Place) × StandsAt net.old.state.place past.old kept place × (0 < length place.shards) × (length place.shards < 2 ^ 32) }
    ensures by { (place : Place) → StandsAt net.old.state.place past.old kept place → IsBy place net.old net.new }
    ensures past { past.new ≡ past_by net.old.state.place past.old kept }
{
    if let Kept::Past(position) = kept {
        swap(&mut net.state.place, &mut past[position]);
    }
}

/// That nothing has this number. Its name is the number in decimal.
///
/// # Errors
///
/// `Memory`, where there is none for the name.
pub fn unknown_number(alloc: Global, number: u64) -> Answer
    ensures { IsNumberOf number result }
{
    match format!(in alloc; "{number}") {
        Ok(name) => Answer::Unknown {
            name: Text::from_string(name),
        },
        Err(_) => Answer::Memory,
    }
}

// That no placement of the version is kept.
pub(crate) fn unkept(alloc: Global, version: Option<u64>) -> Answer
    ensures { (place : Place) (past : List Place) → KeepsNone place past version → IsUnkept place past version result }
{
    match version {
        Some(version) => unknown_number(alloc, version),
        None => Answer::Memory,
    }
}
