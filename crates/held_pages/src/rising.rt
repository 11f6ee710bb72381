//! Points joined to those in memory in two steps: what wants memory comes first, and may be taken back, and what doesn't comes last.
ghost use Rattle.std.specs.Prelude.{◌≡◌, ◌+◌, None, is_some, IsSome, IfOk, OnOk, OnErr};
ghost use Rattle.std.specs.FinMap.{get};
ghost use Rattle.m3_model.specs.Answers.{IsAnswer};
ghost use Rattle.m3_model.specs.Contents.{Contents, is_higher, key_of};
ghost use Rattle.m3_model.specs.declared.point.Key.{Key as Spot};
ghost use Rattle.m3_model.specs.declared.point.Pick.TheVariants as pick;
ghost use Rattle.m3_model.specs.declared.point.Point.{Point as Held};
ghost use Rattle.block_buffer.specs.Joins.{joined};
ghost use Rattle.series_slots.specs.SeriesKeys.{key_at};
ghost use Rattle.held_pages.specs.Rises.{AllStand, AreOfSeries, points_of};

use held_points::HeldPoints;
use m3_model::{Duplicate, Memory, Point, Seq, Series};
use series_slots::SeriesKey;
use std::alloc::Global;

/// A point that is to be joined, and its series.
#[derive(Drop)]
pub struct Rise {
    pub point: Point,
    pub series: SeriesKey,
}

/// The point, copied, with its series.
///
/// # Errors
///
/// Want of memory.
pub fn rise_of(alloc: Global, point: &Point) -> Result<Rise, Memory>
    ensures point { IfOk result (λ rise. rise.point ≡ point.now) }
    ensures series { IfOk result (λ rise. rise.series ≡ record { ns = point.now.ns; id = point.now.id }) }
{
    Ok(Rise {
        point: point.copy(alloc)?,
        series: SeriesKey {
            ns: point.ns,
            id: point.id.copy(alloc)?,
        },
    })
}

/// Whether a value is above the one that an answer has, or the answer has none: of a read of one series at one time.
pub fn is_above(found: &Seq<Series>, v: i64) -> bool
    ensures { (c : Contents) (p : Held) → p.v ≡ v → IsAnswer c (pick.One p.ns p.id) p.t (p.t + 1) found.now → result ≡ is_higher (get c (key_of p)) p.v }
{
    let Some(series) = found.as_slice().first() else {
        return true;
    };
    match series.points.as_slice().first() {
        Some((_, stands)) => *stands < v,
        None => true,
    }
}

// Whether a point stands at the key.
fn stands(held: &HeldPoints, rise: &Rise) -> bool
    ensures { result ≡ is_some (get held.now.points (key_at rise.now.series rise.now.point.t)) }
{
    match held.first_from(&rise.series, rise.point.t) {
        Some((t, _)) => t == rise.point.t,
        None => false,
    }
}

/// Joins those of the points at whose key none stands: so all are joined once `raise_all` has raised them, which takes no memory.
///
/// # Errors
///
/// Want of memory leaves the points in memory as they were.
pub fn hold_new(held: &mut HeldPoints, rises: &[Rise]) -> Result<(), Memory>
    requires room { held.old.room ≡ None }
    requires series { AreOfSeries rises.now }
    ensures room { held.new.room ≡ None }
    ensures stand { OnOk result (AllStand held.new.points rises.now) }
    ensures same { OnOk result (joined held.new.points (points_of rises.now) ≡ joined held.old.points (points_of rises.now)) }
    ensures stays { OnOk result ((k : Spot) → IsSome (get held.old.points k) → IsSome (get held.new.points k)) }
    ensures err { OnErr result (held.new ≡ held.old) }
{
    let Some((first, later)) = rises.split_first() else {
        return Ok(());
    };
    if stands(held, first) {
        return hold_new(held, later);
    }
    held.room(&first.point)?;
    held.put(&first.point);
    if let Err(e) = hold_new(held, later) {
        held.settle_at(&first.series, first.point.t, first.point.v);
        return Err(e);
    }
    Ok(())
}

/// Joins the points, at each of whose keys one stands. Takes no memory.
pub fn raise_all(held: &mut HeldPoints, rises: &[Rise])
    requires room { held.old.room ≡ None }
    requires series { AreOfSeries rises.now }
    requires stand { AllStand held.old.points rises.now }
    ensures { held.new ≡ record { points = joined held.old.points (points_of rises.now); room = None } }
{
    let Some((first, later)) = rises.split_first() else {
        return;
    };
    held.raise(&first.series, first.point.t, first.point.v);
    raise_all(held, later);
}
