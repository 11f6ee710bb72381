//! The first points in memory above a key, one after the other.
ghost use Rattle.std.specs.Prelude.{◌≡◌, ◌-◌, ◌<◌, ℕ, true, false, length, Option, IfOk, OnOk, MatchOption};
ghost use Rattle.std.specs.Option.{option_copied};
ghost use Rattle.m3_model.specs.Contents.{Contents};
ghost use Rattle.m3_model.specs.declared.point.Key.{Key as Last};
ghost use Rattle.first_points.specs.Firsts.{AreFirst};
ghost use Rattle.held_pages.specs.Walks.{EndsInTime, HasNoneOn, IsFirstOn, IsPartWalked, IsTimeAfter};

use held_points::HeldPoints;
use m3_model::limits::TIME_END;
use m3_model::{Duplicate, Key, Memory, Point, Seq};
use series_slots::SeriesKey;
use std::alloc::Global;

// The time from which on the times later than this one are, of those before the end of all.
fn after(t: u64) -> u64
    ensures { IsTimeAfter t result }
{
    if t < TIME_END { t + 1 } else { TIME_END }
}

// The point of the series at the time.
fn point_of(alloc: Global, series: &SeriesKey, t: u64, v: i64) -> Result<Point, Memory>
    ensures { IfOk result (λ p. p ≡ record { ns = series.now.ns; id = series.now.id; t = t; v = v }) }
{
    Ok(Point {
        ns: series.ns,
        id: series.id.copy(alloc)?,
        t,
        v,
    })
}

// The first point of the series from the time on, or else the first of the series that come after it.
fn first_on(
    alloc: Global,
    held: &HeldPoints,
    series: &SeriesKey,
    low: u64,
) -> Result<Option<Point>, Memory>
    ensures { IfOk result (λ found. MatchOption found (HasNoneOn held.now.points series.now low) (IsFirstOn held.now.points series.now low)) }
{
    if let Some((t, v)) = held.first_from(series, low) {
        let point = point_of(alloc, series, t, v)?;
        return Ok(Some(point));
    }
    match held.first_above(series) {
        Some((later, t, v)) => {
            let point = point_of(alloc, later, t, v)?;
            Ok(Some(point))
        }
        None => Ok(None),
    }
}

// A walk over points, in the order of their keys.
#[derive(Drop)]
struct Walk {
    first: Vec<Point>,
    // It goes on with this series from this time on, and with the series after it.
    series: SeriesKey,
    low: u64,
}

impl Walk {
    // Begins above the key.
    fn begin(alloc: Global, last: Option<&Key>) -> Result<Walk, Memory>
        ensures { (c : Contents) (limit : ℕ) → EndsInTime c → IfOk result (λ w. IsPartWalked c (option_copied last.entry) limit w.first.items w.series w.low) }
    {
        match last {
            None => Ok(Walk {
                first: Vec::new(alloc),
                series: SeriesKey::new(alloc),
                low: 0,
            }),
            Some(key) => {
                let id = key.id.copy(alloc)?;
                Ok(Walk {
                    first: Vec::new(alloc),
                    series: SeriesKey { ns: key.ns, id },
                    low: after(key.t),
                })
            }
        }
    }

    // Takes the next point. Says whether it did: not where as many as the limit are taken, or none is left.
    fn step(&mut self, alloc: Global, held: &HeldPoints, limit: usize) -> Result<bool, Memory>
        ensures part { EndsInTime held.now.points → (last : Option Last) → IsPartWalked held.now.points last limit self.old.first.items self.old.series self.old.low → OnOk result (IsPartWalked held.now.points last limit self.new.first.items self.new.series self.new.low) }
        ensures goes_on { IfOk result (λ more. more ≡ true → limit - length self.new.first.items < limit - length self.old.first.items) }
        ensures ends { IfOk result (λ more. more ≡ false → (last : Option Last) → IsPartWalked held.now.points last limit self.old.first.items self.old.series self.old.low → AreFirst held.now.points last limit self.new.first.items) }
    {
        if self.first.len() >= limit {
            return Ok(false);
        }
        let Some(point) = first_on(alloc, held, &self.series, self.low)? else {
            return Ok(false);
        };
        self.series.set(alloc, point.ns, &point.id)?;
        self.low = after(point.t);
        self.first.push(point)?;
        Ok(true)
    }
}

/// The first points in memory above the key: so many, or all. Their times are before the end of all.
///
/// Costs the logarithm of the points, for each point that it gives.
///
/// # Errors
///
/// Want of memory.
pub fn first_held(
    alloc: Global,
    held: &HeldPoints,
    last: Option<&Key>,
    limit: usize,
) -> Result<Seq<Point>, Memory>
    ensures { EndsInTime held.now.points → IfOk result (AreFirst held.now.points (option_copied last.entry) limit) }
{
    let mut walk = Walk::begin(alloc, last)?;
    'steps: while walk.step(alloc, held, limit)? {}
    Ok(Seq::from_vec(walk.first))
}
