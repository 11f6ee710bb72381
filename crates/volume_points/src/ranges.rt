ghost use Rattle.std.specs.Prelude.{◌≡◌, [], ◌++◌, IfOk, OnOk, filter};
ghost use Rattle.std.specs.List.{cons_option, filter_map};
ghost use Rattle.volume_points.specs.Picked.{cut_series, is_between};

use m3_model::{Memory, Seq, Series};
use std::alloc::Global;

// Whether the time lies in the range.
pub(crate) fn is_inside(pair: &(u64, i64), from: u64, to: u64) -> bool
    ensures { result ≡ is_between from to pair.now }
{
    from <= pair.0 && pair.0 < to
}

// The pairs with `from <= t < to`. Takes no memory.
fn cut_pairs(points: Seq<(u64, i64)>, from: u64, to: u64) -> Vec<(u64, i64)>
    ensures { result.items ≡ filter (is_between from to) points }
{
    let mut pairs = points.into_vec();
    pairs.retain(|pair| is_inside(pair, from, to));
    pairs
}

// The series with its pairs in the range, if it has any there. Takes no memory.
fn cut_one(series: Series, from: u64, to: u64) -> Option<Series>
    ensures { result ≡ cut_series from to series }
{
    let Series { id, points } = series;
    let pairs = cut_pairs(points, from, to);
    if pairs.is_empty() {
        return None;
    }
    Some(Series {
        id,
        points: Seq::from_vec(pairs),
    })
}

// Appends the series, if there is one.
pub(crate) fn add(kept: &mut Vec<Series>, part: Option<Series>) -> Result<(), Memory>
    ensures { OnOk result (kept.new.items ≡ kept.old.items ++ cons_option part []) }
{
    if let Some(part) = part {
        kept.push(part)?;
    }
    Ok(())
}

// The points of the series with `from <= t < to`, without the series that have none there.
pub(crate) fn cut(
    alloc: Global,
    found: Seq<Series>,
    from: u64,
    to: u64,
) -> Result<Seq<Series>, Memory>
    ensures { IfOk result (λ series. series ≡ filter_map (cut_series from to) found) }
{
    let mut kept = Vec::new(alloc);
    for series in found.into_vec() {
        add(&mut kept, cut_one(series, from, to))?;
    }
    Ok(Seq::from_vec(kept))
}
