//! Points, each once and in their order.
ghost use Rattle.std.specs.Prelude.{◌≡◌, map, IfOk, OnOk};
ghost use Rattle.std.specs.BTreeSet.{insert_key};
ghost use Rattle.m3_model.specs.Ascends.{Ascends};
ghost use Rattle.snapshot_files.specs.shard_files.Once.{IsBefore, IsEachOnce};
ghost use Rattle.shard_open.specs.Ranks.{rank_cmp, ranked, unranked, AreRanksOf};

use m3_model::{Key, Memory, Point, Seq};
use std::alloc::Global;
use std::collections::BTreeSet;

// Adds the point to those of the set.
fn add_point(points: &mut BTreeSet<(Key, i64)>, point: Point) -> Result<(), Memory>
    ensures { OnOk result (points.new.keys ≡ insert_key rank_cmp points.old.keys (ranked point)) }
{
    let Point { ns, id, t, v } = point;
    points.insert((Key { ns, id, t }, v))?;
    Ok(())
}

// The points of the set, ascending.
fn in_order(alloc: Global, points: BTreeSet<(Key, i64)>) -> Result<Seq<Point>, Memory>
    ensures all { IfOk result (λ listed. listed ≡ map unranked points.keys) }
    ensures ascending { IfOk result (Ascends IsBefore) }
{
    let listed: Vec<Point> = points
        .into_iter()
        .map(|(key, v)| Point {
            ns: key.ns,
            id: key.id,
            t: key.t,
            v,
        })
        .collect(alloc)?;
    Ok(Seq::from_vec(listed))
}

// The set of the points.
#[tactic(auto, using(crate::proofs::OnceLemmas::no_ranks))]
fn set_of(alloc: Global, points: Seq<Point>) -> Result<BTreeSet<(Key, i64)>, Memory>
    ensures { IfOk result (λ found. AreRanksOf points found.keys) }
{
    let mut found = BTreeSet::new(alloc);
    for point in points.into_vec() {
        add_point(&mut found, point)?;
    }
    Ok(found)
}

/// The points, each once, ascending by key and then by value. Each costs logarithmic time.
pub(crate) fn each_once(alloc: Global, points: Seq<Point>) -> Result<Seq<Point>, Memory>
    ensures { IfOk result (IsEachOnce points) }
{
    let found = set_of(alloc, points)?;
    in_order(alloc, found)
}
