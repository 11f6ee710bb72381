//! The first points of rows above a key.
ghost use Rattle.std.specs.Prelude.{◌≡◌, ◌<◌, ◌++◌, List, Some, take, IfOk, OnOk};
ghost use Rattle.std.specs.Option.{option_copied};
ghost use Rattle.m3_model.specs.Ascends.{Ascends};
ghost use Rattle.m3_model.specs.Contents.{content_of};
ghost use Rattle.m3_model.specs.Members.{IsIn};
ghost use Rattle.m3_model.specs.Reads.{points_in};
ghost use Rattle.m3_model.specs.Tags.{IsBelow};
ghost use Rattle.m3_model.specs.declared.point.Point.{Point as Held};
ghost use Rattle.m3_model.specs.declared.point.Series.{Series as Row};
ghost use Rattle.first_points.specs.Bounds.{points_up_to};
ghost use Rattle.first_points.specs.Firsts.{AreFirst};
ghost use Rattle.first_points.specs.Rows.{AreFrom, AreLater, EndsPast, points_at};

use crate::bounds::{pairs_up_to, rows_up_to};
use m3_model::{Duplicate, Key, Memory, Point, Seq, Series, Text};
use std::alloc::Global;

// The pairs of a row later than the time.
fn later_pairs(points: &[(u64, i64)], t: u64) -> &[(u64, i64)]
    requires { Ascends (λ a b. a.0 < b.0) points.now }
    ensures { AreLater t points.now result.now }
{
    &points[points.partition_point(|pair| pair.0 <= t)..]
}

// The rows from the first one on whose identifier isn't below this one.
fn rows_from<'a>(rows: &'a [Series], id: &Text) -> &'a [Series]
    requires { Ascends (λ a b. IsBelow a.id b.id) rows.now }
    ensures { AreFrom id.now rows.now result.now }
{
    &rows[rows.partition_point(|row| row.id.cmp(id).is_lt())..]
}

// What the rows have above the key, which is of their namespace: the pairs of its identifier, and the rows behind that.
fn past_key<'a>(rows: &'a [Series], key: &Key) -> (&'a [(u64, i64)], &'a [Series])
    requires ids { Ascends (λ a b. IsBelow a.id b.id) rows.now }
    requires times { (s : Row) → IsIn rows.now s → Ascends (λ a b. a.0 < b.0) s.points }
    ensures ends { EndsPast key.now.ns rows.now (Some key.now) key.now.id result.0.now result.1.now }
    ensures pairs { Ascends (λ a b. a.0 < b.0) result.0.now }
    ensures later { (s : Row) → IsIn result.1.now s → IsIn rows.now s }
{
    match rows_from(rows, &key.id) {
        [row, later @ ..] if row.id.cmp(&key.id).is_eq() => {
            (later_pairs(row.points.as_slice(), key.t), later)
        }
        later => (&[], later),
    }
}

// Pushes the pairs of an identifier up to the last point, and up to the limit.
fn push_pairs(
    alloc: Global,
    first: &mut Vec<Point>,
    ns: u8,
    id: &Text,
    pairs: &[(u64, i64)],
    last: Option<&Point>,
    limit: usize,
) -> Result<(), Memory>
    requires { Ascends (λ a b. a.0 < b.0) pairs.now }
    ensures { (points : List Held) → first.old.items ≡ take limit points → OnOk result (first.new.items ≡ take limit (points ++ points_up_to (option_copied last.entry) (points_at ns id.now pairs.now))) }
{
    let within = pairs_up_to(ns, id, pairs, last);
    for (t, v) in within {
        if first.len() >= limit {
            return Ok(());
        }
        first.push(Point {
            ns,
            id: id.copy(alloc)?,
            t: *t,
            v: *v,
        })?;
    }
    Ok(())
}

// Pushes the points of the rows up to the last one, and up to the limit.
fn push_rows(
    alloc: Global,
    first: &mut Vec<Point>,
    ns: u8,
    rows: &[Series],
    last: Option<&Point>,
    limit: usize,
) -> Result<(), Memory>
    requires { (s : Row) → IsIn rows.now s → Ascends (λ a b. a.0 < b.0) s.points }
    ensures { (points : List Held) → first.old.items ≡ take limit points → OnOk result (first.new.items ≡ take limit (points ++ points_up_to (option_copied last.entry) (points_in ns rows.now))) }
{
    for row in rows {
        if first.len() >= limit {
            return Ok(());
        }
        let pairs = row.points.as_slice();
        push_pairs(alloc, first, ns, &row.id, pairs, last, limit)?;
    }
    Ok(())
}

/// The first points above the key of these rows, which are of the namespace, up to the last point, where there is one: so many, or all.
/// Identifiers ascend strictly by bytes, and times in each row.
///
/// Costs the logarithm of the rows and of the points of two, beside those that it gives and the rows without points among them.
///
/// # Errors
///
/// Want of memory.
pub fn first_of_rows(
    alloc: Global,
    ns: u8,
    rows: &[Series],
    after: Option<&Key>,
    last: Option<&Point>,
    limit: usize,
) -> Result<Seq<Point>, Memory>
    requires ids { Ascends (λ a b. IsBelow a.id b.id) rows.now }
    requires times { (s : Row) → IsIn rows.now s → Ascends (λ a b. a.0 < b.0) s.points }
    ensures { IfOk result (AreFirst (content_of (points_up_to (option_copied last.entry) (points_in ns rows.now))) (option_copied after.entry) limit) }
{
    let within = rows_up_to(ns, rows, last);
    let mut first = Vec::new(alloc);
    match after {
        Some(key) if ns < key.ns => {}
        Some(key) if ns == key.ns => {
            let (pairs, later) = past_key(within, key);
            push_pairs(alloc, &mut first, ns, &key.id, pairs, last, limit)?;
            push_rows(alloc, &mut first, ns, later, last, limit)?;
        }
        _ => push_rows(alloc, &mut first, ns, within, last, limit)?,
    }
    Ok(Seq::from_vec(first))
}
