//! What of rows isn't above a last point.
ghost use Rattle.std.specs.Prelude.{◌≡◌, ◌<◌};
ghost use Rattle.std.specs.Option.{option_copied};
ghost use Rattle.m3_model.specs.Ascends.{Ascends};
ghost use Rattle.m3_model.specs.Members.{IsIn};
ghost use Rattle.m3_model.specs.Reads.{points_in};
ghost use Rattle.m3_model.specs.Tags.{IsBelow};
ghost use Rattle.m3_model.specs.declared.point.Series.{Series as Row};
ghost use Rattle.first_points.specs.Bounds.{points_up_to};
ghost use Rattle.first_points.specs.Rows.{points_at};

use m3_model::{Point, Series, Text};

// The pairs of an identifier up to the last point, where there is one.
pub(crate) fn pairs_up_to<'a>(
    ns: u8,
    id: &Text,
    pairs: &'a [(u64, i64)],
    last: Option<&Point>,
) -> &'a [(u64, i64)]
    requires { Ascends (λ a b. a.0 < b.0) pairs.now }
    ensures { points_at ns id.now result.now ≡ points_up_to (option_copied last.entry) (points_at ns id.now pairs.now) }
{
    let Some(last) = last else {
        return pairs;
    };
    let series = last.ns.cmp(&ns).then(last.id.cmp(id));
    &pairs[..pairs.partition_point(|pair| !series.then(last.t.cmp(&pair.0)).is_lt())]
}

// The rows that may have points up to the last one, where there is one: those of further identifiers are left out.
pub(crate) fn rows_up_to<'a>(ns: u8, rows: &'a [Series], last: Option<&Point>) -> &'a [Series]
    requires { Ascends (λ a b. IsBelow a.id b.id) rows.now }
    ensures points { points_up_to (option_copied last.entry) (points_in ns result.now) ≡ points_up_to (option_copied last.entry) (points_in ns rows.now) }
    ensures ids { Ascends (λ a b. IsBelow a.id b.id) result.now }
    ensures rows { (s : Row) → IsIn result.now s → IsIn rows.now s }
{
    let Some(last) = last else {
        return rows;
    };
    let space = last.ns.cmp(&ns);
    &rows[..rows.partition_point(|row| !space.then(last.id.cmp(&row.id)).is_lt())]
}
