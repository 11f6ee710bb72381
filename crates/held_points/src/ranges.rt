ghost use Rattle.std.specs.Prelude.{◌≡◌, List, ◌++◌, IfOk, OnOk};
ghost use Rattle.m3_model.specs.Ascends.{Ascends};
ghost use Rattle.m3_model.specs.Members.{IsIn};
ghost use Rattle.m3_model.specs.Tags.{IsBelow};
ghost use Rattle.m3_model.specs.declared.point.Series.{Series};
ghost use Rattle.series_slots.specs.Ranges.{IsRangeOf};
ghost use Rattle.held_points.specs.Selected.{IsSelection};

use crate::counted::CountedBuffer;
use m3_model::{Memory, Pick, Seq, Series, Text};
use std::alloc::Global;

// Adds the points of one series in the range, if there are any.
fn add_range(
    alloc: Global,
    buffer: &CountedBuffer,
    all: &mut Vec<Series>,
    pick: Pick,
    from: u64,
    to: u64,
) -> Result<(), Memory>
    ensures { OnOk result ((found : List Series) × IsRangeOf buffer.now.points pick from to found × (all.new.items ≡ all.old.items ++ found)) }
{
    let mut found = buffer.range(alloc, &pick, from, to)?.into_vec();
    all.append(&mut found)?;
    Ok(())
}

// The points of these series of a namespace with `from <= t < to`, in the order of their identifiers. Each series costs
// logarithmic time beside its points.
pub(crate) fn ranges(
    alloc: Global,
    buffer: &CountedBuffer,
    ns: u8,
    ids: Seq<Text>,
    from: u64,
    to: u64,
) -> Result<Seq<Series>, Memory>
    requires { Ascends IsBelow ids }
    ensures { IfOk result (IsSelection buffer.now.points ns (IsIn ids) from to) }
{
    let mut all = Vec::new(alloc);
    for id in ids.into_vec() {
        let pick = Pick::One { ns, id };
        add_range(alloc, buffer, &mut all, pick, from, to)?;
    }
    Ok(Seq::from_vec(all))
}
