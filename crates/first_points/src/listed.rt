ghost use Rattle.std.specs.Prelude.{◌≤◌, ◌↔◌, IfOk};
ghost use Rattle.std.specs.Option.{option_copied};
ghost use Rattle.m3_model.specs.Answers.{HasPoint};
ghost use Rattle.m3_model.specs.Ascends.{Ascends};
ghost use Rattle.m3_model.specs.Contents.{Contents};
ghost use Rattle.m3_model.specs.Members.{IsIn};
ghost use Rattle.m3_model.specs.declared.point.Point.{Point as Held};
ghost use Rattle.page_cut.specs.Pages.{IsBefore};
ghost use Rattle.first_points.specs.Firsts.{AreFirst};

use m3_model::{Key, Memory, Point, Seq};
use page_cut::cut;
use std::alloc::Global;

/// The first points above the key of a content that has just these points, which ascend strictly by key: so many, or all.
///
/// Costs the logarithm of the points, and the limit.
///
/// # Errors
///
/// Want of memory.
pub fn first_of_points(
    alloc: Global,
    points: &Seq<Point>,
    after: Option<&Key>,
    limit: usize,
) -> Result<Seq<Point>, Memory>
    requires limit { 1 ≤ limit }
    requires ascend { Ascends IsBefore points.now }
    ensures { (c : Contents) → ((p : Held) → IsIn points.now p ↔ HasPoint c p) → IfOk result (AreFirst c (option_copied after.entry) limit) }
{
    let page = cut(alloc, points, after, limit)?;
    Ok(page.points)
}
