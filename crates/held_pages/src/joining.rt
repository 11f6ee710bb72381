ghost use Rattle.std.specs.Prelude.{◌+◌, Option, IfOk};
ghost use Rattle.m3_model.specs.Contents.{Contents};
ghost use Rattle.m3_model.specs.declared.limits.TheConstants.{MOST_PAGE_POINTS as MOST_POINTS};
ghost use Rattle.m3_model.specs.declared.point.Key.{Key as Last};
ghost use Rattle.first_points.specs.Firsts.{AreFirst, IsPageOf};
ghost use Rattle.first_points.specs.Merges.{IsJoinOf};

use first_points::{first_of_both, page_of_first};
use m3_model::limits::MOST_PAGE_POINTS;
use m3_model::{Memory, Page, Point, Seq};
use std::alloc::Global;

/// The page of the first points of two contents, joined, of which those of each are given, with one more than a page may have. Costs in
/// proportion to the page.
///
/// # Errors
///
/// Want of memory.
pub fn page_of_both(alloc: Global, one: Seq<Point>, other: Seq<Point>) -> Result<Page, Memory>
    ensures { (c d join : Contents) (after : Option Last) → IsJoinOf c d join → AreFirst c after (MOST_POINTS + 1) one → AreFirst d after (MOST_POINTS + 1) other → IfOk result (IsPageOf join after) }
{
    let first = first_of_both(alloc, one, other, MOST_PAGE_POINTS + 1)?;
    page_of_first(alloc, &first)
}
