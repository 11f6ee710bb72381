ghost use Rattle.std.specs.Prelude.{◌+◌, Option, IfOk};
ghost use Rattle.m3_model.specs.Contents.{Contents};
ghost use Rattle.m3_model.specs.declared.limits.TheConstants.{MOST_PAGE_POINTS};
ghost use Rattle.m3_model.specs.declared.point.Key.{Key};
ghost use Rattle.first_points.specs.Firsts.{AreFirst, IsPageOf};
ghost use Rattle.page_cut.specs.Pages.{in_order};

use m3_model::limits::MOST_PAGE_POINTS;
use m3_model::{Memory, Page, Point, Seq};
use page_cut::{ascend, cut};
use std::alloc::Global;

/// The page of the first points above a key, of which one more than a page may have is given, if there are so many. It goes on from the
/// key of its last point exactly where a point follows that.
///
/// Costs in proportion to the page.
///
/// # Errors
///
/// Want of memory.
pub fn page_of_first(alloc: Global, points: &Seq<Point>) -> Result<Page, Memory>
    ensures { (c : Contents) (after : Option Key) → AreFirst c after (MOST_PAGE_POINTS + 1) points.now → IfOk result (IsPageOf c after) }
{
    if !ascend(points) {
        return Err(Memory);
    }
    cut(alloc, points, None, MOST_PAGE_POINTS)
}
