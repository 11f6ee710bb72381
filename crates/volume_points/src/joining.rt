ghost use Rattle.std.specs.Prelude.{ℕ, List, IfOk};
ghost use Rattle.m3_model.specs.Answers.{IsAnswer};
ghost use Rattle.m3_model.specs.Contents.{Contents, content_of};
ghost use Rattle.m3_model.specs.Reads.{IsOrdered};
ghost use Rattle.m3_model.specs.declared.point.Pick.{Pick};
ghost use Rattle.m3_model.specs.declared.point.Point.{Point};
ghost use Rattle.held_points.specs.block_buffer.Joins.{joined};
ghost use Rattle.series_merge.specs.Merges.{IsMergeOf};

use m3_model::{Memory, Seq, Series};
use series_merge::merge;
use std::alloc::Global;

/// What a read finds of one content and of some points, in one: the answer of the content joined with the points, where both
/// are answers to the same read. Costs as `series_merge::merging::merge`.
///
/// # Errors
///
/// Want of memory.
pub fn join(alloc: Global, one: Seq<Series>, other: Seq<Series>) -> Result<Seq<Series>, Memory>
    requires one { IsOrdered one }
    requires other { IsOrdered other }
    ensures merge { IfOk result (IsMergeOf one other) }
    ensures answer { IfOk result (λ series. (c : Contents) (points : List Point) (pick : Pick) (from to : ℕ) → IsAnswer c pick from to one → IsAnswer (content_of points) pick from to other → IsAnswer (joined c points) pick from to series) }
{
    merge(alloc, one, other)
}
