//! Moves of a node that end: one placement for all of them, and then the ends of the sources' tenures.
ghost use Rattle.m3_outside.specs.Slots.{Held};
ghost use Rattle.m3_outside.specs.declared.slot.DiskSlot.{DiskSlot};
ghost use Rattle.cluster_placements.specs.Steps.{MayChange};
ghost use Rattle.cluster_joins.specs.Boots.{EndsBooted};
ghost use Rattle.cluster_joins.specs.Marks.{HasEnded, IsMarked, MayBeMarked, MayEnd};

use crate::events::place_ended;
use crate::marking::{Marked, Marking};
use cluster_placements::end_all;
use m3_model::Answer;
use m3_outside::Disk;
use node_calls::of_cluster_members::Members;
use std::mem::replace;

/// Marks the shards that the node joined: the placement in which their moves are over stands then, by one Place, and the one before it is kept. The
/// cluster is as `open_node` left it. The tenures of the nodes are to end next from which the node takes over. It can't be refused, and takes no memory.
pub fn mark<D: Disk>(members: &mut Members<D>, marking: Marking) -> Marked
    requires { MayBeMarked members.old marking }
    ensures marked { IsMarked D.state members.old marking result members.new }
    ensures may_end { MayEnd members.new result }
    ensures still { (held : DiskSlot → Held D) → MayChange members.old held → MayChange members.new held }
{
    let Marking { next, done, marked } = marking;
    place_ended(&mut members.net.replicas, &next, &done);
    drop(done);
    let stood = replace(&mut members.net.state.place, next);
    members.past.push_reserved(stood);
    marked
}

/// Ends the tenures of the nodes from which the node took over that joined the shards, which stand marked, and answers the shards, each with whom the
/// node merged, with the placement and its version. It can't be refused, and takes no memory.
pub fn end_sources<D: Disk>(members: &mut Members<D>, marked: Marked) -> Answer
    requires { MayEnd members.old marked }
    ensures ended { HasEnded D.state members.old marked result members.new }
    ensures booted { EndsBooted D.state members.old marked result members.new }
    ensures still { (held : DiskSlot → Held D) → MayChange members.old held → MayChange members.new held }
{
    let Marked {
        printed,
        joined,
        sources,
    } = marked;
    end_all(&mut members.net.replicas, sources.as_slice());
    drop(sources);
    let version = printed.version;
    Answer::Available {
        available: joined,
        placement: printed,
        version,
    }
}
