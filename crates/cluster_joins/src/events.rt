//! A placement that ends moves, as events of the run.
ghost use Rattle.std.specs.Prelude.{◌∷◌, ◌++◌, [], Bool};
ghost use Rattle.cluster_core.specs.Legal.{IsNextPlace, Lawful};
ghost use Rattle.cluster_core.specs.declared.event.Asked.TheVariants as asked;
ghost use Rattle.cluster_core.specs.declared.event.Event.TheVariants as event;
ghost use Rattle.node_calls.specs.replica_exchange.MachineCalls.{HasRoom};
ghost use Rattle.node_calls.specs.session_net.Runs.{Ran};
ghost use Rattle.cluster_placements.specs.Steps.{place_ending};

use event_trail::{EventView, tell_apart};
use m3_model::{Placement, Seq};
use m3_outside::Disk;
use node_calls::of_replica_calls::Replicas;
use node_calls::of_session_net::add;

// Adds an Ask for a Place of the placement, with which these moves end, to the list, which has room for it.
fn ask<D: Disk>(replicas: &mut Replicas<D>, next: &Placement, done: &Seq<(u32, u8)>)
    requires room { HasRoom 1 replicas.old.events }
    ensures { Ran D.state replicas.old (event.Ask (asked.Place next.entry.now done.entry.now) ∷ []) replicas.new }
{
    let ask = EventView::ask_ended(next, done);
    add(replicas, &ask);
}

// Adds a Place of the placement, with which these moves end and which was asked for.
fn answer<D: Disk>(replicas: &mut Replicas<D>, next: &Placement, done: &Seq<(u32, u8)>)
    requires lawful { (tells : Bool) → Lawful tells replicas.old.events (event.Place next.now done.now) }
    requires room { HasRoom 1 replicas.old.events }
    ensures { Ran D.state replicas.old (event.Place next.entry.now done.entry.now ∷ []) replicas.new }
{
    let place = EventView::ended(next, done);
    add(replicas, &place);
}

/// Asks for a Place of the placement, with which these moves end and which may come next, and adds it, where both have room. Takes no memory.
pub(crate) fn place_ended<D: Disk>(
    replicas: &mut Replicas<D>,
    next: &Placement,
    done: &Seq<(u32, u8)>,
)
    requires comes { IsNextPlace (replicas.old.events ++ event.Ask (asked.Place next.now done.now) ∷ []) next.now done.now }
    requires room { HasRoom 2 replicas.old.events }
    ensures { Ran D.state replicas.old (place_ending next.entry.now done.entry.now) replicas.new }
{
    replicas.know();
    tell_apart::<Placement>();
    ask(replicas, next, done);
    answer(replicas, next, done);
}
