//! A placement and the ends of tenures as events of the run.
ghost use Rattle.std.specs.Prelude.{◌≢◌, ◌*◌, ◌∷◌, [], None, length, Bool};
ghost use Rattle.std.specs.FinMap as finite;
ghost use Rattle.std.specs.List.{flat_map};
ghost use Rattle.m3_model.specs.Members.{IsIn};
ghost use Rattle.cluster_core.specs.Legal.{IsNextPlace, Lawful};
ghost use Rattle.cluster_core.specs.declared.event.Asked.TheVariants as asked;
ghost use Rattle.cluster_core.specs.declared.event.Event.TheVariants as event;
ghost use Rattle.node_calls.specs.replica_exchange.MachineCalls.{HasRoom};
ghost use Rattle.node_calls.specs.replica_exchange.declared.slot.Slot.{Slot as AtSlot};
ghost use Rattle.node_calls.specs.session_net.Runs.{Ran};
ghost use Rattle.cluster_placements.specs.Steps.{end_at, place_events};

use event_trail::{EventView, tell_apart};
use m3_model::Placement;
use m3_outside::Disk;
use node_calls::of_replica_calls::Replicas;
use node_calls::of_replica_exchange::Slot;
use node_calls::of_session_net::add;

// Adds an Ask for a Place of the placement to the list, which has room for it.
fn ask<D: Disk>(replicas: &mut Replicas<D>, next: &Placement)
    requires room { HasRoom 1 replicas.old.events }
    ensures { Ran D.state replicas.old (event.Ask (asked.Place next.entry.now []) ∷ []) replicas.new }
{
    let ask = EventView::ask_place(next);
    add(replicas, &ask);
}

// Adds a Place of the placement, which was asked for.
fn answer<D: Disk>(replicas: &mut Replicas<D>, next: &Placement)
    requires lawful { (tells : Bool) → Lawful tells replicas.old.events (event.Place next.now []) }
    requires room { HasRoom 1 replicas.old.events }
    ensures { Ran D.state replicas.old (event.Place next.entry.now [] ∷ []) replicas.new }
{
    let place = EventView::place(next);
    add(replicas, &place);
}

// Asks for a Place of the placement, which may come next, and adds it, where both have room. Takes no memory.
pub(crate) fn place<D: Disk>(replicas: &mut Replicas<D>, next: &Placement)
    requires next { IsNextPlace replicas.old.events next.now [] }
    requires room { HasRoom 2 replicas.old.events }
    ensures { Ran D.state replicas.old (place_events next.entry.now) replicas.new }
{
    replicas.know();
    tell_apart::<Placement>();
    ask(replicas, next);
    answer(replicas, next);
}

// Ends the tenure of the replica at the slot, which is there.
fn end_one<D: Disk>(replicas: &mut Replicas<D>, slot: Slot)
    requires there { finite.get replicas.old.members slot ≢ None }
    requires room { HasRoom 2 replicas.old.events }
    ensures { Ran D.state replicas.old (end_at slot) replicas.new }
{
    match replicas.end(slot) {
        Ok(()) => {}
        Err(_) => unreachable!(),
    }
}

/// Ends the tenures of the replicas at the slots, which are there, one after the other. Takes no memory.
pub fn end_all<D: Disk>(replicas: &mut Replicas<D>, slots: &[Slot])
    requires there { (s : AtSlot) → IsIn slots.now s → finite.get replicas.old.members s ≢ None }
    requires room { HasRoom (2 * length slots.now) replicas.old.events }
    ensures { Ran D.state replicas.old (flat_map end_at slots.now) replicas.new }
{
    for slot in slots {
        end_one(replicas, *slot);
    }
}
