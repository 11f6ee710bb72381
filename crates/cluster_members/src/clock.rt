//! A moment and namespaces as events of the run.
ghost use Rattle.std.specs.Prelude.{[], ◌∷◌, Bool};
ghost use Rattle.session_writes.specs.cluster_core.Legal.{IsNextClock, Lawful};
ghost use Rattle.session_writes.specs.cluster_core.declared.event.Asked.TheVariants as asked;
ghost use Rattle.session_writes.specs.cluster_core.declared.event.Event.TheVariants as event;
ghost use Rattle.session_writes.specs.replica_exchange.MachineCalls.{HasRoom};
ghost use Rattle.session_writes.specs.session_net.Runs.{Ran};
ghost use Rattle.cluster_members.specs.Steps.{clock_events};

use m3_model::Rules;
use m3_outside::Disk;
use session_writes::of_event_trail::{EventView, tell_apart};
use session_writes::of_session_net::{Replicas, add};

// Adds an Ask for a Clock of the rules to the list, which has room for it.
fn ask<D: Disk>(replicas: &mut Replicas<D>, rules: &Rules)
    requires room { HasRoom 1 replicas.old.events }
    ensures { Ran D.state replicas.old (event.Ask (asked.Clock rules.entry.now) ∷ []) replicas.new }
{
    let ask = EventView::ask_clock(rules);
    add(replicas, &ask);
}

// Adds a Clock of the rules, which was asked for.
fn answer<D: Disk>(replicas: &mut Replicas<D>, rules: &Rules)
    requires lawful { (tells : Bool) → Lawful tells replicas.old.events (event.Clock rules.now) }
    requires room { HasRoom 1 replicas.old.events }
    ensures { Ran D.state replicas.old (event.Clock rules.entry.now ∷ []) replicas.new }
{
    let clock = EventView::clock(rules);
    add(replicas, &clock);
}

/// Asks for a Clock of the rules and adds it, where both have room. Takes no memory.
pub(crate) fn tick<D: Disk>(replicas: &mut Replicas<D>, rules: &Rules)
    requires next { IsNextClock replicas.old.events rules.now }
    requires room { HasRoom 2 replicas.old.events }
    ensures { Ran D.state replicas.old (clock_events rules.entry.now) replicas.new }
{
    replicas.know();
    tell_apart::<Rules>();
    ask(replicas, rules);
    answer(replicas, rules);
}
