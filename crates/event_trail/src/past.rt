ghost use Rattle.std.specs.Prelude.{◌≡◌, [], ◌∷◌, ◌++◌};

use crate::views::EventView;
use std::marker::Model;
use std::snapshot::Snapshot;

// Events, the last one outermost. Contracts see their list. A snapshot has no bytes, so a past of whatever length is one byte.
#[cycle(past)]
#[derive(Drop)]
pub(crate) struct Past {
    last: Link,
}

#[cycle(past)]
#[derive(Drop)]
enum Link {
    Start,
    Then(Snapshot<Past>, Snapshot<EventView>),
}

impl Model for Past {
    ghost use Rattle.std.specs.Prelude.{List, length};
    ghost use Rattle.cluster_core.specs.declared.event.Event.{Event};

    ghost Value = { List Event };

    ghost use Rattle.event_trail.specs.Pasts.{events_of};

    ghost view = { λ p. events_of p.last };

    ghost size = { length };

    ghost use Rattle.std.proofs.Common.{arith, length-append};

    ghost size_decreases = { λ a h. Prim.grind (arith, length-append) };
}

impl Past {
    pub(crate) fn new() -> Past
        ensures { result ≡ [] }
    {
        Past { last: Link::Start }
    }

    // With one more event.
    pub(crate) fn with(&self, event: &EventView) -> Past
        ensures { result ≡ self.now ++ event.now ∷ [] }
    {
        Past {
            last: Link::Then(Snapshot::of(self), Snapshot::of(event)),
        }
    }
}
