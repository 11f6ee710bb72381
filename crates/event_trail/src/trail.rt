ghost use Rattle.std.specs.Prelude.{◌≡◌, ◌↔◌, ◌+◌, ◌<◌, ◌≤◌, [], ◌∷◌, ◌++◌, length, IfOk, OnErr, IsErr, nat_le};
ghost use Rattle.placement_core.specs.Lawful.{IsLawful};
ghost use Rattle.cluster_core.specs.Core.{ListKeepsPoints};
ghost use Rattle.cluster_core.specs.declared.event.Event.TheVariants as event;
ghost use Rattle.event_book.specs.Lists.{most_entries};
ghost use Rattle.m3_outside.specs.Depots.{TellAll};
ghost use Rattle.event_trail.specs.Trails.{IsLegalOver, IsLawfulOver};

use crate::past::Past;
use crate::views::EventView;
use event_book::Full;
use m3_outside::Disk;
use placement_core::of_m3_model::{Placement, Rules};
use std::marker::{Model, PhantomData};

// So many events a list takes.
const MOST_EVENTS: u64 = 1 << 62;

// A run opens with its placement and its rules.
fn opening(first: &Placement, rules: &Rules) -> Past
    ensures { result ≡ event.Place first.now [] ∷ event.Clock rules.entry.now ∷ [] }
{
    let placed = Past::new().with(&EventView::place(first));
    placed.with(&EventView::clock(rules))
}

/// The events of a run over disks of this kind, so far. Contracts see their list, which is legal as far as the disks tell. The program
/// keeps only how many they are.
pub struct Trail<D: Disk> {
    len: u64,
    past: Past,
    of: PhantomData<D>,
}

impl<D: Disk> Drop for Trail<D> {
    fn drop(self) {
        let Trail {
            len: _,
            past: _,
            of: _,
        } = self;
    }
}

impl<D: Disk> Model for Trail<D> {
    ghost use Rattle.std.specs.Prelude.{List};
    ghost use Rattle.cluster_core.specs.declared.event.Event.{Event};

    ghost Value = { List Event };

    ghost use Rattle.event_trail.specs.Trails.{IsTrail};

    ghost view = { λ t. t.past };

    ghost invariant = { λ t. IsTrail D.state t.len t.past };
}

impl<D: Disk> Trail<D> {
    /// A run opens with its placement and its rules. Takes no memory.
    pub fn new(first: &Placement, rules: &Rules) -> Trail<D>
        requires { IsLawful first.now }
        ensures { result ≡ event.Place first.now [] ∷ event.Clock rules.entry.now ∷ [] }
    {
        let past = opening(first, rules);
        Trail {
            len: 2,
            past,
            of: PhantomData,
        }
    }

    /// Adds an event that is lawful after the list, and answers its position. Takes no memory.
    ///
    /// # Errors
    ///
    /// Full, exactly where the list has 2^62 events. It stays as it is.
    pub fn append(&mut self, event: &EventView) -> Result<u64, Full>
        requires { IsLawfulOver D.state self.old event.now }
        ensures ok { IfOk result (λ position. (position ≡ length self.old) × (self.new ≡ self.old ++ event.now ∷ [])) }
        ensures err { OnErr result (self.new ≡ self.old) }
        ensures full { IsErr result ↔ (length self.old ≡ most_entries) }
    {
        let position = self.len;
        if position == MOST_EVENTS {
            return Err(Full);
        }
        self.append_reserved(event);
        Ok(position)
    }

    /// Adds an event that is lawful after the list, for which there is room. Takes no memory.
    pub fn append_reserved(&mut self, event: &EventView)
        requires lawful { IsLawfulOver D.state self.old event.now }
        requires room { length self.old < most_entries }
        ensures { self.new ≡ self.old ++ event.now ∷ [] }
    {
        let longer = self.past.with(event);
        self.past = longer;
        self.len += 1;
    }

    /// How many events it has.
    pub fn len(&self) -> u64
        ensures { result ≡ length self.now }
    {
        self.len
    }

    /// Whether so many more events go in.
    pub fn has_room(&self, more: u64) -> bool
        ensures { result ≡ nat_le (length self.now + more) most_entries }
    {
        more <= MOST_EVENTS - self.len
    }

    /// The list is legal as far as the disks tell, and no longer than it may be.
    pub fn know(&self)
        ensures legal { IsLegalOver D.state self.now }
        ensures short { length self.now ≤ most_entries }
    {
        let _ = &self.len;
    }
}

/// Over disks that tell, the reads of the list keep what a majority took.
pub fn reads_keep<D: Disk>(trail: &Trail<D>)
    requires { TellAll D.state }
    ensures { ListKeepsPoints trail.now }
{
    trail.know();
}
