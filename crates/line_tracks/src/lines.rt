//! The lines of a run tracked one after the other.
ghost use Rattle.line_tracks.specs.tracks.Lines.{BootstrapsAreTracked, DeliveriesAreTracked, FatesAreTracked, FetchesAreTracked, FlushesAreTracked, InitsAreTracked, LinesAreTracked, MatchesAreTracked, MomentsAreTracked, NamespacesAreTracked, OrdersAreTracked, RestartsAreTracked, SnapshotsAreTracked, StatusIsTracked, StepsAreTracked, StopsAreTracked, TicksAreTracked, WritesAreTracked};
ghost use Rattle.line_tracks.specs.tracks.Slots.{ActsKeepSlots};

use m3_outside::Disk;
use node_calls::of_cluster_members::Members;

/// An act that makes no placement, other than a bootstrap, leaves the one that stands, the slots, and which of them have replicas; a slot without one takes no step.
pub fn acts_keep_slots<D: Disk>(members: &Members<D>)
    ensures { ActsKeepSlots D.state members.now }
{}

/// The lines of calls that give no version.
pub fn calls_are_tracked<D: Disk>(members: &Members<D>)
    ensures write { WritesAreTracked D.state members.now }
    ensures fetch { FetchesAreTracked D.state members.now }
    ensures find { MatchesAreTracked D.state members.now }
{}

/// Those that set the rules or the fates, and that deliver late messages.
pub fn settings_are_tracked<D: Disk>(members: &Members<D>)
    ensures namespace { NamespacesAreTracked D.state members.now }
    ensures moment { MomentsAreTracked D.state members.now }
    ensures fates { FatesAreTracked D.state members.now }
    ensures delivery { DeliveriesAreTracked D.state members.now }
{}

/// Those that stop, restart and bootstrap a node.
pub fn nodes_are_tracked<D: Disk>(members: &Members<D>)
    ensures stop { StopsAreTracked D.state members.now }
    ensures restart { RestartsAreTracked D.state members.now }
    ensures bootstrap { BootstrapsAreTracked D.state members.now }
{}

/// Those that go over all replicas: ticks, flushes, snapshots, and how they stand.
pub fn upkeep_is_tracked<D: Disk>(members: &Members<D>)
    ensures tick { TicksAreTracked D.state members.now }
    ensures flush { FlushesAreTracked D.state members.now }
    ensures snapshot { SnapshotsAreTracked D.state members.now }
    ensures status { StatusIsTracked D.state members.now }
{}

/// That of an `init`; and where no cluster stands, those that are out of order.
pub fn inits_are_tracked<D: Disk>(members: &Option<Members<D>>)
    ensures order { OrdersAreTracked D.state members.now }
    ensures init { InitsAreTracked D.state members.now }
{}

/// Those that make a placement, whatever they are answered: the next placement, a refusal, a disk that couldn't be taken, or want of room
/// or of memory.
pub fn steps_are_tracked<D: Disk>(members: &Option<Members<D>>)
    ensures { StepsAreTracked D.state members.now }
{}

/// Any line of an act that is served.
pub fn lines_are_tracked<D: Disk>(members: &Option<Members<D>>)
    ensures { LinesAreTracked D.state members.now }
{}
