//! A run goes on by the line of a bootstrap.
ghost use Rattle.std.specs.Prelude.{Bool};
ghost use Rattle.told_joins.specs.Laws.{HeldUpJoinsServe, JoinsAreWhole, JoinsServe, MissedJoinsServe, PartJoinsServe, UnmarkedJoinsServe};
ghost use Rattle.told_joins.specs.Sample.{EndedEarly, EndsNothing, FencedLate, JoinIsAdded, NoPeerIsTooFew, Unfenced, Unstreamed};

/// A bootstrap leaves a told run told and served: where it is answered ok, with the shards that it joined, each of which a
/// majority of the former replicas streamed whole behind their fences; where a replica of its node ends it; and where
/// memory is wanted, or the list lacks room, before it comes to a placement.
pub fn joins_serve()
    ensures joined { (tells : Bool) → JoinsServe tells }
    ensures held_up { (tells : Bool) → HeldUpJoinsServe tells }
    ensures part { (tells : Bool) → PartJoinsServe tells }
{}

/// Each shard that such a line prints was joined: by a majority of the former replicas, each of which the node streamed, and
/// with a Place behind that, before which no tenure ends.
pub fn joins_are_whole()
    ensures { JoinsAreWhole }
{}

/// And so does one that ends no move: where fewer than a majority of the former replicas of a shard streamed whole, each of
/// the others named with its reason; and where as many versions are kept as may be.
pub fn missed_joins_serve()
    ensures missed { (tells : Bool) → MissedJoinsServe tells }
    ensures unmarked { (tells : Bool) → UnmarkedJoinsServe tells }
{}

/// What such a line is to add can be met, and lists that are broken in one place are none of it: without a fence, with one
/// behind the page, without a page, with a tenure that ends before the Place, with a Place that ends no move, and where a shard
/// is printed without a peer.
pub fn broken_joins_are_refused()
    ensures met { JoinIsAdded }
    ensures unfenced { Unfenced }
    ensures fenced_late { FencedLate }
    ensures unstreamed { Unstreamed }
    ensures ended_early { EndedEarly }
    ensures ends_nothing { EndsNothing }
    ensures no_peer { NoPeerIsTooFew }
{}
