//! Why a node doesn't own a shard, and why a replica is fenced.
ghost use Rattle.std.specs.Prelude.{Bool};
ghost use Rattle.told_moves.specs.Moves.{NotOwnedIsSaid, StaleIsSaid, StreamsAreOwned};

/// A put or a read that is refused as not owned is of a node that has no replica of the shard any more, or not yet, or
/// has it since a later version than that of the placement which the call uses; and so a transcript says of it.
pub fn not_owned_is_said()
    ensures { (tells : Bool) → NotOwnedIsSaid tells }
{}

/// A put or a read that is refused for a fence is so for a move of the shard whose bootstrap was asked, or for a fence
/// that an earlier run left.
pub fn stale_is_said()
    ensures { StaleIsSaid }
{}

/// And so is a former replica that refuses a fence or a page of a bootstrap as not owned, by the version at which the move
/// began.
pub fn streams_are_owned()
    ensures { (tells : Bool) → StreamsAreOwned tells }
{}
