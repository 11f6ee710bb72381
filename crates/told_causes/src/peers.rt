//! Why former replicas didn't stream whole.
ghost use Rattle.std.specs.Prelude.{Bool};
ghost use Rattle.told_causes.specs.Peers.{PeersAreSaid};

/// Each reason that a bootstrap hears of a former replica has its cause: a stop or a fault, a bootstrap that wasn't, a move of
/// the shard, a disk or damage of this very line.
pub fn peers_are_said()
    ensures { (tells : Bool) → PeersAreSaid tells }
{}
