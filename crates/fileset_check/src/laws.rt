//! Laws over what is told of volumes.
ghost use Rattle.fileset_check.specs.Laws.{ToldAreUnsound, ToldIsFirst};

/// Where something is told of volumes, they aren't all whole.
pub fn told_are_unsound()
    ensures { ToldAreUnsound }
{}

/// What is told of volumes is the first damage of all files, but of data that keeps to its digest, and of a name that no volume
/// has.
pub fn told_is_first()
    ensures { ToldIsFirst }
{}
