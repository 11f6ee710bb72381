//! Laws over what is told of a replica's files.
ghost use Rattle.shard_open.specs.Told.{DigestsAreApart, ToldAreUnsound, ToldIsFirst};

/// Where something is told of files, they hold nothing.
pub fn told_are_unsound()
    ensures { ToldAreUnsound }
{}

/// What is told of files is their first damage, but of the data of a volume or of the newest snapshot that keeps to its digest, and
/// of a name that no volume has.
pub fn told_is_first()
    ensures { ToldIsFirst }
{}

/// Where two digests are told of a file, the one that is found is that of its bytes, and they differ.
pub fn digests_are_apart()
    ensures { DigestsAreApart }
{}
