//! Laws over what is told of the newest snapshot.
ghost use Rattle.snapshot_files.specs.Laws.{ToldIsFirst, ToldIsUnsound};

/// Where something is told, a snapshot counts, and the newest one isn't whole.
pub fn told_is_unsound()
    ensures { ToldIsUnsound }
{}

/// Where the volumes that count are whole, what is told is the first damage of all files, but of data that keeps to its digest.
pub fn told_is_first()
    ensures { ToldIsFirst }
{}
