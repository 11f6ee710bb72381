//! Laws over answers and rows that are joined.
ghost use Rattle.volume_points.specs.Laws.{AnswersJoin, BlockIsRange, VolumesAreKnown, KnownAreThere};

/// Answers to one read, of a content and of some points, are merged to the answer of the content joined with the points.
pub fn answers_join()
    ensures { AnswersJoin }
{}

/// The rows of a block in memory stand for the points of the block.
pub fn block_is_range()
    ensures { BlockIsRange }
{}

/// The volumes that count are known by their heads, in their order.
pub fn volumes_are_known()
    ensures { VolumesAreKnown }
{}

/// Volumes that are known by their heads are there whole.
pub fn known_are_there()
    ensures { KnownAreThere }
{}
