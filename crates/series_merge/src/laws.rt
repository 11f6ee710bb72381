ghost use Rattle.series_merge.specs.Laws.{StandsForItsPoints};

/// A law: an ordered list of series stands for exactly its points.
pub fn stands_for_its_points()
    ensures { StandsForItsPoints }
{}
