//! What is so of the rows that a cache answers.
ghost use Rattle.block_cache.specs.Laws.{PutIsFound, OthersStay, ForgottenIsGone, OnlyWhatWasPut, LastGoes};

/// Rows that were put are found by their block, and of a block that was forgotten none are.
pub fn put_is_found()
    ensures put { PutIsFound }
    ensures forgotten { ForgottenIsGone }
{}

/// What is found of a block stays when another one is put, used or forgotten, but that a put may leave none of it.
pub fn others_stay()
    ensures { OthersStay }
{}

/// What is so of all blocks with their rows stays so where it is so of each that is put: so a cache never answers rows
/// other than those that were put for the block.
pub fn only_what_was_put()
    ensures { OnlyWhatWasPut }
{}

/// Where it is full, a further block takes the place of the last one, which wasn't used for longest.
pub fn last_goes()
    ensures { LastGoes }
{}
