//! Laws over the definitions of the meta disk's log.
ghost use Rattle.placement_log.specs.MetaLaws.{LastIsOne, DamagedHoldNothing};

/// Files hold at most one last state.
pub fn last_is_one()
    ensures { LastIsOne }
{}

/// Damaged files hold none, and not even that there is none.
pub fn damaged_hold_nothing()
    ensures { DamagedHoldNothing }
{}
