//! What earlier runs left to the replicas of a later one.
ghost use Rattle.std.specs.Prelude.{[], ◌∷◌, None, Some, pos};
ghost use Rattle.transcripts.specs.Left.{OpeningStands};
ghost use Rattle.join_laws.specs.Opened.{both_taken, held_by, left_at, nothing, one_taken};

/// Two of three replicas hold what all took; nothing need be held of a write that was refused, or of one that has expired, or
/// before the first run.
pub fn enough_is_left()
    ensures two { OpeningStands both_taken (Some (left_at 100)) (held_by (0 ∷ 1 ∷ []) (pos 5)) }
    ensures expired { OpeningStands both_taken (Some (left_at 600)) nothing }
    ensures refused { OpeningStands one_taken (Some (left_at 100)) nothing }
    ensures first { OpeningStands [] None nothing }
{}

/// One of three replicas holds an acknowledged point, or all hold the lower value, or nobody holds one a unit before it
/// expires.
pub fn acknowledged_point_lost()
    ensures one { ¬ OpeningStands both_taken (Some (left_at 100)) (held_by (0 ∷ []) (pos 5)) }
    ensures lower { ¬ OpeningStands both_taken (Some (left_at 100)) (held_by (0 ∷ 1 ∷ 2 ∷ []) (pos 4)) }
    ensures live { ¬ OpeningStands both_taken (Some (left_at 599)) nothing }
{}

/// A replica holds a value that was never sent, though all else is left.
pub fn unsent_point_held()
    ensures { ¬ OpeningStands both_taken (Some (left_at 100)) (held_by (0 ∷ 1 ∷ 2 ∷ []) (pos 9)) }
{}

/// The run before acknowledged a write, and yet no state is found; or no run was before, and yet something is held.
pub fn state_lost()
    ensures none { ¬ OpeningStands both_taken None nothing }
    ensures held { ¬ OpeningStands [] None (held_by (0 ∷ []) (pos 5)) }
{}
