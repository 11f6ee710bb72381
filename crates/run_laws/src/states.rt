//! The state that a run leaves.
ghost use Rattle.std.specs.Prelude.{List, [], ◌∷◌, None, Some, codes};
ghost use Rattle.m3_model.specs.declared.turn.Turn.{Turn as Line};
ghost use Rattle.m3_outside.specs.Slots.{Out, Unused};
ghost use Rattle.model_laws.specs.Building.{begun, eight_made, space};
ghost use Rattle.join_laws.specs.Limits.{StandsLate, late};
ghost use Rattle.join_laws.specs.Replaced.{moving_to_d, on_d};
ghost use Rattle.m3_program.specs.Saved.{LeavesMeta, MayBeLast};
ghost use Rattle.run_laws.specs.States.{boot_d, cluster_at, go_to, in_place, name_it, stopped_d, with_nine, with_spaces};

use m3_outside::Disks;

/// The turns leave their state, and an open request may have led on from there: to a later moment, or by a bootstrap of a node
/// that runs.
pub fn state_led_to()
    ensures left { MayBeLast None (begun 100 []) None (Some (cluster_at 100 0)) }
    ensures later { MayBeLast None (begun 100 []) (Some (go_to 200)) (Some (cluster_at 200 0)) }
    ensures joined { MayBeLast None moving_to_d (Some boot_d) (Some (in_place on_d)) }
{}

/// A line is skipped, or the seed is another one, or another placement or none is left, or what nobody asked for is done.
pub fn state_not_left()
    ensures skipped { ¬ MayBeLast None (begun 100 []) None (Some (cluster_at 0 0)) }
    ensures seed { ¬ MayBeLast None (begun 100 []) None (Some (cluster_at 100 7)) }
    ensures place { ¬ MayBeLast None moving_to_d None (Some (in_place on_d)) }
    ensures nothing { ¬ MayBeLast None (begun 100 []) None None }
{}

/// An open request that is due to be refused leads on: the moment falls, a namespace is made twice, or there are nine.
pub fn refused_rules_left()
    ensures falls { ¬ MayBeLast None (begun 100 []) (Some (go_to 5)) (Some (cluster_at 5 0)) }
    ensures twice { ¬ MayBeLast None (begun 100 []) (Some (name_it (codes "m"))) (Some (with_spaces 100 (space ∷ space ∷ []))) }
    ensures ninth { ¬ MayBeLast None eight_made (Some (name_it (codes "m9"))) (Some with_nine) }
{}

/// The node of an open bootstrap is stopped, or no version is left for it.
pub fn refused_join_left()
    ensures stopped { ¬ MayBeLast None stopped_d (Some boot_d) (Some (in_place on_d)) }
    ensures limit { (lines : List Line) → StandsLate 1024 lines → ¬ MayBeLast None lines (Some boot_d) (Some (in_place (late 1025))) }
{}

/// The meta disk isn't back in its slot.
pub fn meta_disk_lost<X: Disks>()
    ensures out { (lines : List Line) → ¬ LeavesMeta X.D.state Out None lines None }
    ensures unused { (lines : List Line) → ¬ LeavesMeta X.D.state Unused None lines None }
{}
