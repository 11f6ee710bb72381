//! Whom a node joined with: the bootstrap that did it prints a majority of the former replicas.
ghost use Rattle.std.specs.Prelude.{◌≡◌, [], ◌∷◌, None, codes};
ghost use Rattle.m3_model.specs.Members.{IsIn};
ghost use Rattle.m3_model.specs.declared.act.Act.TheVariants as act;
ghost use Rattle.m3_model.specs.declared.answer.Answer.TheVariants as answer;
ghost use Rattle.m3_model.specs.declared.placement.Assignment.{Assignment};
ghost use Rattle.m3_model.specs.declared.placement.Placement.{Placement};
ghost use Rattle.m3_model.specs.declared.placement.ShardState.TheVariants.{Initializing};
ghost use Rattle.placement_core.specs.Lawful.{IsLawful};
ghost use Rattle.placement_core.specs.Shards.{Shard, former};
ghost use Rattle.transcripts.specs.Joined.{Joined};
ghost use Rattle.model_laws.specs.Building.{life_of};
ghost use Rattle.move_laws.specs.Moving.{both_to_a, reopened_with};
ghost use Rattle.join_laws.specs.Replaced.{e_prints, half_idle, idle_print, on_e, second_prints, stopped_print, then_last};

/// Each of two moves was ended by its own bootstrap, which prints two of the three former replicas.
pub fn each_prints_its_peers()
    ensures { Joined (life_of (second_prints (1 ∷ 2 ∷ []))) }
{}

/// The bootstrap that ends the second move prints nobody or one alone, though that of the first prints a majority.
pub fn fewer_than_majority()
    ensures nobody { ¬ Joined (life_of (second_prints [])) }
    ensures one { ¬ Joined (life_of (second_prints (1 ∷ []))) }
{}

/// It prints a node that isn't a former replica any longer, or the one that joined, or a node that isn't there.
pub fn peer_of_no_replica()
    ensures left { ¬ Joined (life_of (second_prints (0 ∷ 1 ∷ []))) }
    ensures itself { ¬ Joined (life_of (second_prints (1 ∷ 4 ∷ []))) }
    ensures nowhere { ¬ Joined (life_of (second_prints (1 ∷ 7 ∷ []))) }
{}

/// It prints one node twice, or two that don't stand by name.
pub fn peers_out_of_order()
    ensures twice { ¬ Joined (life_of (second_prints (1 ∷ 1 ∷ []))) }
    ensures order { ¬ Joined (life_of (second_prints (2 ∷ 1 ∷ []))) }
{}

/// It prints nodes that are stopped.
pub fn stopped_peers()
    ensures { ¬ Joined (life_of stopped_print) }
{}

/// It prints a node that was restarted, and of which no bootstrap was asked since; or one that the run found, and of which a
/// bootstrap was asked, but of another shard.
pub fn idle_peers()
    ensures restarted { ¬ Joined (life_of idle_print) }
    ensures shard { ¬ Joined (reopened_with both_to_a half_idle) }
{}

/// Who joins a shard of a lawful placement is none of those that it may print.
pub fn joining_node_is_no_peer()
    ensures { (place : Placement) → IsLawful place → (shard : Shard) → IsIn place.shards shard → (joining : Assignment) → IsIn shard joining → joining.state ≡ Initializing → ¬ IsIn (former shard) joining.node }
{}

/// The bootstrap of another node prints them, or that of the node doesn't print the shard, or a line of another kind ends
/// the move.
pub fn joined_by_another()
    ensures node { ¬ Joined (life_of (then_last (act.Bootstrap (codes "b") None) (e_prints (1 ∷ 2 ∷ [])))) }
    ensures left_out { ¬ Joined (life_of (then_last (act.Bootstrap (codes "e") None) (answer.Available [] on_e 5))) }
    ensures kind { ¬ Joined (life_of (then_last (act.Cancel (codes "e")) (answer.Placed on_e 5))) }
{}
