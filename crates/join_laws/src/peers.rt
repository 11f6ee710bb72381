//! Bootstraps that end no move since too few former replicas streamed whole.
ghost use Rattle.std.specs.Prelude.{◌≡◌, ◌++◌, ℕ, List, [], ◌∷◌, None, Some, true, codes};
ghost use Rattle.m3_model.specs.declared.reason.Reason.TheVariants as reason;
ghost use Rattle.transcripts.specs.Caused.{Caused};
ghost use Rattle.transcripts.specs.Faults.{Fault};
ghost use Rattle.model_laws.specs.Building.{life_of};
ghost use Rattle.join_laws.specs.Replaced.{all_stopped, boot, both_stopped, few, first_missed, forgetful, idle_misses, misses, refuses_tick};

/// Two of the three former replicas are stopped, or wanted memory, or one of them waits for a bootstrap: the third one is too few.
pub fn too_few_streamed()
    ensures down { Caused true (life_of (both_stopped ++ boot (codes "d") (few 1 2 ((1, reason.Down) ∷ (2, reason.Down) ∷ [])) ∷ [])) [] }
    ensures memory { Caused true (life_of (misses (few 1 2 (forgetful 1 ∷ forgetful 2 ∷ [])))) [] }
    ensures idle { Caused true (life_of (idle_misses (few 1 2 ((1, reason.Boot) ∷ forgetful 2 ∷ [])))) [] }
    ensures first { Caused true (first_missed (codes "a") (Some 0)) [] }
{}

/// All three are stopped, and one of them is said to have streamed.
pub fn stopped_node_streams()
    ensures { (faults : List Fault) → ¬ Caused true (life_of (all_stopped ++ boot (codes "d") (few 1 2 ((0, reason.Down) ∷ (1, reason.Down) ∷ [])) ∷ [])) faults }
{}

/// One that was restarted, and of which no bootstrap was asked since, is said to have streamed.
pub fn idle_node_streams()
    ensures { (faults : List Fault) → ¬ Caused true (life_of (idle_misses (few 1 2 (forgetful 0 ∷ forgetful 2 ∷ [])))) faults }
{}

/// Another number than a majority is said to be needed, or as many as are needed streamed, or a former replica is neither
/// counted nor named.
pub fn wrong_numbers()
    ensures needed { (faults : List Fault) → ¬ Caused true (life_of (misses (few 2 3 (forgetful 2 ∷ [])))) faults }
    ensures enough { (faults : List Fault) → ¬ Caused true (life_of (misses (few 2 2 (forgetful 2 ∷ [])))) faults }
    ensures left_out { (faults : List Fault) → ¬ Caused true (life_of (misses (few 0 2 (forgetful 1 ∷ forgetful 2 ∷ [])))) faults }
{}

/// A reason is that of the node that joins, or one node has two, or they don't stand by name.
pub fn reasons_out_of_order()
    ensures stranger { (faults : List Fault) → ¬ Caused true (life_of (misses (few 1 2 (forgetful 1 ∷ forgetful 3 ∷ [])))) faults }
    ensures twice { (faults : List Fault) → ¬ Caused true (life_of (misses (few 1 2 (forgetful 1 ∷ forgetful 1 ∷ [])))) faults }
    ensures order { (faults : List Fault) → ¬ Caused true (life_of (misses (few 1 2 (forgetful 2 ∷ forgetful 1 ∷ [])))) faults }
{}

/// The shard isn't one that was asked for, or isn't joined by the node.
pub fn misses_of_another_move()
    ensures shard { (faults : List Fault) → ¬ Caused true (first_missed (codes "a") (Some 1)) faults }
    ensures node { (faults : List Fault) → ¬ Caused true (first_missed (codes "b") (Some 0)) faults }
{}

/// A former replica refuses its fence or a page for a moment, as cut, for a fence, for a bootstrap that it doesn't wait for, or
/// for a shard that it owns since before the move.
pub fn reason_of_a_call()
    ensures past { (faults : List Fault) → ¬ Caused true (life_of (misses (few 1 2 ((1, reason.Past) ∷ forgetful 2 ∷ [])))) faults }
    ensures cut { (faults : List Fault) → ¬ Caused true (life_of (misses (few 1 2 ((1, reason.Cut) ∷ forgetful 2 ∷ [])))) faults }
    ensures stale { (faults : List Fault) → (fence : ℕ) → ¬ Caused true (life_of (misses (few 1 2 ((1, reason.Stale fence) ∷ forgetful 2 ∷ [])))) faults }
    ensures boot { (faults : List Fault) → ¬ Caused true (life_of (misses (few 1 2 ((1, reason.Boot) ∷ forgetful 2 ∷ [])))) faults }
    ensures notowned { (faults : List Fault) → ¬ Caused true (life_of (misses (few 1 2 ((1, reason.NotOwned) ∷ forgetful 2 ∷ [])))) faults }
{}

/// A replica that is to join refuses a tick since it doesn't own its shard, or for a fence; it may wait for its bootstrap.
pub fn tick_of_joining_node()
    ensures boot { Caused true (life_of (refuses_tick reason.Boot)) [] }
    ensures notowned { (faults : List Fault) → ¬ Caused true (life_of (refuses_tick reason.NotOwned)) faults }
    ensures stale { (faults : List Fault) → (fence : ℕ) → ¬ Caused true (life_of (refuses_tick (reason.Stale fence))) faults }
{}
