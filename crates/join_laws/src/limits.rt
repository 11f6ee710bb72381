//! Bootstraps for which no version may be left.
ghost use Rattle.std.specs.Prelude.{◌≡◌, ◌≢◌, ◌∷◌, [], ◌⊎◌, ◌<◌, ℕ, List, None, true, codes};
ghost use Rattle.m3_model.specs.declared.answer.Answer.TheVariants as answer;
ghost use Rattle.m3_model.specs.declared.turn.Turn.{Turn};
ghost use Rattle.transcripts.specs.Faults.{Fault};
ghost use Rattle.transcripts.specs.Fates.{is_stopped};
ghost use Rattle.transcripts.specs.Record.{inner_turns};
ghost use Rattle.transcripts.specs.Waiting.{idles_after};
ghost use Rattle.join_laws.specs.Limits.{MayBootLate, Serve, StandsLate, late, of_shard};

/// With 1,024 versions a bootstrap may be refused for the limit where two of the three former replicas run and don't lie idle.
pub fn limit_at_last_version()
    ensures { (lines : List Turn) → StandsLate 1024 lines → Serve lines ((1, codes "b") ∷ (2, codes "c") ∷ []) → MayBootLate lines [] (answer.Limit 1024) }
{}

/// It names another limit, or one version less is kept.
pub fn limit_without_cause()
    ensures other { (lines : List Turn) → StandsLate 1024 lines → (limit : ℕ) → limit ≢ 1024 → (faults : List Fault) → ¬ MayBootLate lines faults (answer.Limit limit) }
    ensures early { (lines : List Turn) → StandsLate 1023 lines → (faults : List Fault) → ¬ MayBootLate lines faults (answer.Limit 1024) }
{}

/// Too few former replicas run for the move to have ended.
pub fn limit_of_stopped_peers()
    ensures { (lines : List Turn) → StandsLate 1024 lines → is_stopped (inner_turns lines) (codes "a") ≡ true → is_stopped (inner_turns lines) (codes "b") ≡ true → (faults : List Fault) → ¬ MayBootLate lines faults (answer.Limit 1024) }
{}

/// Or too few of them were begun.
pub fn limit_of_idle_peers()
    ensures { (lines : List Turn) → StandsLate 1024 lines → idles_after (of_shard 0 (codes "a")) None (inner_turns lines) ≡ true → idles_after (of_shard 1 (codes "b")) None (inner_turns lines) ≡ true → (faults : List Fault) → ¬ MayBootLate lines faults (answer.Limit 1024) }
{}

/// A move ends though no version is left.
pub fn joined_without_version()
    ensures { (lines : List Turn) → StandsLate 1024 lines → (peers : List ℕ) → (faults : List Fault) → ¬ MayBootLate lines faults (answer.Available ((0, peers) ∷ []) (late 1025) 1025) }
{}
