//! Late messages: each is delivered once at most, and only one that a write made late.
ghost use Rattle.std.specs.Prelude.{ℕ, List, [], ◌∷◌, ◌≡◌, Option, Some, None, Bool, true, false};
ghost use Rattle.m3_model.specs.Calls.{is_call};
ghost use Rattle.m3_model.specs.declared.act.Act.TheVariants as act;
ghost use Rattle.m3_model.specs.declared.answer.Answer.{Answer};
ghost use Rattle.m3_model.specs.declared.placement.Placement.{Placement};
ghost use Rattle.m3_model.specs.declared.reason.Reason.TheVariants as reason;
ghost use Rattle.m3_model.specs.declared.rules.MetaState.{MetaState};
ghost use Rattle.std.specs.Prelude.{pos};
ghost use Rattle.transcripts.specs.Caused.{Caused};
ghost use Rattle.transcripts.specs.Faults.{Fault};
ghost use Rattle.transcripts.specs.Reasons.{MayRefuse};
ghost use Rattle.transcripts.specs.Record.{TurnPosition};
ghost use Rattle.model_laws.specs.Building.{life_of, place, write};
ghost use Rattle.model_laws.specs.Messages.{b_came, then_b_late, delivered, delivered_beside, delivered_again, delivered_of_nobody, delivered_in_two_lines, delivered_to_idle, delivered_to_stopped, after_c_lost, tick_cut, unknown_came};

/// Of two workers that deliver side by side one alone delivers the late message.
pub fn late_message_twice_beside()
    ensures once { Caused true (life_of (then_b_late (delivered_beside b_came []))) [] }
    ensures twice { (faults : List Fault) → ¬ Caused true (life_of (then_b_late (delivered_beside b_came b_came))) faults }
{}

/// One worker that delivers twice delivers the late message once.
pub fn late_message_twice_in_list()
    ensures once { Caused true (life_of (then_b_late (delivered_again b_came []))) [] }
    ensures twice { (faults : List Fault) → ¬ Caused true (life_of (then_b_late (delivered_again b_came b_came))) faults }
{}

/// What one line delivered, a later one doesn't.
pub fn late_message_in_two_lines()
    ensures once { Caused true (life_of (then_b_late (delivered b_came))) [] }
    ensures twice { (faults : List Fault) → ¬ Caused true (life_of delivered_in_two_lines) faults }
{}

/// A message is delivered that nobody's write made late.
pub fn message_of_nobody()
    ensures { (faults : List Fault) → ¬ Caused true (life_of delivered_of_nobody) faults }
{}

/// A message is delivered of a write that was refused for a name, and so wasn't sent.
pub fn message_of_unknown_write()
    ensures { (faults : List Fault) → ¬ Caused true (life_of unknown_came) faults }
{}

/// A stopped node is down for a late message, and doesn't take it.
pub fn stopped_node_took_late()
    ensures down { Caused true (life_of (delivered_to_stopped (Some reason.Down))) [] }
    ensures took { (faults : List Fault) → ¬ Caused true (life_of (delivered_to_stopped None)) faults }
{}

/// A replica that was restarted takes no late message before a bootstrap of it is asked.
pub fn idle_replica_took_late()
    ensures { (faults : List Fault) → ¬ Caused true (life_of delivered_to_idle) faults }
{}

/// Messages are cut of calls alone: a node isn't cut off from a tick, though a fate is listed for the next call.
pub fn cut_of_no_call()
    ensures call { (b : Answer) → MayRefuse true [] None (after_c_lost (write 100 (pos 5)) b) place 0 2 reason.Cut }
    ensures tick { (b : Answer) → (faults : List Fault) → ¬ MayRefuse true faults None (after_c_lost act.Tick b) place 0 2 reason.Cut }
    ensures answered { (faults : List Fault) → ¬ Caused true (life_of tick_cut) faults }
    ensures any { (tells : Bool) → (faults : List Fault) → (start : Option MetaState) → (p : TurnPosition) → (used : Placement) → (shard node : ℕ) → is_call p.turn.act ≡ false → ¬ MayRefuse tells faults start p used shard node reason.Cut }
{}
