//! Transcripts with an answer that has no cause.
ghost use Rattle.std.specs.Prelude.{ℕ, List, false, [], ◌∷◌, pos, codes, true};
ghost use Rattle.transcripts.specs.Caused.{Caused};
ghost use Rattle.m3_model.specs.declared.act.Act.TheVariants as act;
ghost use Rattle.m3_model.specs.declared.answer.Answer.TheVariants as answer;
ghost use Rattle.m3_model.specs.declared.reason.Reason.TheVariants as reason;
ghost use Rattle.model_laws.specs.Building.{life_of, at_moment, with_eight, with_two_shards, namespace_of, write_in, write, fetch, acks, unmet, by_each, place};
ghost use Rattle.model_laws.specs.Uncaused.{write_answered, write_first, made_twice, fetch_short, made_of_two, restart_refused};

/// A write is refused for its position among the lines, though a cluster and its namespace are there.
pub fn order_without_cause()
    ensures { ¬ Caused true (life_of (write_answered answer.Order)) [] }
{}

/// A write is answered as another act.
pub fn done_for_a_write()
    ensures { ¬ Caused true (life_of (write_answered answer.Done)) [] }
{}

/// A write is taken before there is a cluster.
pub fn ok_before_init()
    ensures { ¬ Caused true (life_of write_first) [] }
{}

/// One node of three took a write at level majority.
pub fn acks_too_few()
    ensures { ¬ Caused true (life_of (write_answered (acks (0 ∷ [])))) [] }
{}

/// One node is counted twice.
pub fn acks_repeated()
    ensures { ¬ Caused true (life_of (write_answered (acks (0 ∷ 0 ∷ [])))) [] }
{}

/// The nodes aren't in the order of their names.
pub fn acks_not_by_name()
    ensures { ¬ Caused true (life_of (write_answered (acks (1 ∷ 0 ∷ 2 ∷ [])))) [] }
{}

/// A node is counted that the placement doesn't have.
pub fn acks_of_no_node()
    ensures { ¬ Caused true (life_of (write_answered (acks (0 ∷ 1 ∷ 7 ∷ [])))) [] }
{}

/// A write is taken that lies on the edge of the window, and so outside.
pub fn taken_outside_window()
    ensures past { ¬ Caused true (life_of (at_moment 250 (write 150 (pos 5)) (acks (0 ∷ 1 ∷ 2 ∷ [])))) [] }
    ensures future { ¬ Caused true (life_of (at_moment 250 (write 300 (pos 5)) (acks (0 ∷ 1 ∷ 2 ∷ [])))) [] }
{}

/// One node takes a write that lies outside the window, beside two that refuse it.
pub fn one_took_outside_window()
    ensures { ¬ Caused true (life_of (at_moment 250 (write 150 (pos 5)) (unmet 1 ((1, reason.Past) ∷ (2, reason.Past) ∷ [])))) [] }
{}

/// A write is refused for its time that lies one unit inside the window.
pub fn refused_inside_window()
    ensures past { ¬ Caused true (life_of (at_moment 250 (write 151 (pos 5)) (unmet 0 (by_each reason.Past)))) [] }
    ensures future { ¬ Caused true (life_of (at_moment 250 (write 299 (pos 5)) (unmet 0 (by_each reason.Future)))) [] }
{}

/// A write below the window is refused as one above it, or the other way round.
pub fn other_side_of_window()
    ensures below { ¬ Caused true (life_of (at_moment 250 (write 150 (pos 5)) (unmet 0 (by_each reason.Future)))) [] }
    ensures above { ¬ Caused true (life_of (at_moment 250 (write 300 (pos 5)) (unmet 0 (by_each reason.Past)))) [] }
{}

/// A fetch is refused for a time, as if it were a write.
pub fn fetch_in_the_past()
    ensures { ¬ Caused true (life_of (at_moment 250 (fetch 0 200) (unmet 0 (by_each reason.Past)))) [] }
{}

/// The messages to all nodes were lost, though nothing lost them.
pub fn cut_without_cause()
    ensures { ¬ Caused true (life_of (write_answered (unmet 0 (by_each reason.Cut)))) [] }
{}

/// Each disk failed, though no fault happened.
pub fn disk_without_fault()
    ensures { ¬ Caused true (life_of (write_answered (unmet 0 (by_each reason.Disk)))) [] }
{}

/// Each node waits for a bootstrap, though none was restarted.
pub fn boot_without_restart()
    ensures { ¬ Caused true (life_of (write_answered (unmet 0 (by_each reason.Boot)))) [] }
{}

/// One node has two reasons, and another none.
pub fn reason_repeated()
    ensures { ¬ Caused true (life_of (write_answered (unmet 0 ((0, reason.Memory) ∷ (0, reason.Memory) ∷ (1, reason.Memory) ∷ [])))) [] }
{}

/// A node that didn't take the write has no reason.
pub fn reason_left_out()
    ensures { ¬ Caused true (life_of (write_answered (unmet 0 ((0, reason.Memory) ∷ (1, reason.Memory) ∷ [])))) [] }
{}

/// A node has a reason that the placement doesn't have.
pub fn reason_of_no_node()
    ensures { ¬ Caused true (life_of (write_answered (unmet 0 ((0, reason.Memory) ∷ (1, reason.Memory) ∷ (7, reason.Memory) ∷ [])))) [] }
{}

/// As many nodes as are needed took a write, and yet it is refused.
pub fn enough_took_it()
    ensures { ¬ Caused true (life_of (write_answered (unmet 2 ((2, reason.Memory) ∷ [])))) [] }
{}

/// All three nodes are said to be needed for a write at level majority.
pub fn more_than_needed()
    ensures { ¬ Caused true (life_of (write_answered (answer.Consistency 2 3 ((2, reason.Memory) ∷ []) 0))) [] }
{}

/// Of two shards `hello` belongs to shard 1, which node 1 has; and yet node 0 takes a write of it, or has the reason for
/// which it is refused, in the name of its own shard or of shard 1.
pub fn node_of_other_shard()
    ensures taken { ¬ Caused true (life_of (with_two_shards (write 10 (pos 5)) (acks (0 ∷ [])))) [] }
    ensures own_shard { ¬ Caused true (life_of (with_two_shards (write 10 (pos 5)) (answer.Consistency 0 1 ((0, reason.Memory) ∷ []) 0))) [] }
    ensures shard_1 { ¬ Caused true (life_of (with_two_shards (write 10 (pos 5)) (answer.Consistency 0 1 ((0, reason.Memory) ∷ []) 1))) [] }
{}

/// A moment that isn't below the present one is refused, or a lower one with another moment than the present one.
pub fn clock_without_cause()
    ensures equal { ¬ Caused true (life_of (at_moment 100 (act.Now 100) (answer.Clock 100))) [] }
    ensures other { ¬ Caused true (life_of (at_moment 100 (act.Now 99) (answer.Clock 99))) [] }
{}

/// A lower moment is taken.
pub fn lower_moment_done()
    ensures { ¬ Caused true (life_of (at_moment 100 (act.Now 99) answer.Done)) [] }
{}

/// A namespace that is there is unknown, or one that isn't there under another name.
pub fn unknown_without_cause()
    ensures there { ¬ Caused true (life_of (write_answered (answer.Unknown (codes "m")))) [] }
    ensures other { ¬ Caused true (life_of (at_moment 100 (write_in (codes "n") 100 (pos 5)) (answer.Unknown (codes "m")))) [] }
{}

/// A write into a namespace that isn't there is put off.
pub fn later_for_unknown_namespace()
    ensures { ¬ Caused true (life_of (at_moment 100 (write_in (codes "n") 100 (pos 5)) answer.Later)) [] }
{}

/// A ninth namespace is made.
pub fn ninth_namespace_done()
    ensures { ¬ Caused true (life_of (with_eight (namespace_of (codes "m9")) answer.Done)) [] }
{}

/// A second namespace is refused for the limit.
pub fn limit_without_cause()
    ensures { ¬ Caused true (life_of (at_moment 100 (namespace_of (codes "n")) (answer.Limit 8))) [] }
{}

/// A second namespace is made of a name that is there.
pub fn same_namespace_done()
    ensures { ¬ Caused true (life_of (at_moment 100 (namespace_of (codes "m")) answer.Done)) [] }
{}

/// A second cluster is made.
pub fn second_init_done()
    ensures { ¬ Caused true (life_of made_twice) [] }
{}

/// A read at level majority is short of a majority.
pub fn short_majority()
    ensures { ¬ Caused true (life_of fetch_short) [] }
{}

/// A shard has fewer nodes than replicas were asked for.
pub fn placement_short_of_nodes()
    ensures { ¬ Caused true (life_of made_of_two) [] }
{}

/// The list of events is full after four requests.
pub fn full_in_short_run()
    ensures { ¬ Caused true (life_of (write_answered answer.Full)) [] }
{}

/// A write is answered as a read, a delivery, an `init` or a step of a placement is, or is put off.
pub fn answer_of_another_act()
    ensures found { ¬ Caused true (life_of (write_answered (answer.Found [] false))) [] }
    ensures outcomes { ¬ Caused true (life_of (write_answered (answer.Outcomes []))) [] }
    ensures placed { ¬ Caused true (life_of (write_answered (answer.Placed place 1))) [] }
    ensures available { ¬ Caused true (life_of (write_answered (answer.Available [] place 1))) [] }
    ensures busy { (node : List ℕ) → (shard : ℕ) → ¬ Caused true (life_of (write_answered (answer.Busy node shard))) [] }
    ensures later { ¬ Caused true (life_of (write_answered answer.Later)) [] }
{}

/// A node that runs is refused to be stopped, or one that is stopped to be restarted.
pub fn state_without_cause()
    ensures stop { ¬ Caused true (life_of (at_moment 100 (act.Stop (codes "c")) (answer.State (codes "c")))) [] }
    ensures restart { ¬ Caused true (life_of restart_refused) [] }
{}
