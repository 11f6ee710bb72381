//! Transcripts that are kept, or whose answers have their causes.
ghost use Rattle.std.specs.Prelude.{ℕ, ℤ, List, [], ◌∷◌, pos, codes, true};
ghost use Rattle.transcripts.specs.Kept.{Kept};
ghost use Rattle.transcripts.specs.Caused.{Caused};
ghost use Rattle.m3_model.specs.declared.act.Act.{Act};
ghost use Rattle.m3_model.specs.declared.act.Act.TheVariants as act;
ghost use Rattle.m3_model.specs.declared.answer.Answer.TheVariants as answer;
ghost use Rattle.m3_model.specs.declared.reason.Reason.TheVariants as reason;
ghost use Rattle.model_laws.specs.Building.{life_of, at_moment, with_eight, with_two_shards, namespace_of, write_in, write, fetch, fetch_in, acks, unmet};
ghost use Rattle.model_laws.specs.Accepted.{write_then_read, three_values, two_ranges, until_expiry, after_cut, write_beside, edge_writes, narrow_writes, unmet_then_read};

/// A fetch returns the write that was acknowledged before it, and each answer has its cause.
pub fn fetch_returns_write()
    ensures kept { Kept (life_of write_then_read) }
    ensures caused { Caused true (life_of write_then_read) [] }
{}

/// Of several values at one time the highest is read, also where a lower one was written last.
pub fn higher_value_stays()
    ensures { Kept (life_of three_values) }
{}

/// A range has its lower end and not its upper one, and a range that ends before it begins has nothing.
pub fn range_ends_before()
    ensures { Kept (life_of two_ranges) }
{}

/// A point is read up to the last moment of its retention, and is gone at the next one.
pub fn kept_to_expiry()
    ensures { Kept (life_of until_expiry) }
{}

/// A write that a run took and never answered may be read by the next run, or not.
pub fn unanswered_write_may_be_read()
    ensures found { Kept (after_cut ((100, pos 5) ∷ [])) }
    ensures not_found { Kept (after_cut []) }
{}

/// A read beside a write may find its point, or not.
pub fn write_beside_a_read()
    ensures found { Kept (life_of (write_beside ((100, pos 5) ∷ []))) }
    ensures not_found { Kept (life_of (write_beside [])) }
{}

/// A write is taken from one unit above the moment less past, up to one unit below the moment and future. Each node
/// refuses one that lies further out, with its own reason, and a read finds the two that were taken.
pub fn window_edges()
    ensures kept { Kept (life_of edge_writes) }
    ensures caused { Caused true (life_of edge_writes) [] }
{}

/// A write is judged by the window of its own namespace.
pub fn window_of_its_namespace()
    ensures { Caused true (life_of narrow_writes) [] }
{}

/// A write that too few nodes took, for want of memory at the others, may be read, or not.
pub fn unmet_write_may_be_read()
    ensures found { Kept (life_of (unmet_then_read ((100, pos 5) ∷ []))) }
    ensures not_found { Kept (life_of (unmet_then_read [])) }
    ensures caused { (points : List (ℕ × ℤ)) → Caused true (life_of (unmet_then_read points)) [] }
{}

/// A fetch that one node of the two that are needed answered names the two others, which want memory.
pub fn fetch_unmet()
    ensures { Caused true (life_of (at_moment 100 (fetch 0 200) (unmet 1 ((0, reason.Memory) ∷ (2, reason.Memory) ∷ [])))) [] }
{}

/// Of two shards `hello` belongs to shard 1, which node 1 has: that node takes a write of it, or is why it is refused.
pub fn shard_of_its_identifier()
    ensures taken { Caused true (life_of (with_two_shards (write 10 (pos 5)) (acks (1 ∷ [])))) [] }
    ensures refused { Caused true (life_of (with_two_shards (write 10 (pos 5)) (answer.Consistency 0 1 ((1, reason.Memory) ∷ []) 1))) [] }
{}

/// The moment may stay where it is, and a lower one is refused with the present one.
pub fn moment_never_falls()
    ensures equal { Caused true (life_of (at_moment 100 (act.Now 100) answer.Done)) [] }
    ensures lower { Caused true (life_of (at_moment 100 (act.Now 99) (answer.Clock 100))) [] }
{}

/// A write or a fetch of a namespace that isn't there is refused with its name.
pub fn namespace_not_there()
    ensures write { Caused true (life_of (at_moment 100 (write_in (codes "n") 100 (pos 5)) (answer.Unknown (codes "n")))) [] }
    ensures fetch { Caused true (life_of (at_moment 100 (fetch_in (codes "n") 0 200) (answer.Unknown (codes "n")))) [] }
{}

/// There are at most eight namespaces; a name that is there is refused before the limit is looked at.
pub fn eight_namespaces()
    ensures ninth { Caused true (life_of (with_eight (namespace_of (codes "m9")) (answer.Limit 8))) [] }
    ensures again { Caused true (life_of (with_eight (namespace_of (codes "m8")) answer.Order)) [] }
{}

/// Want of memory may be answered to any request, at any moment.
pub fn memory_at_any_position()
    ensures { (now : ℕ) → (a : Act) → Caused true (life_of (at_moment now a answer.Memory)) [] }
{}
