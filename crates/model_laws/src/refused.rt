//! Transcripts that are not kept.
ghost use Rattle.std.specs.Prelude.{[], ◌∷◌, codes, pos, true};
ghost use Rattle.transcripts.specs.Caused.{Caused};
ghost use Rattle.transcripts.specs.Kept.{Kept};
ghost use Rattle.m3_model.specs.declared.answer.Answer.TheVariants as answer;
ghost use Rattle.model_laws.specs.Building.{life_of};
ghost use Rattle.model_laws.specs.Refused.{without_the_point, with_lower_value, with_other_point, with_higher_value, with_later_first, with_point_twice, with_empty_series, without_kept_point, with_expired_point, with_point_at_end, with_other_series, without_untagged, with_other_tags, with_unknown_namespace, with_point_answered, own_write, own_later_write};

/// An acknowledged point is missing.
pub fn dropped_point()
    ensures { ¬ Kept (life_of without_the_point) }
{}

/// A value is below one that was acknowledged at its time.
pub fn lowered_value()
    ensures { ¬ Kept (life_of with_lower_value) }
{}

/// A point has a time at which nobody wrote.
pub fn unwritten_point()
    ensures { ¬ Kept (life_of with_other_point) }
{}

/// A value is above all that were written.
pub fn unwritten_value()
    ensures { ¬ Kept (life_of with_higher_value) }
{}

/// The times of a series descend.
pub fn times_out_of_order()
    ensures { ¬ Kept (life_of with_later_first) }
{}

/// A series has one time twice.
pub fn repeated_point()
    ensures { ¬ Kept (life_of with_point_twice) }
{}

/// A series has no points.
pub fn empty_series()
    ensures { ¬ Kept (life_of with_empty_series) }
{}

/// An acknowledged point is missing at the last moment of its retention.
pub fn left_out_before_expiry()
    ensures { ¬ Kept (life_of without_kept_point) }
{}

/// A point is read after its retention ended.
pub fn read_after_expiry()
    ensures { ¬ Kept (life_of with_expired_point) }
{}

/// A point is read at the end of the range.
pub fn read_at_range_end()
    ensures { ¬ Kept (life_of with_point_at_end) }
{}

/// A series has another identifier than the one that was asked for.
pub fn other_series()
    ensures { ¬ Kept (life_of with_other_series) }
{}

/// A series without tags is missing, though it meets a matcher of `!=`.
pub fn untagged_left_out()
    ensures { ¬ Kept (life_of without_untagged) }
{}

/// A series is in a match whose tag it hasn't.
pub fn other_tags_matched()
    ensures { ¬ Kept (life_of with_other_tags) }
{}

/// A read of a namespace that isn't there is answered.
pub fn unknown_namespace_read()
    ensures { ¬ Kept (life_of with_unknown_namespace) }
{}

/// A point is read whose only write was put off, or was refused for its position among the lines or for a name.
pub fn later_write_read()
    ensures later { ¬ Caused true (life_of (with_point_answered answer.Later)) [] }
    ensures order { ¬ Kept (life_of (with_point_answered answer.Order)) }
    ensures unknown { ¬ Kept (life_of (with_point_answered (answer.Unknown (codes "m")))) }
{}

/// A client's fetch misses what it wrote before, or finds what it writes later.
pub fn own_write_missed()
    ensures found { Kept (life_of (own_write ((100, pos 5) ∷ []))) }
    ensures missed { ¬ Kept (life_of (own_write [])) }
    ensures nothing { Kept (life_of (own_later_write [])) }
    ensures later { ¬ Kept (life_of (own_later_write ((100, pos 5) ∷ []))) }
{}
