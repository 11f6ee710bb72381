//! Laws over the definitions of identifiers.
ghost use Rattle.std.specs.Prelude.{◌≡◌, ℕ, List};
ghost use Rattle.m3_model.specs.Tags.{IsSpelledBy, HasTags};
ghost use Rattle.series_id.specs.declared.id_err.IdErr.{IdErr};
ghost use Rattle.m3_model.specs.Identifiers.{IsIdentifier};
ghost use Rattle.series_id.specs.Faults.{IsFirstFault};

/// What tags spell is an identifier with these tags and no other ones.
pub fn spelled_tags_are_read()
    ensures identifier { (id : List ℕ) (tags : List (List ℕ × List ℕ)) → IsSpelledBy id tags → IsIdentifier id }
    ensures same { (id : List ℕ) (tags others : List (List ℕ × List ℕ)) → IsSpelledBy id tags → HasTags id others → others ≡ tags }
{}

/// A text has at most one list of tags.
pub fn tags_are_one()
    ensures { (id : List ℕ) (tags others : List (List ℕ × List ℕ)) → HasTags id tags → HasTags id others → tags ≡ others }
{}

/// A text has at most one first fault, and an identifier has none.
pub fn fault_is_one()
    ensures one { (text : List ℕ) (e f : IdErr) → IsFirstFault text e → IsFirstFault text f → e ≡ f }
    ensures none { (text : List ℕ) (e : IdErr) → IsFirstFault text e → ¬ IsIdentifier text }
{}
