//! Identifiers with tags and without.
ghost use Rattle.std.specs.Prelude.{[], ◌∷◌, codes};
ghost use Rattle.m3_model.specs.Tags.{IsSpelledBy, HasTags};

/// Two tags and the identifier that they spell.
pub fn two_tags()
    ensures { IsSpelledBy (codes "{dc=\"x\",host=\"h1\"}")
        ((codes "dc", codes "x") ∷ (codes "host", codes "h1") ∷ []) }
{}

/// A plain identifier has no tags.
pub fn no_tags()
    ensures { HasTags (codes "up") [] }
{}
