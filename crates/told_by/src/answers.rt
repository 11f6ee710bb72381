//! What replicas may answer is no more than contents answer.
ghost use Rattle.told_by.specs.Shown.{FoundIsShown, PageIsShown};

/// An answer that a replica may give to a read, and a page that it may give, is that of some content which shows the
/// replica.
pub fn answers_are_shown()
    ensures found { FoundIsShown }
    ensures page { PageIsShown }
{}
