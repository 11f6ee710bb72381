//! Laws of indexes.
ghost use Rattle.tag_index.specs.Laws.{PostingsAgree};

/// Where two indexes have the same series, whatever was added and removed before, the posting of each tag names the same
/// identifiers in both.
pub fn postings_agree()
    ensures { PostingsAgree }
{}
