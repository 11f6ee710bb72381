//! What a book may hold.

/// A type of entries, and which lists of them, each entry with its maker's name, are lawful: by whether the disks of the book's run
/// tell what they hold. The empty list is.
pub trait Entries {
    ghost use Rattle.std.specs.Prelude.{Bool, List, []};
    ghost use Rattle.event_book.specs.declared.view.Made.{Made};

    ghost lawful: { Bool → List (Made Self) → Type 0 };

    ghost starts: { (tells : Bool) → lawful tells [] };
}
