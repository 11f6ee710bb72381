//! Names of books.
use std::marker::Brand;

/// Which book it is, and whether the disks of its run tell what they hold. A book and seats of one name belong together.
pub trait BookName {
    ghost use Rattle.std.specs.Prelude.{Bool};
    ghost use Rattle.atomic_table.specs.Seated.{TableId};

    ghost table: { TableId };

    ghost tells: { Bool };
}

impl BookName for Brand {
    ghost use Rattle.std.specs.Prelude.{false, []};

    ghost table = { record { words = 0; slots = 0; views_name = 0; atom = 0; block = 0; offset = 0; slot_names = [] } };

    ghost tells = { false };
}
