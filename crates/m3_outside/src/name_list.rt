use crate::file_name::FileName;
use std::marker::Model;

/// Names of files, which contracts see as the list of them.
#[derive(Drop)]
pub struct NameList {
    names: Vec<FileName>,
}

impl Model for NameList {
    ghost use Rattle.std.specs.Prelude.{List};
    ghost use Rattle.m3_outside.specs.declared.file_name.FileName.{FileName as Name};

    ghost Value = { List Name };

    ghost view = { λ l. l.names.items };
}

impl NameList {
    ghost use Rattle.std.specs.Prelude.{◌≡◌};

    /// The list of these names, in their order. Takes no memory, here and below.
    pub fn from_vec(names: Vec<FileName>) -> NameList
        ensures { result ≡ names.items }
    {
        NameList { names }
    }

    /// The names as a vector.
    pub fn into_vec(self) -> Vec<FileName>
        ensures { result.items ≡ self }
    {
        let NameList { names } = self;
        names
    }

    /// The names in their order.
    pub fn as_slice(&self) -> &[FileName]
        ensures { result.now ≡ self.now }
    {
        self.names.as_slice()
    }
}
