ghost use Rattle.std.specs.Prelude.{◌≡◌, [], ◌∷◌, ◌++◌, length, IfOk, IfErr, OnOk, OnErr, vec_len};

use crate::duplicate::Duplicate;
use crate::memory::Memory;
use std::alloc::Global;
use std::marker::Model;

/// A list of values, which contracts see as the list.
#[derive(Debug)]
pub struct Seq<T> {
    vec: Vec<T>,
}

impl<T: Drop> Drop for Seq<T> {
    fn drop(self) {
        let Seq { vec: _ } = self;
    }
}

impl<T> Model for Seq<T> {
    ghost use Rattle.std.specs.Prelude.{List};
    ghost use Rattle.std.specs.Coded.{coded_list};

    ghost Value = { List T };

    ghost coded = { coded_list T.code };

    ghost view = { λ s. s.vec.items };
}

impl<T> Seq<T> {
    /// The empty list. Takes no memory, here and in the next two.
    pub fn new(alloc: Global) -> Seq<T>
        ensures { result ≡ [] }
    {
        Seq {
            vec: Vec::new(alloc),
        }
    }

    pub fn from_vec(vec: Vec<T>) -> Seq<T>
        ensures { result ≡ vec.items }
    {
        Seq { vec }
    }

    pub fn into_vec(self) -> Vec<T>
        ensures { result.items ≡ self }
    {
        let Seq { vec } = self;
        vec
    }

    pub fn as_slice(&self) -> &[T]
        ensures { result.now ≡ self.now }
    {
        self.vec.as_slice()
    }

    pub fn len(&self) -> usize
        ensures { result ≡ length self.now }
    {
        self.vec.len()
    }

    /// Want of memory hands the value back.
    pub fn push(&mut self, value: T) -> Result<(), T>
        ensures ok { OnOk result (self.new ≡ self.old ++ value ∷ []) }
        ensures err { IfErr result (λ back. back ≡ value) }
        ensures unchanged { OnErr result (self.new ≡ self.old) }
    {
        match self.vec.push(value) {
            Ok(()) => Ok(()),
            Err(refused) => Err(refused.value),
        }
    }
}

fn copy_items<T: Duplicate + Drop>(alloc: Global, items: &[T]) -> Result<Vec<T>, Memory>
    ensures { IfOk result (λ v. v.items ≡ items.now) }
{
    let mut copies = Vec::new(alloc);
    for x in items {
        copies.push(x.copy(alloc)?)?;
    }
    Ok(copies)
}

impl<T: Duplicate + Drop> Duplicate for Seq<T> {
    fn copy(&self, alloc: Global) -> Result<Seq<T>, Memory> {
        Ok(Seq {
            vec: copy_items(alloc, self.vec.as_slice())?,
        })
    }
}
