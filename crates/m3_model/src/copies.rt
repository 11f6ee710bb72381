//! Copies of the parts of a large value, one after another. `enough` says whether memory was there for all of them so far.
//! After a want of memory a copy may be empty, and the value that is made of the parts is dropped.
ghost use Rattle.std.specs.Prelude.{◌≡◌, IfOk, IsTrue};

use crate::duplicate::Duplicate;
use crate::memory::Memory;
use crate::seq::Seq;
use crate::text::Text;
use std::alloc::Global;

pub(crate) fn copied_text(alloc: Global, enough: &mut bool, text: &Text) -> Text
    ensures { IsTrue enough.new → (IsTrue enough.old × (result ≡ text.now)) }
{
    match text.copy(alloc) {
        Ok(copy) => copy,
        Err(_) => {
            *enough = false;
            Text::from_string(String::new(alloc))
        }
    }
}

pub(crate) fn copied_list<T: Duplicate + Drop>(
    alloc: Global,
    enough: &mut bool,
    list: &Seq<T>,
) -> Seq<T>
    ensures { IsTrue enough.new → (IsTrue enough.old × (result ≡ list.now)) }
{
    match list.copy(alloc) {
        Ok(copy) => copy,
        Err(_) => {
            *enough = false;
            Seq::new(alloc)
        }
    }
}

/// The copy that was made of a value, if memory was there for all of its parts.
pub(crate) fn finished<T: Drop>(enough: bool, copy: T, value: &T) -> Result<T, Memory>
    requires { IsTrue enough → copy ≡ value.now }
    ensures { IfOk result (λ copy. copy ≡ value.now) }
{
    if enough { Ok(copy) } else { Err(Memory) }
}
