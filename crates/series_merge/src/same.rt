//! Whether two lists of series are equal.
ghost use Rattle.std.specs.Prelude.{◌≡◌, ◌↔◌, IsTrue};

use m3_model::{Seq, Series, Text};

/// A type whose values can be compared.
pub(crate) trait Same {
    fn is_same(&self, other: &Self) -> bool
        ensures { IsTrue result ↔ (self.now ≡ other.now) };
}

impl Same for u64 {
    fn is_same(&self, other: &u64) -> bool {
        *self == *other
    }
}

impl Same for i64 {
    fn is_same(&self, other: &i64) -> bool {
        *self == *other
    }
}

impl Same for Text {
    fn is_same(&self, other: &Text) -> bool {
        self.equals(other.as_str())
    }
}

impl<A: Same, B: Same> Same for (A, B) {
    fn is_same(&self, other: &(A, B)) -> bool {
        self.0.is_same(&other.0) && self.1.is_same(&other.1)
    }
}

/// Whether the two lists are equal.
pub(crate) fn are_same<T: Same>(one: &[T], other: &[T]) -> bool
    ensures { IsTrue result ↔ (one.now ≡ other.now) }
{
    let mut rest = other;
    for item in one {
        match rest {
            [second, later @ ..] if item.is_same(second) => rest = later,
            _ => return false,
        }
    }
    rest.is_empty()
}

impl<T: Same> Same for Seq<T> {
    fn is_same(&self, other: &Seq<T>) -> bool {
        are_same(self.as_slice(), other.as_slice())
    }
}

impl Same for Series {
    fn is_same(&self, other: &Series) -> bool {
        self.id.is_same(&other.id) && self.points.is_same(&other.points)
    }
}
