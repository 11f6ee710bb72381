//! Whether lists are in their order.
ghost use Rattle.std.specs.Prelude.{◌↔◌, IsTrue};
ghost use Rattle.std.specs.List.{All};
ghost use Rattle.m3_model.specs.Ascends.{Ascends};

/// An order in which the elements of a list may have to stand.
pub trait Order<T> {
    ghost before: { T → T → Type 0 };

    /// Whether the first may stand before the later one.
    fn is_before(first: &T, later: &T) -> bool
        ensures { IsTrue result ↔ before first.now later.now };
}

fn is_first<T, O: Order<T>>(first: &T, later: &[T]) -> bool
    ensures { IsTrue result ↔ All (O.before first.now) later.now }
{
    later.iter().all(|item| O::is_before(first, item))
}

/// Whether each element stands before all later ones. Takes time in the square of their number, and no memory.
pub fn ascend<T, O: Order<T>>(items: &[T]) -> bool
    ensures { IsTrue result ↔ Ascends O.before items.now }
{
    for (position, first) in items.iter().enumerate() {
        if !is_first::<T, O>(first, &items[position + 1..]) {
            return false;
        }
    }
    true
}
