ghost use Rattle.std.specs.Prelude.{◌≡◌, ◌⊎◌};

/// Of two values of the program it is decided whether they are equal.
pub fn tell_apart<E>()
    ensures { (x y : E) → (x ≡ y) ⊎ (x ≡ y → ⊥) }
{}
