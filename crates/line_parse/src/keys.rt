//! Keys of objects.
ghost use Rattle.std.specs.Prelude.{◌≡◌, ◌==◌};
ghost use Rattle.std.specs.Cmp.Lexicographic.{pointwise};

/// Whether it is the key of this name. Where the name is a literal, this becomes the comparison of a length and of a word.
#[inline(always)]
pub fn is_named(name: &str, key: &str) -> bool
    ensures { result ≡ pointwise ◌==◌ name.now key.now }
{
    let (name, key) = (name.as_bytes(), key.as_bytes());
    if key.len() != name.len() {
        return false;
    }
    let mut same = true;
    let mut i = name.len();
    while i > 0 {
        i -= 1;
        same = (name[i] == key[i]) & same;
    }
    same
}
