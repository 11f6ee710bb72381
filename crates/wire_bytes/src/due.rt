ghost use Rattle.std.specs.Prelude.{◌≡◌, ℕ, ◌≤◌, ◌↔◌, List, ◌∷◌, length, MatchOption, IfSome, IfNone, IsUtf8};
ghost use Rattle.wire_bytes.specs.Texts.{MayFollow, IsFair, needed};

/// What may stand next within a text.
#[derive(Clone, Copy)]
pub(crate) enum Due {
    /// A character, or the text's end.
    Start,
    /// A byte from `low` to `high`, and then `more` bytes that end the character.
    Later { low: u8, high: u8, more: u8 },
}

// The bytes that continue a character.
const LEAST: u8 = 0x80;

const MOST: u8 = 0xBF;

// What may stand behind the first byte of a character.
fn after_first(byte: u8) -> Option<Due>
    ensures steps { MatchOption result ((l : List ℕ) → ¬ IsUtf8 (byte ∷ l)) (λ next. (l : List ℕ) → MayFollow next l ↔ IsUtf8 (byte ∷ l)) }
    ensures fair { IfSome result IsFair }
{
    let (low, high, more) = match byte {
        0x00..=0x7F => return Some(Due::Start),
        0xC2..=0xDF => (LEAST, MOST, 0),
        0xE0 => (0xA0, MOST, 1),
        0xED => (LEAST, 0x9F, 1),
        0xE1..=0xEF => (LEAST, MOST, 1),
        0xF0 => (0x90, MOST, 2),
        0xF4 => (LEAST, 0x8F, 2),
        0xF1..=0xF3 => (LEAST, MOST, 2),
        _ => return None,
    };
    Some(Due::Later { low, high, more })
}

impl Due {
    // What may stand behind this byte, and nothing where the byte may not stand here.
    fn after(self, byte: u8) -> Option<Due>
        ensures steps { MatchOption result ((l : List ℕ) → ¬ MayFollow self (byte ∷ l)) (λ next. (l : List ℕ) → MayFollow next l ↔ MayFollow self (byte ∷ l)) }
        ensures fair { IfSome result IsFair }
    {
        let Due::Later { low, high, more } = self else {
            return after_first(byte);
        };
        if byte < low || high < byte {
            return None;
        }
        if more == 0 {
            return Some(Due::Start);
        }
        Some(Due::Later {
            low: LEAST,
            high: MOST,
            more: more - 1,
        })
    }

    /// What may stand behind this byte in the `left` bytes to the text's end, and nothing where the byte may not stand
    /// here.
    pub(crate) fn before_end(self, byte: u8, left: usize) -> Option<Due>
        ensures none { IfNone result ((l : List ℕ) → length l ≡ left → ¬ MayFollow self (byte ∷ l)) }
        ensures some { IfSome result (λ next. (l : List ℕ) → MayFollow next l ↔ MayFollow self (byte ∷ l)) }
        ensures fair { IfSome result IsFair }
        ensures short { IfSome result (λ next. needed next ≤ left) }
    {
        let next = self.after(byte)?;
        if next.needed() > left {
            return None;
        }
        Some(next)
    }

    // How many bytes end the character.
    fn needed(self) -> usize
        ensures { result ≡ needed self }
    {
        match self {
            Due::Start => 0,
            Due::Later { more, .. } => usize::from(more) + 1,
        }
    }
}
