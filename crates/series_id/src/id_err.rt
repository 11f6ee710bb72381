ghost use Rattle.std.specs.Prelude.{◌≡◌};
ghost use Rattle.series_id.specs.declared.id_err.IdErr.TheVariants as errors;

use m3_model::memory;
use std::alloc::{AllocError, AllocFailed};
use thiserror::Error;

/// Why a text or a list of tags is no identifier. `Empty` and a `Long` text come before all other faults, of which the
/// first one from the left is told.
///
/// See M3DB's page "Series ID and tags".
#[derive(Clone, Copy, Debug, PartialEq, Eq, Error)]
pub enum IdErr {
    /// The text is empty.
    #[error("an identifier is not empty")]
    Empty,
    /// The text has more than 512 bytes, or a tag follows the 32nd one.
    #[error("an identifier has at most 512 bytes and 32 tags")]
    Long,
    /// A tag's name has to begin at `at`, and none does; or the byte at `at` is one of a given name that no name has.
    #[error("no name of a tag stands at byte {at}")]
    Name { at: usize },
    /// A name is below the one before it.
    #[error("the names of tags must ascend")]
    Order,
    /// A name is the one before it.
    #[error("a name of a tag stands twice")]
    Repeat,
    /// The `\` at `at` stands before neither `"` nor `\`.
    #[error("no escape sequence stands at byte {at}")]
    Escape { at: usize },
    /// `=`, a quote, `,` or `}` is missing, or something follows the `}`.
    #[error("the tags are not closed, or something follows them")]
    Brace,
    /// Want of memory.
    #[error("out of memory")]
    Memory,
}

impl From<memory::Memory> for IdErr {
    ghost from_gives = { λ _ e. e ≡ errors.Memory };

    fn from(_: memory::Memory) -> IdErr {
        IdErr::Memory
    }
}

impl From<AllocError> for IdErr {
    ghost from_gives = { λ _ e. e ≡ errors.Memory };

    fn from(_: AllocError) -> IdErr {
        IdErr::Memory
    }
}

impl<T: Drop> From<AllocFailed<T>> for IdErr {
    ghost from_gives = { λ _ e. e ≡ errors.Memory };

    fn from(_: AllocFailed<T>) -> IdErr {
        IdErr::Memory
    }
}
