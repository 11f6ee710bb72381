ghost use Rattle.std.specs.Prelude.{◌≡◌};
ghost use Rattle.line_fields.specs.declared.fault.LineErr.TheVariants.{Memory};

use m3_model::memory;
use std::alloc::{AllocError, AllocFailed};
use thiserror::Error;

/// Why a line is no request that is served.
#[derive(Clone, Copy, Debug, PartialEq, Eq, Error)]
pub enum LineErr {
    /// The line isn't in the grammar.
    #[error("the line is no request")]
    Form,
    /// The line is in the grammar, and no part of the program serves it yet.
    #[error("the request is not served yet")]
    Later,
    /// Want of memory.
    #[error("out of memory")]
    Memory,
}

impl From<AllocError> for LineErr {
    ghost from_gives = { λ _ e. e ≡ Memory };

    fn from(_: AllocError) -> LineErr {
        LineErr::Memory
    }
}

impl From<memory::Memory> for LineErr {
    ghost from_gives = { λ _ e. e ≡ Memory };

    fn from(_: memory::Memory) -> LineErr {
        LineErr::Memory
    }
}

impl<T: Drop> From<AllocFailed<T>> for LineErr {
    ghost from_gives = { λ _ e. e ≡ Memory };

    fn from(_: AllocFailed<T>) -> LineErr {
        LineErr::Memory
    }
}
