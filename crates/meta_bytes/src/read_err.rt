use m3_model::Memory;
use std::alloc::AllocFailed;
use wire_bytes::WireErr;

/// Why a value isn't read from bytes.
#[derive(Clone, Copy, Debug, PartialEq, Eq)]
pub enum ReadErr {
    /// Want of memory.
    Memory,
    /// No value stands there.
    Wire { why: WireErr },
}

impl From<Memory> for ReadErr {
    ghost use Rattle.std.specs.Prelude.{◌≡◌};
    ghost use Rattle.meta_bytes.specs.declared.read_err.ReadErr.TheVariants as refused;

    ghost from_gives = { λ _ e. e ≡ refused.Memory };

    fn from(_: Memory) -> ReadErr {
        ReadErr::Memory
    }
}

impl<T: Drop> From<AllocFailed<T>> for ReadErr {
    ghost use Rattle.std.specs.Prelude.{◌≡◌};
    ghost use Rattle.meta_bytes.specs.declared.read_err.ReadErr.TheVariants as refused;

    ghost from_gives = { λ _ e. e ≡ refused.Memory };

    fn from(_: AllocFailed<T>) -> ReadErr {
        ReadErr::Memory
    }
}

impl From<WireErr> for ReadErr {
    ghost use Rattle.std.specs.Prelude.{◌≡◌};
    ghost use Rattle.meta_bytes.specs.declared.read_err.ReadErr.TheVariants as refused;

    ghost from_gives = { λ w e. e ≡ refused.Wire w };

    fn from(why: WireErr) -> ReadErr {
        ReadErr::Wire { why }
    }
}
