use fileset_read::of_m3_model::Memory;
use fileset_read::of_m3_outside::FileName;

/// Why files that were read aren't those of a volume.
#[derive(Clone, Copy)]
pub(crate) enum PartErr {
    /// Want of memory.
    Memory,
    /// The SHA-256 of the file isn't the one that is kept of it.
    Digest {
        file: FileName,
        kept: [u8; 32],
        found: [u8; 32],
    },
    /// The file isn't that of a volume, by this offset.
    Form {
        file: FileName,
        at: u64,
    },
}

impl From<Memory> for PartErr {
    ghost use Rattle.std.specs.Prelude.{◌≡◌};
    ghost use Rattle.fileset_check.specs.declared.part_err.PartErr.TheVariants as faults;

    ghost from_gives = { λ _ e. e ≡ faults.Memory };

    fn from(_: Memory) -> PartErr {
        PartErr::Memory
    }
}
