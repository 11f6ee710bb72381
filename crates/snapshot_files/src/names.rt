ghost use Rattle.std.specs.Prelude.{◌≡◌};
ghost use Rattle.fileset_check.specs.shard_files.Parts as parts;

use fileset_check::of_m3_outside::FileName;

/// The kinds of a snapshot's two files.
pub(crate) const DATA: u8 = 8;

pub(crate) const CHECKPOINT: u8 = 9;

/// The name of the file that has the data of the snapshot of this number.
pub(crate) fn data_name(number: u64) -> FileName
    ensures { result ≡ parts.snapshot_data number }
{
    FileName {
        kind: DATA,
        ns: 0,
        block: 0,
        number,
    }
}

/// The name of its checkpoint.
pub(crate) fn checkpoint_name(number: u64) -> FileName
    ensures { result ≡ parts.snapshot_checkpoint number }
{
    FileName {
        kind: CHECKPOINT,
        ns: 0,
        block: 0,
        number,
    }
}
