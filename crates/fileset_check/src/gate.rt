ghost use Rattle.std.specs.Prelude.{IfNone, IfSome};
ghost use Rattle.fileset_read.specs.wire_bytes.Fields.{StopsAt};
ghost use Rattle.fileset_read.specs.shard_files.Damage.{IsGate};
ghost use Rattle.fileset_check.specs.PartFiles.{Spells};

// An open gate.
const OPEN: u8 = 1;

// How many bytes a checkpoint has: its gate and a digest.
const CHECKPOINT_BYTES: usize = 33;

/// The offset at which the bytes stop to be those of a checkpoint with an open gate; none where they are such.
pub(crate) fn gate_stop(bytes: &[u8]) -> Option<usize>
    ensures none { IfNone result (IsGate bytes.now) }
    ensures some { IfSome result (StopsAt IsGate bytes.now) }
{
    if bytes.len() == 0 || bytes[0] != OPEN {
        return Some(0);
    }
    if bytes.len() == CHECKPOINT_BYTES {
        return None;
    }
    Some(bytes.len().min(CHECKPOINT_BYTES))
}

/// The first offset at which the bytes are others than are due, or at which one of both ends; none where they are the same.
pub(crate) fn first_difference(due: &[u8], bytes: &[u8]) -> Option<usize>
    ensures none { IfNone result (Spells due.now bytes.now) }
    ensures some { IfSome result (StopsAt (Spells due.now) bytes.now) }
{
    let both = due.len().min(bytes.len());
    for i in 0..both {
        if due[i] != bytes[i] {
            return Some(i);
        }
    }
    if due.len() == bytes.len() {
        return None;
    }
    Some(both)
}
