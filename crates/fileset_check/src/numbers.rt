ghost use Rattle.std.specs.Prelude.{◌≡◌, IfNone, IfSome};
ghost use Rattle.fileset_read.specs.wire_bytes.Fields.{StopsAt};
ghost use Rattle.fileset_check.specs.Numbers.{AreFields, AreNumbers, offset_of};

use fileset_read::of_wire_bytes::{WireErr, get_between};

/// A number from `low` to `high` in `width` bytes, the highest first.
#[derive(Clone, Copy)]
pub(crate) struct Field {
    pub width: usize,
    pub low: u64,
    pub high: u64,
}

/// A field of these bounds.
pub(crate) fn field_of(width: usize, low: u64, high: u64) -> Field
    ensures { result ≡ record { width = width; low = low; high = high } }
{
    Field { width, low, high }
}

// The offset of the fault in so many bytes.
fn offset_of(e: WireErr, length: usize) -> usize
    ensures { result ≡ offset_of length e }
{
    match e {
        WireErr::Short => length,
        WireErr::Bad { at } => at,
    }
}

/// The offset at which the bytes stop to be numbers of these fields, one after another; none where they are such. Takes no
/// memory.
pub(crate) fn number_stop(fields: &[Field], bytes: &[u8]) -> Option<usize>
    requires { AreFields fields.now }
    ensures none { IfNone result (AreNumbers fields.now bytes.now) }
    ensures some { IfSome result (StopsAt (AreNumbers fields.now) bytes.now) }
{
    let mut at = 0;
    for field in fields {
        match get_between(bytes, at, field.width, field.low, field.high) {
            Ok(_) => at += field.width,
            Err(e) => return Some(offset_of(e, bytes.len())),
        }
    }
    if at < bytes.len() {
        return Some(at);
    }
    None
}
