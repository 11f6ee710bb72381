//! Names: their length in a byte, and so many letters, digits, `_` and `-`.
ghost use Rattle.std.specs.Prelude.{◌≡◌, ℕ, ◌+◌, ◌<◌, ◌≤◌, ◌++◌, length, take, drop, true, IfOk, IfErr, OnOk};
ghost use Rattle.std.specs.List.{list_all};
ghost use Rattle.m3_model.specs.Names.{is_name_byte, is_name};
ghost use Rattle.m3_model.specs.declared.limits.TheConstants.{MOST_NAME_BYTES};
ghost use Rattle.wire_bytes.specs.Fields.{Stands, IsFault};
ghost use Rattle.meta_bytes.specs.Forms.{Byte, HasForm, Times, StandsAs, MayFault};
ghost use Rattle.meta_bytes.specs.States.{name_form, name_bytes};

use crate::numbers::read_number;
use crate::read_err::ReadErr;
use m3_model::limits::MOST_NAME_BYTES;
use m3_model::{Memory, Text};
use std::alloc::Global;
use wire_bytes::{WireErr, put_number};

fn is_name_byte(byte: u8) -> bool
    ensures { result ≡ is_name_byte byte }
{
    byte.is_ascii_alphanumeric() || byte == b'_' || byte == b'-'
}

fn are_name_bytes(bytes: &[u8]) -> bool
    ensures { result ≡ list_all is_name_byte bytes.now }
{
    bytes.iter().all(|&byte| is_name_byte(byte))
}

/// Whether it is a name: 1 to 32 letters, digits, `_` and `-`.
pub(crate) fn is_name(text: &str) -> bool
    ensures { result ≡ is_name text.now }
{
    (1..=MOST_NAME_BYTES).contains(&text.len()) && are_name_bytes(text.as_bytes())
}

// Whether `len` bytes of a name stand at the offset.
fn find_name(bytes: &[u8], at: usize, len: usize) -> Result<(), WireErr>
    requires inside { at ≤ length bytes.now }
    requires short { len ≤ MOST_NAME_BYTES }
    ensures ok { OnOk result (Stands (take len (drop at bytes.now)) bytes.now at (at + len)) }
    ensures name { OnOk result (list_all is_name_byte (take len (drop at bytes.now)) ≡ true) }
    ensures err { IfErr result (λ e. IsFault (Times len (HasForm (Byte is_name_byte))) bytes.now at e) }
{
    for offset in at..at + len {
        if offset == bytes.len() {
            return Err(WireErr::Short);
        }
        if !is_name_byte(bytes[offset]) {
            return Err(WireErr::Bad { at: offset });
        }
    }
    Ok(())
}

/// The name at the offset, and the offset behind it.
pub(crate) fn read_name(alloc: Global, bytes: &[u8], at: usize) -> Result<(Text, usize), ReadErr>
    ensures ok { IfOk result (λ r. StandsAs name_form (name_bytes r.0) bytes.now at r.1) }
    ensures fits { IfOk result (λ r. length r.0 < 256) }
    ensures err { IfErr result (MayFault (HasForm name_form) bytes.now at) }
{
    let (len, from) = read_number(bytes, at, 1, 1, MOST_NAME_BYTES as u64)?;
    let len = len as usize;
    find_name(bytes, from, len)?;
    let name = str::from_utf8(&bytes[from..from + len]).unwrap();
    Ok((Text::from_str(alloc, name)?, from + len))
}

/// Appends the name.
pub(crate) fn put_name(out: &mut Vec<u8>, name: &Text) -> Result<(), Memory>
    requires { length name.now < 256 }
    ensures { OnOk result (out.new.items ≡ out.old.items ++ name_bytes name.now) }
{
    let bytes = name.as_str().as_bytes();
    put_number(out, 1, bytes.len() as u64)?;
    out.extend_from_slice(bytes)?;
    Ok(())
}
