ghost use Rattle.std.specs.Prelude.{◌≡◌, ℕ, List, ◌+◌, ◌≤◌, length, drop, take, IsOk, OnOk, IfErr, IsUtf8};
ghost use Rattle.wire_bytes.specs.Fields.{Stands, IsFault};
ghost use Rattle.wire_bytes.specs.Texts.{AText};

use crate::due::Due;
use crate::numbers::rest_at;
use crate::wire_err::WireErr;

/// Whether a text of `len` bytes stands at the offset.
pub(crate) fn find_text(bytes: &[u8], at: usize, len: usize) -> Result<(), WireErr>
    requires { at ≤ length bytes.now }
    ensures ok { OnOk result (Stands (take len (drop at bytes.now)) bytes.now at (at + len)) }
    ensures text { OnOk result (AText len (take len (drop at bytes.now))) }
    ensures err { IfErr result (λ e. IsFault (AText len) bytes.now at e) }
{
    let rest = rest_at(bytes, at);
    let mut due = Due::Start;
    for i in 0..len {
        if i == rest.len() {
            return Err(WireErr::Short);
        }
        let Some(next) = due.before_end(rest[i], len - 1 - i) else {
            return Err(WireErr::Bad { at: at + i });
        };
        due = next;
    }
    Ok(())
}
