ghost use Rattle.std.specs.Prelude.{◌≡◌, ℕ, ◌+◌, ◌^◌, ◌<◌, ◌≤◌, length, IfOk, IfErr};
ghost use Rattle.byteorder.specs.Endian.{big_bytes};
ghost use Rattle.meta_bytes.specs.Forms.{Number, HasForm, StandsAs, MayFault};

use crate::read_err::ReadErr;
use wire_bytes::get_between;

/// The number from `low` to `high` in `width` bytes at the offset, and the offset behind it.
pub(crate) fn read_number(
    bytes: &[u8],
    at: usize,
    width: usize,
    low: u64,
    high: u64,
) -> Result<(u64, usize), ReadErr>
    requires least { 1 ≤ width }
    requires most { width ≤ 8 }
    requires order { low ≤ high }
    requires fits { high < 256 ^ width }
    ensures ok { IfOk result (λ r. StandsAs (Number width low high) (big_bytes width r.0) bytes.now at r.1) }
    ensures within { IfOk result (λ r. (low ≤ r.0) × (r.0 ≤ high)) }
    ensures err { IfErr result (MayFault (HasForm (Number width low high)) bytes.now at) }
{
    let n = get_between(bytes, at, width, low, high)?;
    Ok((n, at + width))
}
