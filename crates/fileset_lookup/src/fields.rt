ghost use Rattle.std.specs.Prelude.{◌≡◌, ◌<◌, ◌≤◌, ◌^◌, ◌++◌, List, ℕ, length, IfOk};
ghost use Rattle.byteorder.specs.Endian.{big_bytes};
ghost use Rattle.wire_bytes.specs.Volumes.{id_bytes};
ghost use Rattle.fileset_lookup.specs.Runs.{Gives};

use wire_bytes::{WireErr, get_number};

/// A number in `width` bytes, the highest first, and what follows it.
///
/// # Errors
///
/// `Short`, where there are fewer bytes.
pub(crate) fn split_number(bytes: &[u8], width: usize) -> Result<(u64, &[u8]), WireErr>
    requires least { 1 ≤ width }
    requires most { width ≤ 8 }
    ensures fits { IfOk result (λ parts. parts.0 < 256 ^ width) }
    ensures shorter { IfOk result (λ parts. length parts.1.now < length bytes.now) }
    ensures whole { (n : ℕ) (rest : List ℕ) → n < 256 ^ width → bytes.now ≡ big_bytes width n ++ rest → Gives result (λ parts. (parts.0 ≡ n) × (parts.1.now ≡ rest)) }
{
    let n = get_number(bytes, 0, width)?;
    Ok((n, &bytes[width..]))
}

/// An identifier behind its length, and what follows it.
///
/// # Errors
///
/// `Short`, where the bytes end within it.
pub(crate) fn split_id(bytes: &[u8]) -> Result<(&[u8], &[u8]), WireErr>
    ensures shorter { IfOk result (λ parts. length parts.1.now < length bytes.now) }
    ensures whole { (id rest : List ℕ) → length id < 2 ^ 16 → bytes.now ≡ id_bytes id ++ rest → Gives result (λ parts. (parts.0.now ≡ id) × (parts.1.now ≡ rest)) }
{
    let (len, behind) = split_number(bytes, 2)?;
    if (behind.len() as u64) < len {
        return Err(WireErr::Short);
    }
    Ok(behind.split_at(len as usize))
}
