ghost use Rattle.std.specs.Prelude.{◌≡◌, ℕ, ◌+◌, ◌-◌, ◌^◌, ◌<◌, ◌≤◌, ◌++◌, length, drop, OnOk, OnErr, IfOk, IfErr, Ok as Right, Err as Wrong};
ghost use Rattle.byteorder.specs.Endian.{big_bytes};
ghost use Rattle.wire_bytes.specs.Fields.{Stands, IsFault};
ghost use Rattle.wire_bytes.specs.Numbers.{ANumber};
ghost use Rattle.wire_bytes.specs.declared.wire_err.WireErr.{WireErr as Fault};

use crate::wire_err::WireErr;
use byteorder::{BigEndian, ByteOrder};
use m3_model::Memory;

/// Appends the number in `width` bytes, the highest first.
///
/// # Errors
///
/// Want of memory; nothing is appended then.
pub fn put_number(out: &mut Vec<u8>, width: usize, n: u64) -> Result<(), Memory>
    requires least { 1 ≤ width }
    requires most { width ≤ 8 }
    requires fits { n < 256 ^ width }
    ensures ok { OnOk result (out.new.items ≡ out.old.items ++ big_bytes width n) }
    ensures err { OnErr result (out.new.items ≡ out.old.items) }
{
    let mut field = [0; 8];
    BigEndian::write_uint(&mut field, n, width);
    out.extend_from_slice(&field[..width])?;
    Ok(())
}

/// What follows the first `at` bytes, and nothing where there are fewer.
pub(crate) fn rest_at(bytes: &[u8], at: usize) -> &[u8]
    ensures { result.now ≡ drop at bytes.now }
{
    match bytes.get(at..) {
        Some(rest) => rest,
        None => &[],
    }
}

/// The number in `width` bytes at the offset, the highest first. Takes no memory.
///
/// # Errors
///
/// `Short`, exactly where there are fewer bytes.
pub fn get_number(bytes: &[u8], at: usize, width: usize) -> Result<u64, WireErr>
    requires least { 1 ≤ width }
    requires most { width ≤ 8 }
    ensures ok { IfOk result (λ n. Stands (big_bytes width n) bytes.now at (at + width)) }
    ensures fits { IfOk result (λ n. n < 256 ^ width) }
    ensures err { IfErr result (λ e. IsFault (ANumber width 0 (256 ^ width - 1)) bytes.now at e) }
    ensures whole { (n : ℕ) → n < 256 ^ width → Stands (big_bytes width n) bytes.now at (at + width) → result ≡ Right n }
    ensures fault { (e : Fault) → IsFault (ANumber width 0 (256 ^ width - 1)) bytes.now at e → result ≡ Wrong e }
{
    let rest = rest_at(bytes, at);
    if rest.len() < width {
        return Err(WireErr::Short);
    }
    Ok(BigEndian::read_uint(rest, width))
}

/// The number from `low` to `high` in `width` bytes at the offset, the highest first. Takes no memory.
///
/// # Errors
///
/// `Short` where the bytes end within the number, and `Bad` at the first byte with which no number from `low` to `high`
/// goes on.
pub fn get_between(
    bytes: &[u8],
    at: usize,
    width: usize,
    low: u64,
    high: u64,
) -> Result<u64, WireErr>
    requires least { 1 ≤ width }
    requires most { width ≤ 8 }
    requires order { low ≤ high }
    requires fits { high < 256 ^ width }
    ensures ok { IfOk result (λ n. Stands (big_bytes width n) bytes.now at (at + width)) }
    ensures within { IfOk result (λ n. (low ≤ n) × (n ≤ high)) }
    ensures err { IfErr result (λ e. IsFault (ANumber width low high) bytes.now at e) }
    ensures whole { (n : ℕ) → low ≤ n → n ≤ high → Stands (big_bytes width n) bytes.now at (at + width) → result ≡ Right n }
    ensures fault { (e : Fault) → IsFault (ANumber width low high) bytes.now at e → result ≡ Wrong e }
{
    let rest = rest_at(bytes, at);
    let mut n = 0;
    for i in 0..width {
        if i == rest.len() {
            return Err(WireErr::Short);
        }
        n = n * 256 + u64::from(rest[i]);
        let later = 256u64.pow((width - 1 - i) as u32);
        if n < low / later || high / later < n {
            return Err(WireErr::Bad { at: at + i });
        }
    }
    Ok(n)
}
