ghost use Rattle.std.specs.Prelude.{◌≡◌, ◌+◌, ◌%◌, ◌<◌, ◌≤◌, ℕ, if◌then◌else◌, ◌==◌, ◌||◌, get_or, length, false, drop};
ghost use Rattle.std.specs.List.{list_any};
ghost use Rattle.byteorder.specs.Endian.{big_number};
ghost use Rattle.sha2.specs.Sha256.{sha256};
ghost use Rattle.wire_bytes.specs.Volumes.{bits_of};
ghost use Rattle.volume_bytes.specs.Bits.{number_at};

use byteorder::{BigEndian, ByteOrder};
use wire_bytes::digest;

// Sets the bit whose number the four bytes at the offset give, modulo the count of bits.
fn set_bit(bits: &mut [bool], digest: &[u8; 32], at: usize)
    requires some { 0 < length bits.old }
    requires inside { at ≤ 28 }
    ensures long { length bits.new ≡ length bits.old }
    ensures set { (k : ℕ) → k < length bits.old → get_or bits.new k false ≡ ((big_number 4 (drop at digest.now) % length bits.old) == k) || get_or bits.old k false }
{
    let number = BigEndian::read_u32(&digest[at..]) as usize;
    let bit = number % bits.len();
    bits[bit] = true;
}

/// Sets the four bits of an identifier.
pub(crate) fn set_bits(bits: &mut [bool], id: &str)
    requires some { 0 < length bits.old }
    ensures long { length bits.new ≡ length bits.old }
    ensures set { (k : ℕ) → k < length bits.old → get_or bits.new k false ≡ list_any (λ b. b == k) (bits_of (length bits.old) id.now) || get_or bits.old k false }
{
    let d = digest(id.as_bytes());
    set_bit(bits, &d, 0);
    set_bit(bits, &d, 4);
    set_bit(bits, &d, 8);
    set_bit(bits, &d, 12);
}

// A bit as a number.
fn bit_at(bits: &[bool], at: usize) -> u8
    requires { at < length bits.now }
    ensures value { result ≡ (if get_or bits.now at false then 1 else 0) }
    ensures small { result ≤ 1 }
{
    u8::from(bits[at])
}

/// Eight bits from this one on as a byte, the first of them the lowest.
pub(crate) fn byte_at(bits: &[bool], at: usize) -> u8
    requires { at + 8 ≤ length bits.now }
    ensures { result ≡ number_at bits.now at 8 }
{
    let low = bit_at(bits, at)
        + 2 * bit_at(bits, at + 1)
        + 4 * bit_at(bits, at + 2)
        + 8 * bit_at(bits, at + 3);
    let high = bit_at(bits, at + 4)
        + 2 * bit_at(bits, at + 5)
        + 4 * bit_at(bits, at + 6)
        + 8 * bit_at(bits, at + 7);
    low + 16 * high
}
