ghost use Rattle.std.specs.Prelude.{◌≡◌, true, ℕ, ◌-◌, ◌*◌, ◌%◌, ◌/◌, ◌<◌, ◌≤◌, ◌^◌, List, length, drop};
ghost use Rattle.std.specs.List.{list_all};
ghost use Rattle.byteorder.specs.Endian.{big_number};
ghost use Rattle.wire_bytes.specs.m3_model.Members.{IsIn};
ghost use Rattle.wire_bytes.specs.m3_model.declared.point.Series.{Series as Row};
ghost use Rattle.wire_bytes.specs.Volumes.{bits_of, bloom_bytes, is_set};
ghost use Rattle.fileset_lookup.specs.Bits.{bit_in, is_filter, may_hold};

use byteorder::{BigEndian, ByteOrder};
use wire_bytes::digest;

// Whether the bit is set.
fn bit_in(bytes: &[u8], bit: usize) -> bool
    requires { bit / 8 < length bytes.now }
    ensures { result ≡ bit_in bytes.now bit }
{
    (bytes[bit / 8] >> (bit % 8)) % 2 == 1
}

// Whether the bit is set whose number the four bytes at the offset of the digest give, modulo the count of bits.
fn is_set(bytes: &[u8], count: usize, digest: &[u8; 32], at: usize) -> bool
    requires some { 0 < length bytes.now }
    requires count { count ≡ 8 * length bytes.now }
    requires inside { at ≤ 28 }
    ensures { result ≡ bit_in bytes.now (big_number 4 (drop at digest.now) % count) }
{
    let number = BigEndian::read_u32(&digest[at..]) as usize;
    bit_in(bytes, number % count)
}

// Whether each bit of the identifier is set.
fn are_set(bytes: &[u8], count: usize, id: &[u8]) -> bool
    requires some { 0 < length bytes.now }
    requires count { count ≡ 8 * length bytes.now }
    ensures { result ≡ list_all (bit_in bytes.now) (bits_of count id.now) }
{
    let d = digest(id);
    is_set(bytes, count, &d, 0)
        && is_set(bytes, count, &d, 4)
        && is_set(bytes, count, &d, 8)
        && is_set(bytes, count, &d, 12)
}

// Whether four bytes say how many bits follow them, and some do.
fn is_filter(bytes: &[u8]) -> bool
    ensures { result ≡ is_filter bytes.now }
{
    if bytes.len() <= 4 {
        return false;
    }
    let count = BigEndian::read_u32(bytes) as usize;
    count % 8 == 0 && count / 8 == bytes.len() - 4
}

/// Whether a volume of this bloom filter may have the identifier: its four bits are set. False only where no series of the volume
/// has it. Bytes that are no bloom filter exclude no identifier. Takes no memory.
pub fn may_hold(bits: &[u8], id: &[u8]) -> bool
    ensures bits { result ≡ may_hold bits.now id.now }
    ensures rows { (rows : List Row) → 1 ≤ length rows → 16 * length rows < 2 ^ 32 → bits.now ≡ bloom_bytes rows → result ≡ list_all (is_set (16 * length rows) rows) (bits_of (16 * length rows) id.now) }
    ensures held { (rows : List Row) → 16 * length rows < 2 ^ 32 → bits.now ≡ bloom_bytes rows → (s : Row) → IsIn rows s → s.id ≡ id.now → result ≡ true }
{
    if !is_filter(bits) {
        return true;
    }
    let count = BigEndian::read_u32(bits) as usize;
    are_set(&bits[4..], count, id)
}
