ghost use Rattle.std.specs.Prelude.{◌≡◌, ◌*◌, ◌<◌, ◌^◌, ◌++◌, false, length, replicate, IfOk, OnOk};
ghost use Rattle.wire_bytes.specs.Volumes.{bits_from, bloom_bytes};
ghost use Rattle.volume_bytes.specs.Bits.{AreBitsOf};

use crate::bits::{byte_at, set_bits};
use std::alloc::Global;
use wire_bytes::of_m3_model::{Memory, Seq, Series};
use wire_bytes::put_number;

// Sets the bits of all rows' identifiers, none of which is set yet.
fn set_all(bits: &mut [bool], rows: &[Series])
    requires { bits.old ≡ replicate (16 * length rows.now) false }
    ensures { AreBitsOf rows.now bits.new }
{
    for row in rows {
        set_bits(bits, row.id.as_str());
    }
}

// The bits of the rows' identifiers.
fn bits_of(alloc: Global, rows: &[Series]) -> Result<Vec<bool>, Memory>
    requires { 16 * length rows.now < 2 ^ 32 }
    ensures { IfOk result (λ bits. AreBitsOf rows.now bits.items) }
{
    let mut bits = vec![in alloc; false; 16 * rows.len()]?;
    set_all(&mut bits, rows);
    Ok(bits)
}

// Appends the bits of the rows, eight to a byte.
fn push_bits(out: &mut Vec<u8>, bits: &[bool], rows: &[Series]) -> Result<(), Memory>
    requires few { 16 * length rows.now < 2 ^ 32 }
    requires bits { AreBitsOf rows.now bits.now }
    ensures { OnOk result (out.new.items ≡ out.old.items ++ bits_from (16 * length rows.now) rows.now 0 (2 * length rows.now)) }
{
    for i in 0..2 * rows.len() {
        out.push(byte_at(bits, 8 * i))?;
    }
    Ok(())
}

/// The bloom filter of these rows: 16 bits for each, so that their number fits 4 bytes. Takes memory for a `bool` a bit meanwhile.
pub fn bloom_filter(alloc: Global, rows: &[Series]) -> Result<Seq<u8>, Memory>
    requires { 16 * length rows.now < 2 ^ 32 }
    ensures { IfOk result (λ bytes. bytes ≡ bloom_bytes rows.now) }
{
    let bits = bits_of(alloc, rows)?;
    let mut out = Vec::new(alloc);
    put_number(&mut out, 4, bits.len() as u64)?;
    push_bits(&mut out, &bits, rows)?;
    Ok(Seq::from_vec(out))
}
