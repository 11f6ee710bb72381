ghost use Rattle.std.specs.Prelude.{◌≡◌, ℕ, ◌+◌, ◌*◌, ◌/◌, ◌%◌, ◌^◌, ◌<◌, ◌≤◌, length, bit_xor};
ghost use Rattle.m3_model.specs.Hash.{rotated, scrambled, stirred, hash_of_groups, folded_down, finished, murmur3, shard_of};

// A word of 32 bits, rotated to the left.
fn rotated(word: u32, bits: u32) -> u32
    requires above { 0 < bits }
    requires below { bits < 32 }
    ensures { result ≡ rotated word bits }
{
    word.rotate_left(bits)
}

// What a group of bytes, as a little-endian number, adds to the hash.
fn scrambled(group: u32) -> u32
    ensures { result ≡ scrambled group }
{
    rotated(group.wrapping_mul(0xcc9e2d51), 15).wrapping_mul(0x1b873593)
}

// The hash after one more whole group.
fn stirred(hash: u32, group: u32) -> u32
    ensures { result ≡ stirred hash group }
{
    rotated(hash ^ scrambled(group), 13)
        .wrapping_mul(5)
        .wrapping_add(0xe6546b64)
}

// Four bytes as a little-endian number.
fn group_of(a: u8, b: u8, c: u8, d: u8) -> u32
    ensures { result ≡ a + 2 ^ 8 * b + 2 ^ 16 * c + 2 ^ 24 * d }
{
    u32::from_le_bytes([a, b, c, d])
}

// The hash after all groups of four bytes and the one to three bytes that are left.
fn hash_of_groups(seed: u32, bytes: &[u8]) -> u32
    ensures { result ≡ hash_of_groups seed bytes.now }
{
    let mut hash = seed;
    let mut rest = bytes;
    while let [a, b, c, d, later @ ..] = rest {
        hash = stirred(hash, group_of(*a, *b, *c, *d));
        rest = later;
    }
    match rest {
        [a] => hash ^ scrambled(group_of(*a, 0, 0, 0)),
        [a, b] => hash ^ scrambled(group_of(*a, *b, 0, 0)),
        [a, b, c] => hash ^ scrambled(group_of(*a, *b, *c, 0)),
        _ => hash,
    }
}

// The last mixing, of the hash with the length in it.
fn finished(hash: u64) -> u32
    ensures { result ≡ finished hash }
{
    let first = ((hash ^ (hash >> 16)) % (1 << 32)) as u32;
    let second = first.wrapping_mul(0x85ebca6b);
    let third = (second ^ (second >> 13)).wrapping_mul(0xc2b2ae35);
    third ^ (third >> 16)
}

/// The shard of an identifier among `shards` of them: MurmurHash3_x86_32 of its bytes with the cluster's seed, modulo
/// the number of shards. Takes no memory.
///
/// See M3DB's page "Sharding".
#[tactic(auto, unfolding(m3_model::specs::Hash::murmur3))]
pub fn shard_of(id: &str, seed: u32, shards: u32) -> u32
    requires { 1 ≤ shards }
    ensures { result ≡ shard_of id.now seed shards }
{
    let bytes = id.as_bytes();
    let hash = u64::from(hash_of_groups(seed, bytes)) ^ bytes.len() as u64;
    finished(hash) % shards
}
