//! Hashes, shards and majorities against known values.
ghost use Rattle.std.specs.Prelude.{◌≡◌, [], codes};
ghost use Rattle.m3_model.specs.Hash.{murmur3, shard_of};
ghost use Rattle.m3_model.specs.Levels.{majority};

/// Known hashes of texts, some of which leave one to three bytes beside the groups of four.
pub fn hash_vectors()
    ensures empty { murmur3 [] 0 ≡ 0 }
    ensures seeded { murmur3 [] 1 ≡ 0x514e28b7 }
    ensures hello { murmur3 (codes "hello") 0 ≡ 0x248bfa47 }
    ensures hello_world { murmur3 (codes "hello, world") 0 ≡ 0x149bbb7f }
    ensures one_left { murmur3 (codes "cpu01") 42 ≡ 0x3ce5cae5 }
    ensures two_left { murmur3 (codes "cpu_01") 42 ≡ 0xf3520dcf }
    ensures three_left { murmur3 (codes "cpu_010") 42 ≡ 0x3171279a }
{}

/// The shards of two texts among 64.
pub fn shard_vectors()
    ensures hello { shard_of (codes "hello") 0 64 ≡ 7 }
    ensures hello_world { shard_of (codes "hello, world") 0 64 ≡ 63 }
{}

/// More than half of one to five replicas.
pub fn majorities()
    ensures of_one { majority 1 ≡ 1 }
    ensures of_two { majority 2 ≡ 2 }
    ensures of_three { majority 3 ≡ 2 }
    ensures of_four { majority 4 ≡ 3 }
    ensures of_five { majority 5 ≡ 3 }
{}
