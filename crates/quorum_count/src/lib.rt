//! How many answers a level needs.
#![tactic(auto)]

ghost use Rattle.std.specs.Prelude.{◌≡◌};
ghost use Rattle.m3_model.specs.Levels.{majority, needed_write, needed_read};

use m3_model::{ReadLevel, WriteLevel};

/// More than half of `rf` replicas: rounded down before adding. Takes no memory.
///
/// See M3DB's page "Consistency Levels".
pub fn majority(rf: u32) -> u32
    ensures { result ≡ majority rf }
{
    rf / 2 + 1
}

/// How many of `rf` replicas have to take a write of this level. Takes no memory.
///
/// See M3DB's page "Consistency Levels".
pub fn needed_write(level: WriteLevel, rf: u32) -> u32
    ensures { result ≡ needed_write level rf }
{
    match level {
        WriteLevel::One => 1,
        WriteLevel::Majority => majority(rf),
        WriteLevel::All => rf,
    }
}

/// How many of `rf` replicas have to answer a read of this level. An unstrict read needs one, and is short where fewer
/// than a majority answered. Takes no memory.
///
/// See M3DB's page "Consistency Levels".
pub fn needed_read(level: ReadLevel, rf: u32) -> u32
    ensures { result ≡ needed_read level rf }
{
    match level {
        ReadLevel::One | ReadLevel::Unstrict => 1,
        ReadLevel::Majority => majority(rf),
        ReadLevel::All => rf,
    }
}
