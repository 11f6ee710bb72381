ghost use Rattle.std.specs.Prelude.{◌≡◌, IsTrue};

use crate::copies::{copied_text, finished};
use crate::duplicate::Duplicate;
use crate::memory::Memory;
use crate::text::Text;
use std::alloc::Global;

/// What is wrong with a file that counts.
#[derive(Debug, Drop)]
pub enum Damage {
    /// Its SHA-256 isn't the one that was kept for it.
    Digest {
        file: Text,
        kept: [u8; 32],
        found: [u8; 32],
    },
    /// No file of its kind goes on as it does at this byte.
    Form {
        file: Text,
        at: u64,
    },
}

/// Why a replica didn't answer.
#[derive(Debug, Drop)]
pub enum Reason {
    /// The message was lost, or is late.
    Cut,
    /// The replica is closed.
    Down,
    /// It was started and hasn't bootstrapped.
    Boot,
    /// It has no tenure of the shard, or one above the version used.
    NotOwned,
    /// Its fence is above the version used.
    Stale { fence: u64 },
    /// The write lies too far below the moment.
    Past,
    /// The write lies too far above the moment.
    Future,
    /// Its disk failed.
    Disk,
    Corrupt(Damage),
    Memory,
}

/// A copy if memory is there for all of it, and damage of an empty name if not.
pub(crate) fn copied_damage(alloc: Global, enough: &mut bool, damage: &Damage) -> Damage
    ensures { IsTrue enough.new → (IsTrue enough.old × (result ≡ damage.now)) }
{
    match *damage {
        Damage::Digest {
            ref file,
            kept,
            found,
        } => Damage::Digest {
            file: copied_text(alloc, enough, file),
            kept,
            found,
        },
        Damage::Form { ref file, at } => Damage::Form {
            file: copied_text(alloc, enough, file),
            at,
        },
    }
}

impl Duplicate for Damage {
    fn copy(&self, alloc: Global) -> Result<Damage, Memory> {
        let mut enough = true;
        let copy = copied_damage(alloc, &mut enough, self);
        finished(enough, copy, self)
    }
}

impl Duplicate for Reason {
    fn copy(&self, alloc: Global) -> Result<Reason, Memory> {
        match self {
            Reason::Cut => Ok(Reason::Cut),
            Reason::Down => Ok(Reason::Down),
            Reason::Boot => Ok(Reason::Boot),
            Reason::NotOwned => Ok(Reason::NotOwned),
            Reason::Stale { fence } => Ok(Reason::Stale { fence: *fence }),
            Reason::Past => Ok(Reason::Past),
            Reason::Future => Ok(Reason::Future),
            Reason::Disk => Ok(Reason::Disk),
            Reason::Corrupt(damage) => Ok(Reason::Corrupt(damage.copy(alloc)?)),
            Reason::Memory => Ok(Reason::Memory),
        }
    }
}
