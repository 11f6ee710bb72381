ghost use Rattle.std.specs.Prelude.{◌≡◌, ◌≤◌, max, IfOk};
ghost use Rattle.shard_files.specs.HeldEntries.{AmountTo, points_in, tenure_in, fence_in};

use crate::entries::LogEntry;
use commit_log::of_m3_model::{Memory, Point, Seq};
use std::alloc::Global;

/// What entries amount to.
#[derive(Drop)]
pub struct Amount {
    /// All their points in their order, also several of one key.
    pub points: Seq<Point>,
    /// The greatest tenure, and 0 where there is none.
    pub tenure: u64,
    /// The greatest fence or tenure, and 0 where there is none.
    pub fence: u64,
}

impl LogEntry {
    fn tenure(&self) -> u64
        ensures { result ≡ tenure_in self.now }
    {
        match self {
            LogEntry::Tenure { tenure } => *tenure,
            _ => 0,
        }
    }

    fn fence(&self) -> u64
        ensures { result ≡ fence_in self.now }
    {
        match self {
            LogEntry::Points { .. } => 0,
            LogEntry::Fence { fence } => *fence,
            LogEntry::Tenure { tenure: fence } => *fence,
        }
    }

    fn into_points(self, alloc: Global) -> Vec<Point>
        ensures { result.items ≡ points_in self }
    {
        match self {
            LogEntry::Points { points } => points.into_vec(),
            _ => Vec::new(alloc),
        }
    }
}

fn greater(a: u64, b: u64) -> u64
    ensures { result ≡ max a b }
{
    a.max(b)
}

/// What the entries amount to.
pub fn join_entries(alloc: Global, entries: Seq<LogEntry>) -> Result<Amount, Memory>
    ensures amount { IfOk result (λ a. AmountTo entries a.points a.tenure a.fence) }
    ensures order { IfOk result (λ a. a.tenure ≤ a.fence) }
{
    let mut points = Vec::new(alloc);
    let mut tenure = 0;
    let mut fence = 0;
    for entry in entries.into_vec() {
        tenure = greater(tenure, entry.tenure());
        fence = greater(fence, entry.fence());
        points.append(&mut entry.into_points(alloc))?;
    }
    Ok(Amount {
        points: Seq::from_vec(points),
        tenure,
        fence,
    })
}
