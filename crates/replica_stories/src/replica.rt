//! One replica on a disk, under rules of two namespaces.
ghost use Rattle.std.specs.Prelude.{◌≡◌, ◌<◌, IfOk, length};
ghost use Rattle.std.specs.List.{All};

use m3_model::limits::{MOST_ID_BYTES, TIME_END};
use m3_model::{Key, Memory, Page, Pick, Point, Reason, Report, Rules, Seq, Series, Space, Text};
use m3_outside::Disk;
use replica_machine::{Began, Machine, Work};
use std::alloc::Global;

// The version of calls where none is set: no tenure and no fence of a story is above it.
const VERSION: u64 = 1_000;

/// A replica, the rules under which it is called, and the version of its calls.
#[derive(Drop)]
pub struct Replica<D: Disk> {
    pub alloc: Global,
    machine: Machine<D>,
    pub rules: Rules,
    version: u64,
    ghost two: { length rules.spaces ≡ 2 },
    ghost sizes: { All (λ space. 0 < space.block) rules.spaces },
}

// A namespace whose block, past, future and retention these are.
fn space(alloc: Global, name: &str, windows: [u64; 4]) -> Result<Space, Memory>
    ensures { IfOk result (λ space. 0 < space.block) }
{
    let [block, past, future, retention] = windows;
    Ok(Space {
        name: Text::from_str(alloc, name)?,
        block: block.max(1),
        past,
        future,
        retention,
    })
}

/// The rules of two namespaces at moment 0: of each the size of its blocks, which is 1 at least, how far into the past and into the future a
/// put may lie, and how long points are kept.
///
/// # Errors
///
/// Want of memory.
pub fn rules_of(alloc: Global, first: [u64; 4], second: [u64; 4]) -> Result<Rules, Memory>
    ensures two { IfOk result (λ rules. length rules.spaces ≡ 2) }
    ensures sizes { IfOk result (λ rules. All (λ space. 0 < space.block) rules.spaces) }
{
    let first = space(alloc, "m", first)?;
    let second = space(alloc, "k", second)?;
    let mut spaces = Vec::new(alloc);
    spaces.push(first)?;
    spaces.push(second)?;
    Ok(Rules {
        now: 0,
        spaces: Seq::from_vec(spaces),
    })
}

impl<D: Disk> Replica<D> {
    /// A replica at Boot over the disk, under these rules.
    pub fn new(alloc: Global, disk: D, rules: Rules) -> Replica<D>
        requires two { length rules.spaces ≡ 2 }
        requires sizes { All (λ space. 0 < space.block) rules.spaces }
    {
        Replica {
            alloc,
            machine: Machine::new(alloc, disk),
            rules,
            version: VERSION,
        }
    }

    /// The moment is this one from now on, also where it was a later one.
    pub fn set_moment(&mut self, now: u64) {
        self.rules.now = now;
    }

    /// Calls have this version from now on.
    pub fn set_version(&mut self, version: u64) {
        self.version = version;
    }

    pub fn version(&self) -> u64 {
        self.version
    }

    pub fn boot(&mut self, tenure: u64) -> Result<Began, Reason> {
        self.machine.boot(tenure)
    }

    /// Raises the fence to this version.
    pub fn fence(&mut self, version: u64) -> Result<(), Reason> {
        self.machine.fence(version)
    }

    /// Puts a point. One of another namespace than 0 and 1, or out of bounds, is `Cut`.
    pub fn put(&mut self, point: &Point) -> Result<(), Reason> {
        let _value = point.v;
        let id = point.id.as_str().len();
        if 2 <= point.ns || id == 0 || MOST_ID_BYTES < id || TIME_END <= point.t {
            return Err(Reason::Cut);
        }
        self.machine.put(&self.rules, self.version, point)
    }

    /// The points of the namespace with `from <= t < to`. Of other namespaces than 0 and 1 there are none.
    pub fn read(&mut self, ns: u8, from: u64, to: u64) -> Result<Seq<Series>, Reason> {
        if 2 <= ns {
            return Ok(Seq::new(self.alloc));
        }
        let wanted = Seq::new(self.alloc);
        let pick = Pick::Match { ns, wanted };
        self.machine
            .read(&self.rules, self.version, &pick, from, to)
    }

    /// The same of the series of this identifier alone.
    pub fn read_one(
        &mut self,
        ns: u8,
        id: Text,
        from: u64,
        to: u64,
    ) -> Result<Seq<Series>, Reason> {
        if 2 <= ns {
            return Ok(Seq::new(self.alloc));
        }
        let pick = Pick::One { ns, id };
        self.machine
            .read(&self.rules, self.version, &pick, from, to)
    }

    pub fn flush(&mut self) -> Result<u64, Reason> {
        self.machine.flush(&self.rules)
    }

    pub fn tick(&mut self) -> Result<u64, Reason> {
        self.machine.tick(&self.rules)
    }

    pub fn snapshot(&mut self) -> Result<u64, Reason> {
        self.machine.snapshot()
    }

    pub fn page(&mut self, after: Option<&Key>) -> Result<Page, Reason> {
        self.machine.page(after)
    }

    pub fn merge(&mut self, page: &Page) -> Result<u64, Reason> {
        self.machine.merge(page)
    }

    pub fn work(&self) -> Work {
        self.machine.work()
    }

    pub fn report(&self) -> Report {
        self.machine.report()
    }

    /// The process stops.
    pub fn stop(&mut self) {
        self.machine.stop();
    }

    /// The process starts again, also where it didn't stop before; the pick says what is left on the disk.
    pub fn start(&mut self, pick: u64) -> Result<(), Reason> {
        self.machine.restart(pick)
    }

    /// The disk, and the rules.
    pub fn into_parts(self) -> (D, Rules)
        ensures two { length result.1.spaces ≡ 2 }
        ensures sizes { All (λ space. 0 < space.block) result.1.spaces }
    {
        let Replica { machine, rules, .. } = self;
        (machine.into_disk(), rules)
    }

    pub fn into_disk(self) -> D {
        let Replica { machine, .. } = self;
        machine.into_disk()
    }
}
