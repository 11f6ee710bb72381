ghost use Rattle.std.specs.Prelude.{◌≡◌, IfOk};

use crate::duplicate::Duplicate;
use crate::memory::Memory;
use crate::seq::Seq;
use crate::text::Text;
use std::alloc::Global;
use std::cmp::Ordering;

/// A value of a series at a time.
#[derive(Drop)]
pub struct Point {
    /// The position of the namespace among the namespaces.
    pub ns: u8,
    pub id: Text,
    pub t: u64,
    pub v: i64,
}

/// The points of one identifier, as pairs of time and value by ascending time.
#[derive(Drop)]
pub struct Series {
    pub id: Text,
    pub points: Seq<(u64, i64)>,
}

/// A test of one tag: that it has this value, or that it hasn't.
pub struct Matcher {
    pub name: Text,
    pub equal: bool,
    pub value: Text,
}

impl Drop for Matcher {
    fn drop(self) {
        let Matcher {
            name: _,
            equal: _,
            value: _,
        } = self;
    }
}

/// Which series a read asks for.
#[derive(Drop)]
pub enum Pick {
    One { ns: u8, id: Text },
    Match { ns: u8, wanted: Seq<Matcher> },
}

/// What a point stands at: of two points with one key the higher value stays.
#[derive(Drop)]
pub struct Key {
    pub ns: u8,
    pub id: Text,
    pub t: u64,
}

impl PartialEq for Key {
    ghost use Rattle.std.specs.Prelude.{◌==◌};
    ghost use Rattle.std.specs.Ordering.{on, eq_of_both};
    ghost use Rattle.std.proofs.Common.{rules};
    ghost use Rattle.std.specs.Cmp.Rules.{comparing};
    ghost use Rattle.std.specs.Cmp.Lexicographic.{pointwise};

    ghost eq = { eq_of_both (on (λ k. k.ns) ◌==◌) (eq_of_both (on (λ k. k.id) (pointwise ◌==◌)) (on (λ k. k.t) ◌==◌)) };

    ghost laws = { Prim.search (comparing, rules) };

    fn eq(&self, other: &Key) -> bool {
        self.ns == other.ns && self.id == other.id && self.t == other.t
    }
}

impl Eq for Key {
    ghost use Rattle.std.proofs.Common.{rules};
    ghost use Rattle.std.specs.Cmp.Rules.{comparing};

    ghost laws = { Prim.search (comparing, rules) };
}

impl PartialOrd for Key {
    ghost use Rattle.std.specs.Ordering.{as_partial_cmp};
    ghost use Rattle.std.specs.Cmp.{partial_order_from_own_ties};
    ghost use Rattle.std.proofs.Common.{rules};
    ghost use Rattle.std.specs.Cmp.Rules.{comparing};
    ghost use Rattle.m3_model.specs.Keys.{key_cmp};

    ghost partial_cmp = { as_partial_cmp key_cmp };

    ghost laws = { partial_order_from_own_ties (Prim.search (comparing, rules)) (Prim.search (comparing, rules)) };

    fn partial_cmp(&self, other: &Key) -> Option<Ordering> {
        Some(self.cmp(other))
    }
}

impl Ord for Key {
    ghost use Rattle.std.proofs.Common.{rules};
    ghost use Rattle.std.specs.Cmp.Rules.{comparing};
    ghost use Rattle.m3_model.specs.Keys.{key_cmp};

    ghost cmp = { key_cmp };

    ghost total = { Prim.search (comparing, rules) };

    ghost matches_partial_cmp = { Prim.search (comparing, rules) };

    ghost matches_eq = { Prim.search (comparing, rules) };

    fn cmp(&self, other: &Key) -> Ordering {
        self.ns
            .cmp(&other.ns)
            .then(self.id.cmp(&other.id).then(self.t.cmp(&other.t)))
    }
}

/// Points by ascending key, with the key from which the next page goes on.
#[derive(Drop)]
pub struct Page {
    pub points: Seq<Point>,
    pub next: Option<Key>,
}

impl Duplicate for Point {
    fn copy(&self, alloc: Global) -> Result<Point, Memory> {
        Ok(Point {
            ns: self.ns,
            id: self.id.copy(alloc)?,
            t: self.t,
            v: self.v,
        })
    }
}

impl Duplicate for Series {
    fn copy(&self, alloc: Global) -> Result<Series, Memory> {
        let id = self.id.copy(alloc)?;
        let points = self.points.copy(alloc)?;
        Ok(Series { id, points })
    }
}

impl Duplicate for Matcher {
    fn copy(&self, alloc: Global) -> Result<Matcher, Memory> {
        let name = self.name.copy(alloc)?;
        let value = self.value.copy(alloc)?;
        Ok(Matcher {
            name,
            equal: self.equal,
            value,
        })
    }
}

impl Duplicate for Pick {
    fn copy(&self, alloc: Global) -> Result<Pick, Memory> {
        match self {
            Pick::One { ns, id } => Ok(Pick::One {
                ns: *ns,
                id: id.copy(alloc)?,
            }),
            Pick::Match { ns, wanted } => Ok(Pick::Match {
                ns: *ns,
                wanted: wanted.copy(alloc)?,
            }),
        }
    }
}

impl Duplicate for Key {
    fn copy(&self, alloc: Global) -> Result<Key, Memory> {
        Ok(Key {
            ns: self.ns,
            id: self.id.copy(alloc)?,
            t: self.t,
        })
    }
}

impl Duplicate for Page {
    fn copy(&self, alloc: Global) -> Result<Page, Memory> {
        let points = self.points.copy(alloc)?;
        let next = self.next.copy(alloc)?;
        Ok(Page { points, next })
    }
}
