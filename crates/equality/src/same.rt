//! Whether two values are equal.
ghost use Rattle.std.specs.Prelude.{◌≡◌, ◌↔◌, IsTrue};

use cluster_core::StepCall;
use m3_model::{
    Assignment, Instance, Key, Matcher, Page, Pick, Placement, Point, Rules, Seq, Series, Space,
    Text,
};

/// A type whose values can be compared.
pub trait Same {
    fn is_same(&self, other: &Self) -> bool
        ensures { IsTrue result ↔ (self.now ≡ other.now) };
}

impl Same for u8 {
    fn is_same(&self, other: &u8) -> bool {
        *self == *other
    }
}

impl Same for u32 {
    fn is_same(&self, other: &u32) -> bool {
        *self == *other
    }
}

impl Same for u64 {
    fn is_same(&self, other: &u64) -> bool {
        *self == *other
    }
}

impl Same for i64 {
    fn is_same(&self, other: &i64) -> bool {
        *self == *other
    }
}

impl Same for Text {
    fn is_same(&self, other: &Text) -> bool {
        self.equals(other.as_str())
    }
}

impl<A: Same, B: Same> Same for (A, B) {
    fn is_same(&self, other: &(A, B)) -> bool {
        self.0.is_same(&other.0) && self.1.is_same(&other.1)
    }
}

impl<T: Same> Same for Option<T> {
    fn is_same(&self, other: &Option<T>) -> bool {
        match self {
            None => other.is_none(),
            Some(value) => match other {
                None => false,
                Some(second) => value.is_same(second),
            },
        }
    }
}

/// Whether the two lists are equal.
pub fn are_same<T: Same>(one: &[T], other: &[T]) -> bool
    ensures { IsTrue result ↔ (one.now ≡ other.now) }
{
    let mut rest = other;
    for item in one {
        match rest {
            [second, later @ ..] if item.is_same(second) => rest = later,
            _ => return false,
        }
    }
    rest.is_empty()
}

impl<T: Same> Same for Seq<T> {
    fn is_same(&self, other: &Seq<T>) -> bool {
        are_same(self.as_slice(), other.as_slice())
    }
}

impl Same for Key {
    fn is_same(&self, other: &Key) -> bool {
        self.ns == other.ns && self.t == other.t && self.id.is_same(&other.id)
    }
}

impl Same for Point {
    fn is_same(&self, other: &Point) -> bool {
        self.ns == other.ns && self.t == other.t && self.v == other.v && self.id.is_same(&other.id)
    }
}

impl Same for Series {
    fn is_same(&self, other: &Series) -> bool {
        self.id.is_same(&other.id) && self.points.is_same(&other.points)
    }
}

impl Same for Page {
    fn is_same(&self, other: &Page) -> bool {
        self.points.is_same(&other.points) && self.next.is_same(&other.next)
    }
}

impl Same for Matcher {
    fn is_same(&self, other: &Matcher) -> bool {
        self.equal == other.equal
            && self.name.is_same(&other.name)
            && self.value.is_same(&other.value)
    }
}

impl Same for Pick {
    fn is_same(&self, other: &Pick) -> bool {
        match self {
            Pick::One { ns, id } => match other {
                Pick::One { ns: n, id: i } => ns == n && id.is_same(i),
                Pick::Match { .. } => false,
            },
            Pick::Match { ns, wanted } => match other {
                Pick::One { .. } => false,
                Pick::Match { ns: n, wanted: w } => ns == n && wanted.is_same(w),
            },
        }
    }
}

impl Same for Space {
    fn is_same(&self, other: &Space) -> bool {
        self.name.is_same(&other.name)
            && self.block == other.block
            && self.past == other.past
            && self.future == other.future
            && self.retention == other.retention
    }
}

impl Same for Rules {
    fn is_same(&self, other: &Rules) -> bool {
        self.now == other.now && self.spaces.is_same(&other.spaces)
    }
}

impl Same for Assignment {
    fn is_same(&self, other: &Assignment) -> bool {
        self.node == other.node
            && self.tenure == other.tenure
            && self.state == other.state
            && self.source == other.source
    }
}

impl Same for Instance {
    fn is_same(&self, other: &Instance) -> bool {
        self.name.is_same(&other.name)
            && self.group.is_same(&other.group)
            && self.listed == other.listed
            && self.drained == other.drained
    }
}

impl Same for Placement {
    fn is_same(&self, other: &Placement) -> bool {
        self.version == other.version
            && self.rf == other.rf
            && self.instances.is_same(&other.instances)
            && self.shards.is_same(&other.shards)
    }
}

impl Same for StepCall {
    fn is_same(&self, other: &StepCall) -> bool {
        match self {
            StepCall::Begin { tenure } =>
                matches!(other, StepCall::Begin { tenure: t } if t == tenure),
            StepCall::Put {
                client,
                number,
                rules,
                version,
                point,
            } => {
                matches!(other, StepCall::Put { client: c, number: n, rules: r, version: v, point: p }
                    if client == c && number == n && version == v && rules.is_same(r) && point.is_same(p))
            }
            StepCall::Read {
                client,
                number,
                rules,
                version,
                pick,
                from,
                to,
            } => {
                matches!(other, StepCall::Read { client: c, number: n, rules: r, version: v, pick: p, from: f, to: t }
                    if client == c && number == n && version == v && from == f && to == t && rules.is_same(r) && pick.is_same(p))
            }
            StepCall::Fence { version } => {
                matches!(other, StepCall::Fence { version: v } if v == version)
            }
            StepCall::Page { after } => {
                matches!(other, StepCall::Page { after: a } if after.is_same(a))
            }
            StepCall::Block {
                ns,
                start,
                size,
                after,
            } => {
                matches!(other, StepCall::Block { ns: n, start: s, size: z, after: a }
                    if ns == n && start == s && size == z && after.is_same(a))
            }
            StepCall::Digests { rules } => {
                matches!(other, StepCall::Digests { rules: r } if rules.is_same(r))
            }
            StepCall::Merge { page } => {
                matches!(other, StepCall::Merge { page: p } if page.is_same(p))
            }
            StepCall::Tick { rules } => {
                matches!(other, StepCall::Tick { rules: r } if rules.is_same(r))
            }
            StepCall::Flush { rules } => {
                matches!(other, StepCall::Flush { rules: r } if rules.is_same(r))
            }
            StepCall::Snapshot => matches!(other, StepCall::Snapshot),
            StepCall::Report => matches!(other, StepCall::Report),
            StepCall::End => matches!(other, StepCall::End),
            StepCall::Stop => matches!(other, StepCall::Stop),
            StepCall::Restart => matches!(other, StepCall::Restart),
        }
    }
}
