ghost use Rattle.std.specs.Prelude.{◌≡◌, [], IfOk};
ghost use Rattle.boot_chain.specs.Ranges.{range_eq, is_first, left_of};

use m3_model::{Duplicate, Memory};
use std::alloc::Global;
use std::marker::Model;

/// The times of a namespace from `from` up to `to`, without `to`; none where `to` isn't above `from`.
#[derive(Clone, Copy, Debug, PartialEq, Eq)]
pub struct Range {
    /// The position of the namespace among the namespaces.
    pub ns: u8,
    pub from: u64,
    pub to: u64,
}

/// Ranges, which contracts see as the list of them. One may stand there more than once.
#[derive(Drop)]
pub struct RangeList {
    ranges: Vec<Range>,
}

impl Model for RangeList {
    ghost use Rattle.std.specs.Prelude.{List};
    ghost use Rattle.boot_chain.specs.declared.range.Range.{Range as Times};

    ghost Value = { List Times };

    ghost view = { λ l. l.ranges.items };
}

// Whether the list begins with the range.
fn is_first(list: &[Range], range: Range) -> bool
    ensures { result ≡ is_first list.now range }
{
    match list {
        [first, ..] => *first == range,
        [] => false,
    }
}

// Leaves the ranges that aren't claimed, in their order.
fn take_out(ranges: &mut Vec<Range>, claimed: &[Range])
    ensures { ranges.new.items ≡ left_of ranges.old.items claimed.now }
{
    let mut rest = claimed;
    let mut kept = 0;
    for position in 0..ranges.len() {
        let range = ranges[position];
        if is_first(rest, range) {
            rest = &rest[1..];
        } else {
            ranges[kept] = range;
            kept += 1;
        }
    }
    ranges.truncate(kept);
}

impl RangeList {
    /// The list without ranges. Takes no memory, here and in the next three.
    pub fn new(alloc: Global) -> RangeList
        ensures { result ≡ [] }
    {
        RangeList {
            ranges: Vec::new(alloc),
        }
    }

    /// The list of these ranges, in their order.
    pub fn from_vec(ranges: Vec<Range>) -> RangeList
        ensures { result ≡ ranges.items }
    {
        RangeList { ranges }
    }

    /// The ranges as a vector.
    pub fn into_vec(self) -> Vec<Range>
        ensures { result.items ≡ self }
    {
        let RangeList { ranges } = self;
        ranges
    }

    /// The ranges in their order.
    pub fn as_slice(&self) -> &[Range]
        ensures { result.now ≡ self.now }
    {
        self.ranges.as_slice()
    }

    // Leaves the ranges that aren't claimed, in their order: of a range that stands there more than once, the first
    // ones are those that are claimed. Takes no memory, and time in proportion to the ranges.
    pub(crate) fn take_out(&mut self, claimed: &RangeList)
        ensures { self.new ≡ left_of self.old claimed.now }
    {
        take_out(&mut self.ranges, claimed.as_slice());
    }
}

impl Duplicate for RangeList {
    fn copy(&self, alloc: Global) -> Result<RangeList, Memory> {
        let mut ranges = Vec::new(alloc);
        ranges.extend_from_slice(self.ranges.as_slice())?;
        Ok(RangeList { ranges })
    }
}
