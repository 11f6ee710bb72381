use crate::range::RangeList;
use m3_model::Memory;
use std::alloc::Global;

/// One of the bootstrappers of a replica.
pub trait Bootstrapper {
    ghost use Rattle.std.specs.Prelude.{List, Result, IfOk};
    ghost use Rattle.m3_model.specs.declared.memory.Memory.{Memory as Want};
    ghost use Rattle.boot_chain.specs.declared.range.Range.{Range as Times};
    ghost use Rattle.boot_chain.specs.Ranges.{IsSublist};

    /// What it may answer to which ranges, and what it is afterwards.
    ghost answers: { Self → List Times → Result (List Times) Want → Self → Type 0 };

    /// The ranges of those asked for that this bootstrapper fulfils, in the order in which they were asked for. It can't
    /// claim any other, nor one more often than it was asked for. It is refused for want of memory alone.
    fn claim(&mut self, alloc: Global, asked: &RangeList) -> Result<RangeList, Memory>
        ensures answers { answers self.old asked.now result self.new }
        ensures some_of_it { IfOk result (λ claimed. IsSublist claimed asked.now) };
}
