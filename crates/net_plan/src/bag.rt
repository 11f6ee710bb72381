ghost use Rattle.std.specs.Prelude.{◌≡◌, ◌≤◌, ◌↔◌, [], ◌∷◌, ◌++◌, length, Ok, true, false, IfOk, IfErr, OnOk, OnErr};
ghost use Rattle.m3_model.specs.declared.limits.TheConstants.{MOST_LATE_WRITES};

use crate::late_write::LateWrite;
use m3_model::limits::MOST_LATE_WRITES;
use m3_model::{Memory, Seq};
use std::alloc::Global;
use std::marker::Model;
use std::mem;

// The writes for which a bag has room as it begins.
const FIRST_ROOM: usize = 16;

/// The late writes of a run, in the order in which they were made late. Contracts see the list of them.
#[derive(Drop)]
pub struct Bag {
    alloc: Global,
    late: Vec<LateWrite>,
}

impl Model for Bag {
    ghost use Rattle.std.specs.Prelude.{List, ◌≤◌, length};
    ghost use Rattle.m3_model.specs.declared.limits.TheConstants.{MOST_LATE_WRITES};
    ghost use Rattle.net_plan.specs.declared.late_write.LateWrite.{LateWrite};

    ghost Value = { List LateWrite };

    ghost view = { λ b. b.late.items };

    ghost invariant = { λ b. length b.late.items ≤ MOST_LATE_WRITES };
}

impl Bag {
    /// A bag that holds nothing. Refused only for want of memory.
    pub fn new(alloc: Global) -> Result<Bag, Memory>
        ensures { IfOk result (λ bag. bag ≡ []) }
    {
        let late = Vec::with_capacity(alloc, FIRST_ROOM)?;
        Ok(Bag { alloc, late })
    }

    /// Adds the write after those that are there, and says whether there was room for it: false is answered exactly
    /// where 4,096 are held, and then the write is lost. Want of memory changes nothing and hands the write back.
    pub fn keep(&mut self, late: LateWrite) -> Result<bool, LateWrite>
        ensures kept { result ≡ Ok true → self.new ≡ self.old ++ late ∷ [] }
        ensures full { (result ≡ Ok false) ↔ (length self.old ≡ MOST_LATE_WRITES) }
        ensures lost { result ≡ Ok false → self.new ≡ self.old }
        ensures back { IfErr result (λ back. back ≡ late) }
        ensures err { OnErr result (self.new ≡ self.old) }
    {
        if self.late.len() == MOST_LATE_WRITES {
            return Ok(false);
        }
        match self.late.push(late) {
            Ok(()) => Ok(true),
            Err(refused) => Err(refused.value),
        }
    }

    /// Takes out all writes, in the order in which they were kept: at most 4,096. Want of memory changes nothing.
    pub fn empty(&mut self) -> Result<Seq<LateWrite>, Memory>
        ensures all { IfOk result (λ all. all ≡ self.old) }
        ensures few { IfOk result (λ all. length all ≤ MOST_LATE_WRITES) }
        ensures emptied { OnOk result (self.new ≡ []) }
        ensures err { OnErr result (self.new ≡ self.old) }
    {
        let room = Vec::with_capacity(self.alloc, FIRST_ROOM)?;
        Ok(Seq::from_vec(mem::replace(&mut self.late, room)))
    }
}
