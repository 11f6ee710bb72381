ghost use Rattle.std.specs.Prelude.{◌≡◌, IfOk};
ghost use Rattle.boot_chain.specs.Origins.{claimants_of, claims_of};

use crate::bootstrapper::Bootstrapper;
use crate::chain::{Claims, run_chain};
use crate::range::RangeList;
use m3_model::{Duplicate, Memory};
use std::alloc::Global;

/// A bootstrapper that claims all or nothing of what it is asked for. To claim nothing takes no memory.
#[derive(Clone, Copy, Debug, PartialEq, Eq)]
pub enum Claimant {
    Every,
    Nothing,
}

impl Bootstrapper for Claimant {
    ghost use Rattle.std.specs.Prelude.{◌≡◌, MatchResult};
    ghost use Rattle.boot_chain.specs.Origins.{claim_of};
    ghost use Rattle.boot_chain.specs.declared.origin.Claimant.TheVariants.{Every};

    ghost answers = { λ s asked answer t. (t ≡ s) × MatchResult answer (λ claimed. claimed ≡ claim_of s asked) (λ _. s ≡ Every) };

    fn claim(&mut self, alloc: Global, asked: &RangeList) -> Result<RangeList, Memory> {
        match *self {
            Claimant::Every => asked.copy(alloc),
            Claimant::Nothing => Ok(RangeList::new(alloc)),
        }
    }
}

/// Where the points of an assignment's shard come from.
#[derive(Clone, Copy, Debug, PartialEq, Eq)]
pub enum Origin {
    /// The assignment is available: the node's own files have them.
    Held,
    /// It is initializing, and the shard has former replicas: these have them, beside what the node's files have.
    Moved,
    /// It is one of the placement that a cluster begins with: there are none yet.
    First,
}

// The four bootstrappers for an assignment, in their order.
fn claimants_of(origin: Origin) -> (Claimant, Claimant, Claimant, Claimant)
    ensures { result ≡ claimants_of origin }
{
    let (all, none) = (Claimant::Every, Claimant::Nothing);
    match origin {
        Origin::Held => (all, all, none, none),
        Origin::Moved => (none, none, all, none),
        Origin::First => (none, none, none, all),
    }
}

/// Which bootstrapper claims which ranges for an assignment. Of an available one the first two claim every range that
/// they are asked for, so the files have all of them; of one whose shard has former replicas they claim nothing, and the
/// peers fulfil every range; of a new shard the last one claims every range. Nothing is left in any case.
///
/// # Errors
///
/// Want of memory.
pub fn claim_by_origin(alloc: Global, origin: Origin, asked: RangeList) -> Result<Claims, Memory>
    ensures { IfOk result (λ claims. claims ≡ claims_of origin asked) }
{
    let (mut files, mut log, mut peers, mut fresh) = claimants_of(origin);
    run_chain(alloc, &mut files, &mut log, &mut peers, &mut fresh, asked)
}
