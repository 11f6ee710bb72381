ghost use Rattle.std.specs.Prelude.{◌≡◌, ◌++◌, Ok, Err, IfOk, IfErr, MatchResult, IsPermutation};
ghost use Rattle.boot_chain.specs.Chains.{HasAnswered, HasClaimed, HasStopped, claims_and_rest};

use crate::bootstrapper::Bootstrapper;
use crate::range::RangeList;
use m3_model::Memory;
use std::alloc::Global;

/// Who claimed what, by bootstrapper, and what nobody did.
#[derive(Drop)]
pub struct Claims {
    /// What the replica's volumes fulfil.
    pub files: RangeList,
    /// What its snapshot and its commit log fulfil.
    pub log: RangeList,
    /// What other replicas of the shard fulfil.
    pub peers: RangeList,
    /// What needs nothing, since the shard is new.
    pub fresh: RangeList,
    /// What nobody claimed.
    pub left: RangeList,
}

// Asks a bootstrapper for what is left, and takes its claim out of that. Want of memory leaves that as it was.
fn ask<B: Bootstrapper>(
    alloc: Global,
    bootstrapper: &mut B,
    left: &mut RangeList,
) -> Result<RangeList, Memory>
    ensures { HasAnswered B.answers bootstrapper.old left.old result bootstrapper.new left.new }
{
    let claimed = bootstrapper.claim(alloc, left)?;
    left.take_out(&claimed);
    Ok(claimed)
}

/// Runs four bootstrappers in their order: over the replica's files, its commit log, its peers, and last the one of a
/// new shard. The first is asked for all ranges, and each further one for what those before it left, in the order in
/// which that was asked for.
///
/// # Errors
///
/// Want of memory, exactly where one of the four was refused; those after it weren't asked.
pub fn run_chain<A: Bootstrapper, B: Bootstrapper, C: Bootstrapper, U: Bootstrapper>(
    alloc: Global,
    a: &mut A,
    b: &mut B,
    c: &mut C,
    u: &mut U,
    asked: RangeList,
) -> Result<Claims, Memory>
    ensures claimed { IfOk result (λ claims. HasClaimed A.answers B.answers C.answers U.answers asked claims (a.old, b.old, c.old, u.old) (a.new, b.new, c.new, u.new)) }
    ensures partition { IfOk result (λ claims. IsPermutation asked (claims_and_rest claims)) }
    ensures stopped { IfErr result (λ want. HasStopped A.answers B.answers C.answers U.answers asked want (a.old, b.old, c.old, u.old) (a.new, b.new, c.new, u.new)) }
{
    let mut left = asked;
    let files = ask(alloc, a, &mut left)?;
    let log = ask(alloc, b, &mut left)?;
    let peers = ask(alloc, c, &mut left)?;
    let fresh = ask(alloc, u, &mut left)?;
    Ok(Claims {
        files,
        log,
        peers,
        fresh,
        left,
    })
}
