//! Which bootstrapper claims which times of a replica's shard, as its files are.
ghost use Rattle.std.specs.Prelude.{◌≡◌, ◌++◌, max, IfOk, OnOk};
ghost use Rattle.boot_chain.specs.Ranges.{IsSublist, is_first};
ghost use Rattle.shard_open.specs.Claims.{asked_for, asked_of, before_block, blocks_from, claims_by_tenure, claims_of_files, counted_blocks, end_of, in_block, ranges_from, times};

use crate::volumes::OpenVolume;
use boot_chain::{
    Bootstrapper, Claimant, Claims, Origin, Range, RangeList, claim_by_origin, run_chain,
};
use m3_model::Memory;
use m3_model::limits::MOST_NAMESPACES;
use snapshot_files::of_volume_bytes::Head;
use std::alloc::Global;

// The filesystem's bootstrapper: it claims the blocks with a volume that counts, of those that it is asked for. The blocks stand
// in the order of what is asked for.
#[derive(Drop)]
struct BlockClaimant {
    blocks: RangeList,
}

// Whether the blocks go on with the range.
fn goes_on(blocks: &[Range], range: Range) -> bool
    ensures { result ≡ is_first blocks.now range }
{
    match blocks {
        [first, ..] => *first == range,
        [] => false,
    }
}

// What is asked for of these blocks, in its order.
fn asked_of(alloc: Global, asked: &[Range], blocks: &[Range]) -> Result<Vec<Range>, Memory>
    ensures { IfOk result (λ claimed. claimed.items ≡ asked_of asked.now blocks.now) }
{
    let mut rest = blocks;
    let mut claimed = Vec::new(alloc);
    for range in asked {
        if goes_on(rest, *range) {
            claimed.push(*range)?;
            rest = &rest[1..];
        }
    }
    Ok(claimed)
}

impl Bootstrapper for BlockClaimant {
    ghost use Rattle.std.specs.Prelude.{◌≡◌, ⊤, MatchResult};
    ghost use Rattle.shard_open.specs.Claims.{asked_of};

    ghost answers = { λ s asked answer t. (t ≡ s) × MatchResult answer (λ claimed. claimed ≡ asked_of asked s.blocks) (λ _. ⊤) };

    fn claim(&mut self, alloc: Global, asked: &RangeList) -> Result<RangeList, Memory> {
        let claimed = asked_of(alloc, asked.as_slice(), self.blocks.as_slice())?;
        Ok(RangeList::from_vec(claimed))
    }
}

// What is asked for, and the blocks of it.
struct Pieces {
    asked: Vec<Range>,
    blocks: Vec<Range>,
}

fn end_of(head: &Head) -> u64
    ensures { result ≡ end_of head.now }
{
    head.start.saturating_add(head.size)
}

// Appends the times, where there are any.
fn push_times(ranges: &mut Vec<Range>, ns: u8, from: u64, to: u64) -> Result<(), Memory>
    ensures { OnOk result (ranges.new.items ≡ ranges.old.items ++ times ns from to) }
{
    if from < to {
        ranges.push(Range { ns, from, to })?;
    }
    Ok(())
}

// Appends the times up to the block and those of the block, from a time on. Answers the time up to which this goes.
fn push_block(
    asked: &mut Vec<Range>,
    blocks: &mut Vec<Range>,
    from: u64,
    head: &Head,
) -> Result<u64, Memory>
    ensures asked { OnOk result (asked.new.items ≡ asked.old.items ++ (before_block from head.now ++ in_block from head.now)) }
    ensures blocks { OnOk result (blocks.new.items ≡ blocks.old.items ++ in_block from head.now) }
    ensures reached { IfOk result (λ to. to ≡ max from (end_of head.now)) }
{
    let (start, end) = (from.max(head.start), end_of(head));
    push_times(asked, head.ns, from, head.start)?;
    push_times(asked, head.ns, start, end)?;
    push_times(blocks, head.ns, start, end)?;
    Ok(from.max(end))
}

// Appends the times of a namespace, and its blocks.
fn push_namespace(
    asked: &mut Vec<Range>,
    blocks: &mut Vec<Range>,
    ns: u8,
    volumes: &[OpenVolume],
) -> Result<(), Memory>
    ensures asked { OnOk result (asked.new.items ≡ asked.old.items ++ ranges_from ns 0 volumes.now) }
    ensures blocks { OnOk result (blocks.new.items ≡ blocks.old.items ++ blocks_from ns 0 volumes.now) }
{
    let mut from = 0;
    for volume in volumes {
        let head = volume.volume.head;
        if head.ns == ns {
            from = push_block(asked, blocks, from, &head)?;
        }
    }
    push_times(asked, ns, from, u64::MAX)
}

// What is asked for, by ascending namespace, and the blocks of it.
fn pieces_of(alloc: Global, volumes: &[OpenVolume]) -> Result<Pieces, Memory>
    ensures asked { IfOk result (λ pieces. pieces.asked.items ≡ asked_for volumes.now) }
    ensures blocks { IfOk result (λ pieces. pieces.blocks.items ≡ counted_blocks volumes.now) }
{
    let mut asked = Vec::new(alloc);
    let mut blocks = Vec::new(alloc);
    for ns in 0..MOST_NAMESPACES as u8 {
        push_namespace(&mut asked, &mut blocks, ns, volumes)?;
    }
    Ok(Pieces { asked, blocks })
}

// The chain over files that hold a tenure.
fn claim_held(alloc: Global, asked: RangeList, blocks: RangeList) -> Result<Claims, Memory>
    requires { IsSublist blocks asked }
    ensures { IfOk result (λ claims. claims ≡ claims_of_files asked blocks) }
{
    let mut files = BlockClaimant { blocks };
    let (mut log, mut peers, mut fresh) = (Claimant::Every, Claimant::Nothing, Claimant::Nothing);
    run_chain(alloc, &mut files, &mut log, &mut peers, &mut fresh, asked)
}

/// Runs the four bootstrappers over all times of each namespace that there may be, since the files don't tell which there are. Where
/// the files hold a tenure, the filesystem's claims the blocks with a volume that counts, and the commit log's the rest; where they
/// hold none, the last one claims all. The peers' claims nothing, and nothing is left. Each volume is looked at once for each
/// namespace.
///
/// # Errors
///
/// Want of memory.
pub(crate) fn claim_by_tenure(
    alloc: Global,
    volumes: &[OpenVolume],
    tenure: u64,
) -> Result<Claims, Memory>
    ensures { IfOk result (λ claims. claims ≡ claims_by_tenure tenure volumes.now) }
{
    let Pieces { asked, blocks } = pieces_of(alloc, volumes)?;
    let asked = RangeList::from_vec(asked);
    match tenure {
        0 => claim_by_origin(alloc, Origin::First, asked),
        _ => claim_held(alloc, asked, RangeList::from_vec(blocks)),
    }
}
