ghost use Rattle.std.specs.Prelude.{◌≡◌, ◌<◌, ◌≤◌, ℕ, List, [], ◌∷◌, ◌++◌, length, OnOk, OnErr, IfErr, IsErrOf};
ghost use Rattle.m3_outside.specs.Causes.{CountsFaults};
ghost use Rattle.saved_cluster.specs.Saved.{MayClose, MayServeSaved};
ghost use Rattle.saved_cluster.specs.declared.lost.Lost.TheVariants as lost;
ghost use Rattle.m3_program.specs.Passing.{Takes, outflow};
ghost use Rattle.m3_program.specs.declared.status.Status.TheVariants as status;
ghost use Rattle.m3_program.specs.Streams.{NoNewline, TakesOn, Cuts, stage};
ghost use Rattle.m3_program.specs.Writing.{Gathers, WritesUntil};
ghost use Rattle.m3_program.specs.Causes.{EndsLine};

use crate::exchange::{Workspace, answer_line};
use crate::output::{write_all, write_before_end, write_full};
use crate::status::Status;
use m3_outside::{Disks, Sink};
use memchr::memchr;
use saved_cluster::{Lost, SavedCluster};
use std::alloc::Global;

/// Takes the rest of a line, up to its newline, and appends what is to be written for it: `line` is what was taken of it before.
fn serve_rest<X: Disks>(
    alloc: Global,
    work: &mut Workspace,
    cluster: &mut SavedCluster<X::D>,
    disks: &mut X,
    replies: &mut Vec<u8>,
    line: &mut Vec<u8>,
    rest: &[u8],
) -> Result<(), Lost>
    requires whole { NoNewline rest.now }
    requires may { MayServeSaved X.D.state cluster.old (X.depot disks.old).held }
    ensures ok { OnOk result ((text : List ℕ) × (replies.new.items ≡ replies.old.items ++ text)
        × TakesOn X.D.state (stage cluster.old (X.depot disks.old)) line.old.items (rest.now ++ 10 ∷ []) text
        (stage cluster.new (X.depot disks.new)) line.new.items) }
    ensures err { OnErr result (Cuts X.D.state (stage cluster.old (X.depot disks.old)) line.old.items (rest.now ++ 10 ∷ []) []
        (stage cluster.new (X.depot disks.new)) (IsErrOf result lost.Meta)) }
    ensures nothing { OnErr result (replies.new.items ≡ replies.old.items) }
    ensures may { OnOk result (MayServeSaved X.D.state cluster.new (X.depot disks.new).held) }
    ensures close { MayClose cluster.new (X.depot disks.new).held }
    ensures meta { CountsFaults (IsErrOf result lost.Meta) (X.D.state cluster.old.meta).faults (X.D.state cluster.new.meta).faults }
{
    if line.as_slice().is_empty() {
        return answer_line(alloc, work, cluster, disks, replies, rest);
    }
    match line.extend_from_slice(rest) {
        Ok(()) => {}
        Err(_) => return Err(Lost::Memory),
    }
    match answer_line(alloc, work, cluster, disks, replies, line.as_slice()) {
        Ok(()) => {
            line.clear();
            Ok(())
        }
        Err(error) => Err(error),
    }
}

/// Takes a piece of the input: whole lines are served, and what begins a further line goes to `line`. The replies are held,
/// and written whenever they have 65,536 bytes or more, and before it ends for another cause than the sink.
fn serve_lines<K: Sink, X: Disks>(
    alloc: Global,
    work: &mut Workspace,
    cluster: &mut SavedCluster<X::D>,
    disks: &mut X,
    out: &mut K,
    replies: &mut Vec<u8>,
    line: &mut Vec<u8>,
    piece: &[u8],
) -> Result<(), Status>
    requires may { MayServeSaved X.D.state cluster.old (X.depot disks.old).held }
    ensures ok { OnOk result ((text : List ℕ) × Gathers (outflow (K.written out.old) (K.took out.old)) replies.old.items text (outflow (K.written out.new) (K.took out.new)) replies.new.items
        × TakesOn X.D.state (stage cluster.old (X.depot disks.old)) line.old.items piece.now text
        (stage cluster.new (X.depot disks.new)) line.new.items) }
    ensures err { IfErr result (λ s. (text : List ℕ) × WritesUntil s (outflow (K.written out.old) (K.took out.old)) (replies.old.items ++ text) (outflow (K.written out.new) (K.took out.new))
        × Cuts X.D.state (stage cluster.old (X.depot disks.old)) line.old.items piece.now text
        (stage cluster.new (X.depot disks.new)) (s ≡ status.DiskFault)) }
    ensures few { length replies.old.items < 65536 → OnOk result (length replies.new.items < 65536) }
    ensures may { OnOk result (MayServeSaved X.D.state cluster.new (X.depot disks.new).held) }
    ensures close { MayClose cluster.new (X.depot disks.new).held }
    ensures later { (K.faulted out.old ≤ K.faulted out.new) × (K.stalled out.old ≤ K.stalled out.new) × ((X.D.state cluster.old.meta).faults ≤ (X.D.state cluster.new.meta).faults) }
    ensures cause { IfErr result (λ s. EndsLine s (K.faulted out.old) (K.faulted out.new) (K.stalled out.old) (K.stalled out.new) (X.D.state cluster.old.meta).faults (X.D.state cluster.new.meta).faults) }
{
    let mut rest = piece;
    while let Some(end) = memchr(b'\n', rest) {
        match serve_rest(alloc, work, cluster, disks, replies, line, &rest[..end]) {
            Ok(()) => {}
            Err(why) => return Err(write_before_end(out, replies.as_slice(), why)),
        }
        match write_full(out, replies) {
            Ok(()) => {}
            Err(status) => return Err(status),
        }
        rest = &rest[end + 1..];
    }
    match line.extend_from_slice(rest) {
        Ok(()) => Ok(()),
        Err(_) => Err(write_before_end(out, replies.as_slice(), Lost::Memory)),
    }
}

/// Takes a piece of the input as `serve_lines` does, and writes all replies to its lines.
pub fn serve_piece<K: Sink, X: Disks>(
    alloc: Global,
    work: &mut Workspace,
    cluster: &mut SavedCluster<X::D>,
    disks: &mut X,
    out: &mut K,
    line: &mut Vec<u8>,
    piece: &[u8],
) -> Result<(), Status>
    requires may { MayServeSaved X.D.state cluster.old (X.depot disks.old).held }
    ensures ok { OnOk result ((text : List ℕ) × Takes (outflow (K.written out.old) (K.took out.old)) (outflow (K.written out.new) (K.took out.new)) text
        × TakesOn X.D.state (stage cluster.old (X.depot disks.old)) line.old.items piece.now text
        (stage cluster.new (X.depot disks.new)) line.new.items) }
    ensures err { IfErr result (λ s. (text : List ℕ) × WritesUntil s (outflow (K.written out.old) (K.took out.old)) text (outflow (K.written out.new) (K.took out.new))
        × Cuts X.D.state (stage cluster.old (X.depot disks.old)) line.old.items piece.now text
        (stage cluster.new (X.depot disks.new)) (s ≡ status.DiskFault)) }
    ensures may { OnOk result (MayServeSaved X.D.state cluster.new (X.depot disks.new).held) }
    ensures close { MayClose cluster.new (X.depot disks.new).held }
    ensures later { (K.faulted out.old ≤ K.faulted out.new) × (K.stalled out.old ≤ K.stalled out.new) × ((X.D.state cluster.old.meta).faults ≤ (X.D.state cluster.new.meta).faults) }
    ensures cause { IfErr result (λ s. EndsLine s (K.faulted out.old) (K.faulted out.new) (K.stalled out.old) (K.stalled out.new) (X.D.state cluster.old.meta).faults (X.D.state cluster.new.meta).faults) }
{
    let mut replies = Vec::new(alloc);
    match serve_lines(alloc, work, cluster, disks, out, &mut replies, line, piece) {
        Ok(()) => write_all(out, replies.as_slice()),
        Err(status) => Err(status),
    }
}
