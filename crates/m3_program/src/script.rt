ghost use Rattle.std.specs.Prelude.{◌≡◌, ◌≤◌, List, [], ◌∷◌, ℕ, ◌++◌, Some, OnOk, OnErr, IfOk, IfErr, IsErrOf, MatchOption};
ghost use Rattle.m3_model.specs.Limits.{KeepsLimits};
ghost use Rattle.load_gen.specs.Left.{requests_left};
ghost use Rattle.m3_outside.specs.Causes.{CountsFaults, Rose};
ghost use Rattle.saved_cluster.specs.Saved.{MayClose, MayServeSaved};
ghost use Rattle.saved_cluster.specs.declared.lost.Lost.TheVariants as lost;
ghost use Rattle.m3_program.specs.Causes.{EndsScript};
ghost use Rattle.m3_program.specs.Rounds.{Continues, Goes, HasPlayed, Loses, Stopped};
ghost use Rattle.m3_program.specs.Passing.{Takes, outflow};
ghost use Rattle.m3_program.specs.Streams.{IsFresh, opening_at, stage};

use crate::output::write_all;
use crate::status::Status;
use load_gen::{Script, Summary};
use m3_json::is_served;
use m3_model::{Answer, Reply, Request};
use m3_outside::{Disks, Sink};
use saved_cluster::{Lost, SavedCluster};
use std::alloc::Global;

// Serves a request, or answers that no part of the program serves it yet.
fn serve_request<X: Disks>(
    alloc: Global,
    cluster: &mut SavedCluster<X::D>,
    disks: &mut X,
    request: Request,
) -> Result<Reply, Lost>
    requires limits { KeepsLimits request }
    requires may { MayServeSaved X.D.state cluster.old (X.depot disks.old).held }
    ensures continues { IfOk result (λ reply. Continues X.D.state (stage cluster.old (X.depot disks.old)) request reply
        (stage cluster.new (X.depot disks.new))) }
    ensures loses { OnErr result (Loses X.D.state (stage cluster.old (X.depot disks.old)) request
        (stage cluster.new (X.depot disks.new))) }
    ensures may { OnOk result (MayServeSaved X.D.state cluster.new (X.depot disks.new).held) }
    ensures close { MayClose cluster.new (X.depot disks.new).held }
    ensures meta { CountsFaults (IsErrOf result lost.Meta) (X.D.state cluster.old.meta).faults (X.D.state cluster.new.meta).faults }
{
    if !is_served(&request) {
        drop(request);
        return Ok(Reply::One(Answer::Later));
    }
    cluster.serve(alloc, disks, request)
}

// The next request of a script.
fn next_of(alloc: Global, left: &mut Script) -> Result<Option<Request>, Lost>
    ensures given { IfOk result (λ request. MatchOption request ((requests_left left.old ≡ []) × (requests_left left.new ≡ [])) (λ r. requests_left left.old ≡ r ∷ requests_left left.new)) }
    ensures want { IfErr result (λ e. e ≡ lost.Memory) }
{
    match left.next(alloc) {
        Ok(request) => Ok(request),
        Err(_) => Err(Lost::Memory),
    }
}

// Serves the script of a number to its end.
fn serve_script<X: Disks>(
    alloc: Global,
    cluster: &mut SavedCluster<X::D>,
    disks: &mut X,
    number: u32,
) -> Result<Summary, Lost>
    requires fresh { IsFresh X.D.state (stage cluster.old (X.depot disks.old)) }
    requires may { MayServeSaved X.D.state cluster.old (X.depot disks.old).held }
    ensures ok { IfOk result (λ summary. Goes X.D.state (opening_at (stage cluster.old (X.depot disks.old))) number [] summary
        (stage cluster.new (X.depot disks.new))) }
    ensures err { OnErr result (Stopped X.D.state (opening_at (stage cluster.old (X.depot disks.old))) number
        (stage cluster.new (X.depot disks.new)) (IsErrOf result lost.Meta)) }
    ensures close { MayClose cluster.new (X.depot disks.new).held }
    ensures later { (X.D.state cluster.old.meta).faults ≤ (X.D.state cluster.new.meta).faults }
    ensures rose { IsErrOf result lost.Meta → Rose (X.D.state cluster.old.meta).faults (X.D.state cluster.new.meta).faults }
{
    let mut left = Script::new(number);
    let mut summary = Summary::new();
    while let Some(request) = next_of(alloc, &mut left)? {
        let reply = serve_request(alloc, cluster, disks, request)?;
        let counted = summary.with(&reply);
        drop(reply);
        summary = counted.ok_or(Lost::Memory)?;
    }
    Ok(summary)
}

/// Serves the script of a number to its end, and writes one line of summary. The cluster keeps the disks that it has.
pub fn generate<K: Sink, X: Disks>(
    alloc: Global,
    cluster: &mut SavedCluster<X::D>,
    disks: &mut X,
    out: &mut K,
    number: u32,
) -> Status
    requires fresh { IsFresh X.D.state (stage cluster.old (X.depot disks.old)) }
    requires may { MayServeSaved X.D.state cluster.old (X.depot disks.old).held }
    ensures told { (written : List ℕ) × Takes (outflow (K.written out.old) (K.took out.old)) (outflow (K.written out.new) (K.took out.new)) written
        × HasPlayed X.D.state (opening_at (stage cluster.old (X.depot disks.old))) number result written
        (stage cluster.new (X.depot disks.new)) }
    ensures close { MayClose cluster.new (X.depot disks.new).held }
    ensures later { (X.D.state cluster.old.meta).faults ≤ (X.D.state cluster.new.meta).faults }
    ensures cause { EndsScript result (K.faulted out.old) (K.faulted out.new) (K.stalled out.old) (K.stalled out.new) (X.D.state cluster.old.meta).faults (X.D.state cluster.new.meta).faults }
{
    let summary = match serve_script(alloc, cluster, disks, number) {
        Ok(summary) => summary,
        Err(why) => return Status::of_lost(why),
    };
    let line = match summary.line(alloc) {
        Ok(line) => line,
        Err(_) => return Status::Memory,
    };
    match write_all(out, line.as_str().as_bytes()) {
        Ok(()) => Status::Done,
        Err(status) => status,
    }
}
