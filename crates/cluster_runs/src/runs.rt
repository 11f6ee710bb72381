//! Words that a cluster serves, with what it answers.
ghost use Rattle.std.specs.Prelude.{◌≡◌, ◌≢◌, true, IfOk};
ghost use Rattle.cluster_members.specs.session_net.Ready.{IsReady};
ghost use Rattle.m3_outside.specs.Slots.{Out};
ghost use Rattle.m3_outside.specs.declared.slot.DiskSlot.{DiskSlot as AtSlot};
ghost use Rattle.saved_cluster.specs.Saved.{MayClose, MayServeSaved};

use cluster_members::Members;
use cluster_words::{act_of, spell_placement, spell_reply};
use m3_model::{Memory, Placement, Request};
use m3_outside::Disks;
use saved_cluster::SavedCluster;
use served_cluster::Cluster;
use std::alloc::Global;

fn spell_place(place: Option<&Placement>, out: &mut String) -> Result<(), Memory> {
    match place {
        Some(place) => spell_placement(out, place),
        None => Ok(out.push_str("none")?),
    }
}

/// The answer to a word, with a colon, and whether the run goes on. For `p` it is the placement that stands; a run that ends says why.
pub fn tell_word<X: Disks>(
    alloc: Global,
    cluster: &mut SavedCluster<X::D>,
    disks: &mut X,
    word: &str,
    out: &mut String,
) -> Result<bool, Memory>
    requires may { MayServeSaved X.D.state cluster.old (X.depot disks.old).held }
    ensures may { IfOk result (λ on. on ≡ true → MayServeSaved X.D.state cluster.new (X.depot disks.new).held) }
    ensures close { MayClose cluster.new (X.depot disks.new).held }
{
    if word == "p" {
        spell_place(cluster.place(), out)?;
        out.push(':')?;
        return Ok(true);
    }
    let act = act_of(alloc, word)?;
    match cluster.serve(alloc, disks, Request::One(act)) {
        Ok(reply) => {
            spell_reply(out, &reply)?;
            out.push(':')?;
            Ok(true)
        }
        Err(lost) => {
            write!(out, "{lost}")?;
            Ok(false)
        }
    }
}

// The answers to words, as far as the run goes.
fn tell<X: Disks>(
    alloc: Global,
    cluster: &mut SavedCluster<X::D>,
    disks: &mut X,
    words: &str,
    out: &mut String,
) -> Result<(), Memory>
    requires may { MayServeSaved X.D.state cluster.old (X.depot disks.old).held }
    ensures close { MayClose cluster.new (X.depot disks.new).held }
{
    for word in words.split(' ') {
        if !tell_word(alloc, cluster, disks, word, out)? {
            return Ok(());
        }
    }
    Ok(())
}

/// What a cluster opened over these disks answers to words, each answer ended by a colon; or why it couldn't be opened. The disks are
/// given back.
pub fn run<X: Disks>(
    alloc: Global,
    disks: &mut X,
    words: &str,
    out: &mut String,
) -> Result<(), Memory>
    requires free { (slot : AtSlot) → (X.depot disks.old).held slot ≢ Out }
    ensures free { (slot : AtSlot) → (X.depot disks.new).held slot ≢ Out }
{
    let mut cluster = match SavedCluster::open(alloc, disks) {
        Ok(cluster) => cluster,
        Err(why) => return Ok(write!(out, "{why}")?),
    };
    let told = tell(alloc, &mut cluster, disks, words, out);
    cluster.close(disks);
    told
}

/// The members of a cluster opened over these disks that was told such words, with what it answered. Their disks stay out.
///
/// # Errors
///
/// None stands then; or want of memory.
pub fn members_after<X: Disks>(
    alloc: Global,
    disks: &mut X,
    words: &str,
    out: &mut String,
) -> Result<Members<X::D>, Memory>
    requires free { (slot : AtSlot) → (X.depot disks.old).held slot ≢ Out }
    ensures ready { IfOk result (λ m. IsReady m.net.state m.net.replicas m.net.bag) }
{
    let mut saved = match SavedCluster::open(alloc, disks) {
        Ok(saved) => saved,
        Err(_) => return Err(Memory),
    };
    tell(alloc, &mut saved, disks, words, out)?;
    let SavedCluster { cluster, .. } = saved;
    let Cluster { members, .. } = cluster;
    match members {
        Some(members) => Ok(members),
        None => Err(Memory),
    }
}
