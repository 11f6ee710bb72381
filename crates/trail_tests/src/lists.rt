//! Random scripts over a cluster and its double: the cluster answers as the double does, and its list is as long as the double's, which
//! is legal.
ghost use Rattle.std.specs.Prelude.{◌≡◌, ◌<◌, true, IfOk, IfSome};
ghost use Rattle.saved_cluster.specs.Saved.{MayServeSaved};

use cluster_core::{Event, StepCall, StepReply};
use cluster_members::Members;
use cluster_runs::tell_word;
use cluster_words::{Dice, act_of, script, upkeep_script};
use doubled_turns::{keep, open};
use legal_events::any_legal;
use m3_model::{Memory, Reason, Seq};
use m3_outside::{Disk, Disks};
use mem_disk::MemDisk;
use replica_calls::Replicas;
use replica_doubles::{Double, NODES};
use replica_machine::Machine;
use saved_cluster::SavedCluster;
use std::alloc::Global;
use std::mem::replace;
use std::test::Fail;
use test_disks::{failing_disk, failing_disks};

// A disk like that of the cluster: for shard 0 it fails now and then.
fn disk_for(alloc: Global, dice: &mut Dice, shard: u32) -> Result<MemDisk, Memory> {
    if shard == 0 {
        failing_disk(alloc, dice)
    } else {
        MemDisk::new(alloc, &[], None)
    }
}

fn machines_over(alloc: Global, seed: u64, shards: u32) -> Result<Vec<Machine<MemDisk>>, Memory> {
    let mut dice = Dice::new(seed);
    let mut machines = Vec::new(alloc);
    for shard in 0..shards {
        for _ in 0..NODES {
            let disk = disk_for(alloc, &mut dice, shard)?;
            machines.push(Machine::new(alloc, disk))?;
        }
    }
    Ok(machines)
}

// A list takes 2^62 events.
const MOST_EVENTS: u64 = 1 << 62;

// Whether the cluster's list has so many events.
fn is_as_long<D: Disk>(replicas: &Replicas<D>, len: usize) -> bool {
    let rest = MOST_EVENTS.saturating_sub(len as u64);
    replicas.has_room(rest) && !replicas.has_room(rest.saturating_add(1))
}

fn keep_act<D: Disk>(
    alloc: Global,
    double: &mut Double<D>,
    members: &Members<D>,
    number: u64,
    word: &str,
    told: &str,
    own: &mut String,
) -> Result<(), Memory> {
    let act = act_of(alloc, word)?;
    let said = keep(alloc, double, members, number, &act, told, own);
    drop(act);
    said
}

// Keeps the events of a word, and tells of it where the double has another answer or a list of another length.
fn keep_word<D: Disk>(
    alloc: Global,
    double: &mut Double<D>,
    members: &Members<D>,
    number: u64,
    word: &str,
    told: &str,
    out: &mut String,
) -> Result<(), Memory> {
    let mut kept = String::new(alloc);
    keep_act(alloc, double, members, number, word, told, &mut kept)?;
    let own = kept.as_str();
    if own != told || !is_as_long(&members.net.replicas, double.events.len()) {
        write!(out, "{word} {told} {own} ")?;
    }
    Ok(())
}

// Whether the run goes on.
fn tell_one<X: Disks>(
    alloc: Global,
    double: &mut Double<X::D>,
    cluster: &mut SavedCluster<X::D>,
    disks: &mut X,
    number: u64,
    word: &str,
    out: &mut String,
) -> Result<bool, Memory>
    requires may { MayServeSaved X.D.state cluster.old (X.depot disks.old).held }
    ensures may { IfOk result (λ on. on ≡ true → MayServeSaved X.D.state cluster.new (X.depot disks.new).held) }
{
    let mut answer = String::new(alloc);
    let goes_on = tell_word(alloc, cluster, disks, word, &mut answer)?;
    let told = answer.as_str().trim_end_matches(':');
    match &cluster.cluster.members {
        Some(members) => keep_word(alloc, double, members, number, word, told, out)?,
        None => out.push_str("none ")?,
    }
    Ok(goes_on)
}

// Fates begin the numbers of calls anew.
fn number_after(number: u64, word: &str) -> u64 {
    match word.as_bytes().first() {
        Some(b'f') => 0,
        Some(b'w' | b'r' | b'q') => number.saturating_add(1),
        _ => number,
    }
}

// The cluster and its double begin with the word of an `init`. Whether the run goes on.
fn begin<X: Disks>(
    alloc: Global,
    double: &mut Double<X::D>,
    cluster: &mut SavedCluster<X::D>,
    disks: &mut X,
    head: &str,
) -> Result<bool, Memory>
    requires may { MayServeSaved X.D.state cluster.old (X.depot disks.old).held }
    ensures may { IfOk result (λ on. on ≡ true → MayServeSaved X.D.state cluster.new (X.depot disks.new).held) }
{
    let mut answer = String::new(alloc);
    let goes_on = tell_word(alloc, cluster, disks, head, &mut answer)?;
    if let Some(members) = &cluster.cluster.members {
        open(alloc, double, members)?;
    }
    Ok(goes_on)
}

// Tells the words of a script behind its head, as far as the run goes.
fn tell_words<X: Disks>(
    alloc: Global,
    double: &mut Double<X::D>,
    cluster: &mut SavedCluster<X::D>,
    disks: &mut X,
    script: &str,
    out: &mut String,
) -> Result<(), Memory>
    requires may { MayServeSaved X.D.state cluster.old (X.depot disks.old).held }
{
    let (head, words) = script.split_once(' ').unwrap_or(("", ""));
    let mut goes_on = begin(alloc, double, cluster, disks, head)?;
    let mut number = 0;
    for word in words.split(' ') {
        if !goes_on {
            return Ok(out.push_str("ended ")?);
        }
        goes_on = tell_one(alloc, double, cluster, disks, number, word, out)?;
        number = number_after(number, word);
    }
    Ok(())
}

fn run_beside(
    alloc: Global,
    double: &mut Double<MemDisk>,
    seed: u64,
    script: &str,
    out: &mut String,
) -> Result<(), Memory> {
    let mut disks = failing_disks(alloc, seed)?;
    let mut cluster = match SavedCluster::open(alloc, &mut disks) {
        Ok(cluster) => cluster,
        Err(_) => return Err(Memory),
    };
    let told = tell_words(alloc, double, &mut cluster, &mut disks, script, out);
    drop(cluster);
    drop(disks);
    told
}

// ---- the list

// The kinds of events of which a list has to have some: a fault of a disk, a restart, a write that was acknowledged, and a read that
// enough nodes answered.
fn kind_of(event: &Event) -> Option<usize>
    ensures { IfSome result (λ kind. kind < 4) }
{
    match event {
        Event::Step {
            reply: StepReply::Refused {
                reason: Reason::Disk,
            },
            ..
        } => Some(0),
        Event::Step {
            call: StepCall::Restart,
            ..
        } => Some(1),
        Event::Ack { .. } => Some(2),
        Event::FetchDone { .. } => Some(3),
        _ => None,
    }
}

fn has_each_kind(events: &[Event]) -> bool {
    let mut seen = [false; 4];
    for event in events {
        if let Some(kind) = kind_of(event) {
            seen[kind] = true;
        }
    }
    seen == [true; 4]
}

// How many volumes flushes wrote.
fn volumes_written(events: &[Event]) -> u64 {
    let mut all: u64 = 0;
    for event in events {
        if let Event::Step {
            call: StepCall::Flush { .. },
            reply: StepReply::Count { n },
            ..
        } = event
        {
            all = all.saturating_add(*n);
        }
    }
    all
}

// Whether the double's list is legal, and long enough.
fn tell_list(
    alloc: Global,
    double: &mut Double<MemDisk>,
    volumes: u64,
    out: &mut String,
) -> Result<(), Memory> {
    if volumes_written(double.events.as_slice()) < volumes {
        out.push_str("few volumes ")?;
    }
    if double.events.len() < 500 || !has_each_kind(double.events.as_slice()) {
        out.push_str("few ")?;
    }
    let list = Seq::from_vec(replace(&mut double.events, Vec::new(alloc)));
    let is_legal = any_legal(alloc, &list);
    drop(list);
    Ok(write!(out, "{}", is_legal?)?)
}

fn tell_double(
    alloc: Global,
    double: &mut Double<MemDisk>,
    seed: u64,
    script: &str,
    volumes: u64,
    out: &mut String,
) -> Result<(), Memory> {
    run_beside(alloc, double, seed, script, out)?;
    tell_list(alloc, double, volumes, out)
}

// A script begins with `i1` or `i2`. At least so many volumes have to be written.
fn tell_script(
    alloc: Global,
    seed: u64,
    script: &str,
    volumes: u64,
    out: &mut String,
) -> Result<(), Memory> {
    let shards = if script.starts_with("i1") { 1 } else { 2 };
    let machines = machines_over(alloc, seed, shards)?;
    let mut double = Double::new(alloc, machines);
    let told = tell_double(alloc, &mut double, seed, script, volumes, out);
    drop(double);
    told
}

fn tell_seed(alloc: Global, seed: u64, out: &mut String) -> Result<(), Memory> {
    let script = script(alloc, seed, 200)?;
    write!(out, "{seed}:")?;
    tell_script(alloc, seed, script.as_str(), 0, out)?;
    Ok(out.push('\n')?)
}

fn tell_upkeep(alloc: Global, seed: u64, out: &mut String) -> Result<(), Memory> {
    let script = upkeep_script(alloc, seed, 300)?;
    write!(out, "{seed}:")?;
    tell_script(alloc, seed, script.as_str(), 3, out)?;
    Ok(out.push('\n')?)
}

fn tell_seeds(alloc: Global, seeds: &[u64], out: &mut String) -> Result<(), Memory> {
    for seed in seeds {
        tell_seed(alloc, *seed, out)?;
    }
    Ok(())
}

#[test]
fn lists_are_legal(rt: HostRuntime) -> Result<(), Fail> {
    let mut out = String::new(rt.alloc());
    tell_seeds(rt.alloc(), &[1, 2, 3, 4], &mut out)?;
    assert_eq!(rt; out.as_str(), "1:true\n2:true\n3:true\n4:true\n");
    Ok(())
}

#[test]
fn lists_with_upkeep_are_legal(rt: HostRuntime) -> Result<(), Fail> {
    let mut out = String::new(rt.alloc());
    for seed in [1, 2, 3, 4] {
        tell_upkeep(rt.alloc(), seed, &mut out)?;
    }
    assert_eq!(rt; out.as_str(), "1:true\n2:true\n3:true\n4:true\n");
    Ok(())
}

#[test]
fn other_lists_are_legal(rt: HostRuntime) -> Result<(), Fail> {
    let mut out = String::new(rt.alloc());
    tell_seeds(rt.alloc(), &[5, 6, 7, 8], &mut out)?;
    assert_eq!(rt; out.as_str(), "5:true\n6:true\n7:true\n8:true\n");
    Ok(())
}
