//! Calls of the replicas of a cluster by slot: fences, stops, restarts and reports.
ghost use Rattle.std.specs.Prelude.{◌≢◌};
ghost use Rattle.m3_outside.specs.Slots.{Out};
ghost use Rattle.m3_outside.specs.declared.slot.DiskSlot.{DiskSlot};

use cluster_members::Members;
use cluster_runs::members_after;
use cluster_words::{letter_of_reason, number, text};
use m3_model::{Memory, Report, Standing};
use m3_outside::{Disk, Disks};
use replica_calls::Replicas;
use replica_exchange::{CallErr, Slot};
use std::alloc::Global;
use std::test::Fail;
use test_disks::disks_with;

fn spell_refusal(out: &mut String, refused: &CallErr) -> Result<(), Memory> {
    match refused {
        CallErr::Refused(why) => Ok(out.push(letter_of_reason(why))?),
        CallErr::Full => Ok(out.push_str("full")?),
    }
}

fn spell_call(out: &mut String, said: Result<(), CallErr>) -> Result<(), Memory> {
    match said {
        Ok(()) => Ok(out.push_str("ok")?),
        Err(refused) => spell_refusal(out, &refused),
    }
}

// Whether it is open, at boot or down, its fence and how many points it holds: `o1/2`.
fn spell_report(out: &mut String, said: Result<Report, CallErr>) -> Result<(), Memory> {
    match said {
        Ok(report) => {
            let standing = match report.standing {
                Standing::Open => 'o',
                Standing::Boot => 'b',
                Standing::Down => 'd',
            };
            write!(out, "{standing}{}/{}", report.fence, report.buffered)?;
            Ok(())
        }
        Err(refused) => spell_refusal(out, &refused),
    }
}

fn slot_of(node: u8, shard: u8) -> Slot {
    let node = match node {
        b'a' => 0,
        b'b' => 1,
        b'c' => 2,
        _ => 3,
    };
    Slot {
        shard: (shard & 15) as u32,
        node,
    }
}

// `fa03` raises the fence of the replica of a for shard 0 to 3, `sa0` stops it, `ua07` restarts it with the pick 7, and `ra0`
// has it report.
fn call<D: Disk>(replicas: &mut Replicas<D>, word: &str, out: &mut String) -> Result<(), Memory> {
    match word.as_bytes() {
        [b'f', node, shard, version @ ..] => {
            let said = replicas.fence(slot_of(*node, *shard), number(text(version)));
            spell_call(out, said)
        }
        [b's', node, shard] => spell_call(out, replicas.stop(slot_of(*node, *shard))),
        [b'u', node, shard, pick @ ..] => {
            let said = replicas.restart(slot_of(*node, *shard), number(text(pick)));
            spell_call(out, said)
        }
        [b'r', node, shard] => spell_report(out, replicas.report(slot_of(*node, *shard))),
        _ => Err(Memory),
    }
}

fn call_all<D: Disk>(
    replicas: &mut Replicas<D>,
    words: &str,
    out: &mut String,
) -> Result<(), Memory> {
    for word in words.split(' ') {
        call(replicas, word, out)?;
        out.push(':')?;
    }
    Ok(())
}

fn call_replicas<D: Disk>(
    members: &mut Members<D>,
    words: &str,
    out: &mut String,
) -> Result<(), Memory> {
    call_all(&mut members.net.replicas, words, out)
}

// What the cluster answers, and then its replicas.
fn story<X: Disks>(
    alloc: Global,
    disks: &mut X,
    words: &str,
    calls: &str,
    out: &mut String,
) -> Result<(), Memory>
    requires free { (slot : DiskSlot) → (X.depot disks.old).held slot ≢ Out }
{
    let mut members = members_after(alloc, disks, words, out)?;
    out.push('|')?;
    let told = call_replicas(&mut members, calls, out);
    drop(members);
    told
}

fn tell_rows(alloc: Global, rows: &str, out: &mut String) -> Result<(), Memory> {
    for row in rows.lines() {
        let (told, _) = row.split_once('>').unwrap_or(("", ""));
        let (words, calls) = told.split_once('|').unwrap_or(("", ""));
        out.push_str(told)?;
        out.push('>')?;
        let mut disks = disks_with(alloc, (2, 0), &[], None)?;
        story(alloc, &mut disks, words, calls, out)?;
        out.push('\n')?;
    }
    Ok(())
}

// Words of the cluster, calls of its replicas behind them, and what both are answered. A slot without a replica owns nothing. A
// fence never falls; it is 0 of a replica that isn't open, which holds no points then.
const ROWS: &str =
    "i1 nm t100 wmuA100=5 wmuM101=6 wmuM101=7 sc|ra0 rb0 rc0 rx0 ra1 fx03 sx0 ux0>v1[abc]:ok:ok:abc:abc:abc:ok:|o1/2:o1/2:d0/0:n:n:n:n:n:
i1 nm t100 wmuA100=5|fa03 ra0 fa02 ra0 sa0 ra0 fa04 sa0 ua09 ra0 fa04 ub0 rb0 rc0>v1[abc]:ok:ok:abc:|ok:o3/1:ok:o3/1:ok:d0/0:-:ok:ok:b0/0:^:ok:b0/0:o1/1:";

#[test]
fn replicas_are_told(rt: HostRuntime) -> Result<(), Fail> {
    let mut out = String::new(rt.alloc());
    tell_rows(rt.alloc(), ROWS, &mut out)?;
    assert_eq!(rt; out.as_str().trim_end(), ROWS);
    Ok(())
}
