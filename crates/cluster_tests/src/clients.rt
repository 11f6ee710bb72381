//! Calls of one of several clients, whose numbers and fates are its own.
ghost use Rattle.std.specs.Prelude.{◌≢◌};
ghost use Rattle.m3_outside.specs.Slots.{Out};
ghost use Rattle.m3_outside.specs.declared.slot.DiskSlot.{DiskSlot};
ghost use Rattle.cluster_tests.specs.Ready.{IsReadyCluster};

use cluster_members::{Members, Range};
use cluster_runs::members_after;
use cluster_words::{identifier, name, number, read_level, spell, text, value, write_level};
use m3_model::{Answer, Memory};
use m3_outside::{Disk, Disks};
use node_calls::deliver;
use replica_exchange::CallId;
use std::alloc::Global;
use std::test::Fail;
use test_disks::disks_with;

fn write<D: Disk>(
    alloc: Global,
    members: &mut Members<D>,
    id: CallId,
    level: u8,
    point: &str,
) -> Result<Answer, Memory>
    requires ready { IsReadyCluster members.old }
    ensures ready { IsReadyCluster members.new }
{
    let (t, v) = point.split_once('=').unwrap_or(("", ""));
    let level = write_level(level);
    let ns = name(alloc, b'm')?;
    let series = identifier(alloc, b'u')?;
    Ok(members.write(alloc, id, ns, series, number(t), value(v), level, None))
}

fn fetch<D: Disk>(
    alloc: Global,
    members: &mut Members<D>,
    id: CallId,
    level: u8,
) -> Result<Answer, Memory>
    requires ready { IsReadyCluster members.old }
    ensures ready { IsReadyCluster members.new }
{
    let range = Range { from: 0, to: 1000 };
    let level = read_level(level);
    let ns = name(alloc, b'm')?;
    let series = identifier(alloc, b'u')?;
    Ok(members.fetch(alloc, id, ns, series, range, level, None))
}

// `wA100=5` writes 5 at 100 to the series u of m as this call, at level All, `rA` fetches all of it, and `d` delivers late messages.
fn call<D: Disk>(
    alloc: Global,
    members: &mut Members<D>,
    id: CallId,
    word: &str,
) -> Result<Answer, Memory>
    requires ready { IsReadyCluster members.old }
    ensures ready { IsReadyCluster members.new }
{
    match word.as_bytes() {
        [b'w', level, point @ ..] => write(alloc, members, id, *level, text(point)),
        [b'r', level] => fetch(alloc, members, id, *level),
        _ => Ok(deliver(members, alloc)),
    }
}

// The answers to the words of the client, each ended by a colon. Their positions are the numbers of its calls.
fn tell_client<D: Disk>(
    alloc: Global,
    members: &mut Members<D>,
    client: u32,
    words: &str,
    out: &mut String,
) -> Result<(), Memory>
    requires ready { IsReadyCluster members.old }
{
    for (at, word) in words.split(' ').enumerate() {
        let number = at as u64;
        let answer = call(alloc, members, CallId { client, number }, word)?;
        spell(out, &answer)?;
        out.push(':')?;
    }
    Ok(())
}

// What is answered to words, and then to those of the client.
fn story<X: Disks>(
    alloc: Global,
    disks: &mut X,
    words: &str,
    client: u32,
    calls: &str,
    out: &mut String,
) -> Result<(), Memory>
    requires free { (slot : DiskSlot) → (X.depot disks.old).held slot ≢ Out }
{
    let mut members = members_after(alloc, disks, words, out)?;
    if members.past.len() > 0 {
        return Err(Memory);
    }
    out.push('|')?;
    let told = tell_client(alloc, &mut members, client, calls, out);
    drop(members);
    told
}

// Fates of a client are those of its own calls, whatever others have the same number.
#[test]
fn fates_are_of_one_client(rt: HostRuntime) -> Result<(), Fail> {
    let mut disks = disks_with(rt.alloc(), (0, 0), &[], None)?;
    let mut out = String::new(rt.alloc());
    let words = "i1 nm t100 f00aL,30bL,31cB,41aL";
    let calls = "wA100=5 wM100=6 wA101=7 d rA";
    story(rt.alloc(), &mut disks, words, 3, calls, &mut out)?;
    assert_eq!(rt;
        out.as_str(),
        "v1[abc]:ok:ok:ok:|2/3bx:ab:abc:c+:u100=6,101=7,.:"
    );
    Ok(())
}
