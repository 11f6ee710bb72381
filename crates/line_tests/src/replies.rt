use m3_model::{
    Answer, Assignment, Damage, Instance, Memory, Placement, Reason, RepairLine, Reply, Seq,
    Series, ShardState, Standing, StatusLine, Text,
};
use m3_replies::print_reply;
use std::alloc::Global;
use std::test::Fail;

fn one<T: Drop>(alloc: Global, item: T) -> Result<Seq<T>, Memory> {
    let mut items = Vec::new(alloc);
    items.push(item)?;
    Ok(Seq::from_vec(items))
}

fn nodes(alloc: Global, list: &[u8]) -> Result<Seq<u8>, Memory> {
    Ok(Seq::from_vec(list.to_vec(alloc)?))
}

fn instance(alloc: Global, name: &str, group: &str, listed: bool) -> Result<Instance, Memory> {
    Ok(Instance {
        name: Text::from_str(alloc, name)?,
        group: Text::from_str(alloc, group)?,
        listed,
        drained: false,
    })
}

// Nodes 0 to 3 are a, c, b, and d, which isn't listed.
fn instances(alloc: Global) -> Result<Seq<Instance>, Memory> {
    let mut all = Vec::new(alloc);
    all.push(instance(alloc, "a", "g1", true)?)?;
    all.push(instance(alloc, "c", "g3", true)?)?;
    all.push(instance(alloc, "b", "g2", true)?)?;
    all.push(instance(alloc, "d", "g4", false)?)?;
    Ok(Seq::from_vec(all))
}

fn placement(alloc: Global, shard: &[Assignment]) -> Result<Placement, Memory> {
    Ok(Placement {
        version: 1,
        rf: 3,
        instances: instances(alloc)?,
        shards: one(alloc, Seq::from_vec(shard.to_vec(alloc)?))?,
    })
}

fn assigned(node: u8, state: ShardState, tenure: u64, source: Option<u8>) -> Assignment {
    Assignment {
        node,
        tenure,
        state,
        source,
    }
}

fn place(alloc: Global) -> Result<Placement, Memory> {
    let shard = [
        assigned(1, ShardState::Available, 1, None),
        assigned(2, ShardState::Available, 1, None),
        assigned(0, ShardState::Available, 1, None),
    ];
    placement(alloc, &shard)
}

fn moved(alloc: Global) -> Result<Placement, Memory> {
    let shard = [
        assigned(0, ShardState::Leaving, 1, None),
        assigned(1, ShardState::Available, 1, None),
        assigned(2, ShardState::Initializing, 2, Some(0)),
    ];
    placement(alloc, &shard)
}

fn placed(alloc: Global) -> Result<Answer, Memory> {
    Ok(Answer::Placed {
        placement: place(alloc)?,
        version: 1,
    })
}

fn available(alloc: Global) -> Result<Answer, Memory> {
    Ok(Answer::Available {
        available: one(alloc, (0, nodes(alloc, &[0, 1])?))?,
        placement: moved(alloc)?,
        version: 2,
    })
}

fn acks(alloc: Global) -> Result<Answer, Memory> {
    let acks = nodes(alloc, &[0, 2, 1])?;
    Ok(Answer::Acks { acks })
}

fn found(alloc: Global, id: &str, points: &[(u64, i64)], short: bool) -> Result<Answer, Memory> {
    let series = Series {
        id: Text::from_str(alloc, id)?,
        points: Seq::from_vec(points.to_vec(alloc)?),
    };
    let series = one(alloc, series)?;
    Ok(Answer::Found { series, short })
}

fn outcomes(alloc: Global, reason: Option<Reason>) -> Result<Answer, Memory> {
    let outcomes = one(alloc, (2, 0, reason))?;
    Ok(Answer::Outcomes { outcomes })
}

fn swept(alloc: Global) -> Result<Answer, Memory> {
    let done = one(alloc, (0, 0, 12))?;
    let failed = one(alloc, (1, 0, Reason::Disk))?;
    Ok(Answer::Swept { done, failed })
}

fn repaired(alloc: Global) -> Result<Answer, Memory> {
    let shard = RepairLine {
        digests: one(alloc, (0, [171u8; 32]))?,
        failed: one(alloc, (1, Reason::Down))?,
        merged: 4,
        shard: 0,
    };
    let shards = one(alloc, shard)?;
    Ok(Answer::Repaired { shards })
}

fn status(alloc: Global, standing: Standing) -> Result<Answer, Memory> {
    let line = StatusLine {
        buffered: 0,
        fence: 1,
        node: 0,
        segments: 1,
        shard: 0,
        snapshot: 1,
        standing,
        state: ShardState::Available,
        volumes: 1,
    };
    Ok(Answer::Status {
        now: 5,
        replicas: one(alloc, line)?,
        version: 1,
    })
}

fn unknown(alloc: Global) -> Result<Answer, Memory> {
    let name = Text::from_str(alloc, "zz")?;
    Ok(Answer::Unknown { name })
}

fn busy(alloc: Global) -> Result<Answer, Memory> {
    let node = Text::from_str(alloc, "d")?;
    Ok(Answer::Busy { node, shard: 0 })
}

fn disk(alloc: Global) -> Result<Answer, Memory> {
    let node = Text::from_str(alloc, "a")?;
    Ok(Answer::Disk { node, shard: 1 })
}

fn state(alloc: Global) -> Result<Answer, Memory> {
    let node = Text::from_str(alloc, "a")?;
    Ok(Answer::State { node })
}

fn consistency(alloc: Global) -> Result<Answer, Memory> {
    let mut reasons = Vec::new(alloc);
    for node in [0, 2, 1] {
        reasons.push((node, Reason::Past))?;
    }
    Ok(Answer::Consistency {
        got: 0,
        needed: 2,
        reasons: Seq::from_vec(reasons),
        shard: 0,
    })
}

fn peers(alloc: Global, reason: Reason) -> Result<Answer, Memory> {
    Ok(Answer::Peers {
        got: 1,
        needed: 2,
        reasons: one(alloc, (0, reason))?,
        shard: 3,
    })
}

fn digest_damage(alloc: Global) -> Result<Damage, Memory> {
    let file = Text::from_str(alloc, "log")?;
    Ok(Damage::Digest {
        file,
        kept: [16u8; 32],
        found: [255u8; 32],
    })
}

fn form_damage(alloc: Global) -> Result<Damage, Memory> {
    let file = Text::from_str(alloc, "log")?;
    Ok(Damage::Form { file, at: 9 })
}

fn corrupt(alloc: Global, damage: Damage) -> Result<Answer, Memory> {
    match Text::from_str(alloc, "a") {
        Err(_) => Err(Memory),
        Ok(node) => Ok(Answer::Corrupt {
            node,
            shard: 0,
            damage,
        }),
    }
}

// An answer that is no refusal, by a word; one that isn't listed is done.
fn service(alloc: Global, word: &str) -> Result<Answer, Memory> {
    match word {
        "placed" => placed(alloc),
        "available" => available(alloc),
        "acks" => acks(alloc),
        "found" => found(alloc, "hello", &[(100, 5)], false),
        "short" => found(alloc, "a\"b\n", &[(0, -1), (7, 9)], true),
        "stale" => outcomes(alloc, Some(Reason::Stale { fence: 3 })),
        "took" => outcomes(alloc, None),
        "swept" => swept(alloc),
        "repaired" => repaired(alloc),
        "status" => status(alloc, Standing::Open),
        _ => Ok(Answer::Done),
    }
}

// A refusal by a word; one that isn't listed is of the form.
fn refusal(alloc: Global, word: &str) -> Result<Answer, Memory> {
    match word {
        "long" => Ok(Answer::Long),
        "order" => Ok(Answer::Order),
        "unknown" => unknown(alloc),
        "limit" => Ok(Answer::Limit { limit: 64 }),
        "clock" => Ok(Answer::Clock { now: 100 }),
        "consistency" => consistency(alloc),
        "busy" => busy(alloc),
        "group" => Ok(Answer::Group { shard: 2 }),
        "peers" => peers(alloc, Reason::Stale { fence: 2 }),
        "disk" => disk(alloc),
        "state" => state(alloc),
        "memory" => Ok(Answer::Memory),
        "full" => Ok(Answer::Full),
        "digest" => corrupt(alloc, digest_damage(alloc)?),
        "damage" => corrupt(alloc, form_damage(alloc)?),
        "later" => Ok(Answer::Later),
        _ => Ok(Answer::Form),
    }
}

fn printed(alloc: Global, reply: &Reply, place: Option<&Placement>) -> Result<String, Fail> {
    let mut text = Vec::new(alloc);
    print_reply(alloc, &mut text, reply, place)?;
    Ok(String::from_utf8(text)?)
}

fn print(alloc: Global, reply: &Reply) -> Result<String, Fail> {
    let place = place(alloc)?;
    printed(alloc, reply, Some(&place))
}

fn print_service(alloc: Global, word: &str) -> Result<String, Fail> {
    let reply = Reply::One(service(alloc, word)?);
    print(alloc, &reply)
}

fn print_refusal(alloc: Global, word: &str) -> Result<String, Fail> {
    let reply = Reply::One(refusal(alloc, word)?);
    print(alloc, &reply)
}

// Answers by their words, and the lines that they are printed as.
const SERVICES: &str =
    r#"placed {"ok":true,"placement":{"instances":[["a","g1",false],["b","g2",false],["c","g3",false]],"rf":3,"shards":[[["a","available",1],["b","available",1],["c","available",1]]]},"version":1}
available {"available":[[0,["a","c"]]],"ok":true,"placement":{"instances":[["a","g1",false],["b","g2",false],["c","g3",false]],"rf":3,"shards":[[["a","leaving",1],["b","initializing",2,"a"],["c","available",1]]]},"version":2}
done {"ok":true}
acks {"acks":["a","b","c"],"ok":true}
found {"ok":true,"series":[{"id":"hello","points":[[100,5]]}],"short":false}
short {"ok":true,"series":[{"id":"a\"b\n","points":[[0,-1],[7,9]]}],"short":true}
stale {"ok":true,"outcomes":[["b",0,"stale",3]]}
took {"ok":true,"outcomes":[["b",0,"took"]]}
swept {"done":[["a",0,12]],"failed":[["c",0,"disk"]],"ok":true}
repaired {"ok":true,"shards":[{"digests":[["a","abababababababababababababababababababababababababababababababab"]],"failed":[["c","down"]],"merged":4,"shard":0}]}
status {"now":5,"ok":true,"replicas":[{"buffered":0,"fence":1,"node":"a","segments":1,"shard":0,"snapshot":1,"standing":"open","state":"available","volumes":1}],"version":1}"#;

const REFUSALS: &str = r#"form {"code":1,"error":"form","ok":false}
long {"code":2,"error":"long","ok":false}
order {"code":3,"error":"order","ok":false}
unknown {"code":4,"error":"unknown","name":"zz","ok":false}
limit {"code":5,"error":"limit","limit":64,"ok":false}
clock {"code":6,"error":"clock","now":100,"ok":false}
consistency {"code":7,"error":"consistency","got":0,"needed":2,"ok":false,"reasons":[["a","past"],["b","past"],["c","past"]],"shard":0}
busy {"code":8,"error":"busy","node":"d","ok":false,"shard":0}
group {"code":9,"error":"group","ok":false,"shard":2}
peers {"code":10,"error":"peers","got":1,"needed":2,"ok":false,"reasons":[["a","stale",2]],"shard":3}
disk {"code":11,"error":"disk","node":"a","ok":false,"shard":1}
state {"code":12,"error":"state","node":"a","ok":false}
memory {"code":13,"error":"memory","ok":false}
full {"code":14,"error":"full","ok":false}
digest {"code":15,"error":"corrupt","file":"log","found":"ffffffffffffffffffffffffffffffffffffffffffffffffffffffffffffffff","kept":"1010101010101010101010101010101010101010101010101010101010101010","node":"a","ok":false,"shard":0}
damage {"at":9,"code":15,"error":"corrupt","file":"log","node":"a","ok":false,"shard":0}
later {"code":16,"error":"later","ok":false}"#;

fn print_services(alloc: Global, rows: &str, out: &mut String) -> Result<(), Fail> {
    for row in rows.lines() {
        let (word, _) = row.split_once(' ').unwrap_or(("", ""));
        let text = print_service(alloc, word)?;
        write!(out, "{word} {}\n", text.as_str())?;
    }
    Ok(())
}

#[test]
fn prints_services(rt: HostRuntime) -> Result<(), Fail> {
    let mut out = String::new(rt.alloc());
    print_services(rt.alloc(), SERVICES, &mut out)?;
    assert_eq!(rt; out.as_str().trim_end(), SERVICES);
    Ok(())
}

fn print_refusals(alloc: Global, rows: &str, out: &mut String) -> Result<(), Fail> {
    for row in rows.lines() {
        let (word, _) = row.split_once(' ').unwrap_or(("", ""));
        let text = print_refusal(alloc, word)?;
        write!(out, "{word} {}\n", text.as_str())?;
    }
    Ok(())
}

#[test]
fn prints_refusals(rt: HostRuntime) -> Result<(), Fail> {
    let mut out = String::new(rt.alloc());
    print_refusals(rt.alloc(), REFUSALS, &mut out)?;
    assert_eq!(rt; out.as_str().trim_end(), REFUSALS);
    Ok(())
}

// The replies of one client, where there is no placement yet.
fn beside(alloc: Global) -> Result<String, Fail> {
    let client = one(alloc, Answer::Later)?;
    let reply = Reply::Par {
        clients: one(alloc, client)?,
        workers: Seq::new(alloc),
    };
    printed(alloc, &reply, None)
}

#[test]
fn prints_lists_of_replies(rt: HostRuntime) -> Result<(), Fail> {
    let want = r#"{"clients":[[{"code":16,"error":"later","ok":false}]],"ok":true,"workers":[]}"#;
    assert_eq!(rt; beside(rt.alloc())?.as_str(), want);
    Ok(())
}
