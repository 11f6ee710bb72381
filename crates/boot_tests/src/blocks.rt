use block_cache::Cache;
use block_cache::laws::{last_goes, only_what_was_put, others_stay, put_is_found};
use m3_model::{Memory, Seq, Series, Text};
use std::alloc::Global;
use std::test::Fail;

// Calls of a cache of two blocks: what is got is the identifier of its rows, or `-`; then how many are held.
const CALLS: &str = "g1 => - 0
p1 => 1
p2 => 2
g1 => 1 2
p3 => 2
g2 => - 2
g3 => 3 2
g1 => 1 2
p1 => 2
p4 => 2
g3 => - 2
f1 => 1
g1 => - 1
g4 => 4 1
f9 => 1";

// The key of a block, and rows whose identifier is its digit.
fn rows(alloc: Global, digit: &str) -> Result<Seq<Series>, Memory> {
    let id = Text::from_str(alloc, digit)?;
    let points = Seq::new(alloc);
    let mut list = Vec::new(alloc);
    list.push(Series { id, points })?;
    Ok(Seq::from_vec(list))
}

fn key(digit: &str) -> (u8, u64, u64) {
    match digit.as_bytes() {
        [byte] => (0, 200, (*byte & 15) as u64),
        _ => (0, 200, 0),
    }
}

fn get(cache: &mut Cache, digit: &str, out: &mut String) -> Result<(), Fail> {
    match cache.get(key(digit)) {
        Some(rows) => {
            for series in rows.as_slice() {
                write!(out, "{} ", series.id.as_str())?;
            }
        }
        None => write!(out, "- ")?,
    }
    Ok(())
}

fn call(alloc: Global, cache: &mut Cache, asked: &str, out: &mut String) -> Result<(), Fail> {
    if let Some(digit) = asked.strip_prefix("g") {
        get(cache, digit, out)?;
    } else if let Some(digit) = asked.strip_prefix("p") {
        let rows = rows(alloc, digit)?;
        cache.put(key(digit), rows).map_err(|_| Memory)?;
    } else {
        cache.forget(key(asked.strip_prefix("f").unwrap_or("")));
    }
    Ok(())
}

fn told(alloc: Global, out: &mut String) -> Result<(), Fail> {
    let mut cache = Cache::new(alloc, 2)?;
    for row in CALLS.lines() {
        let (asked, _) = row.split_once(" => ").unwrap_or(("", ""));
        write!(out, "{asked} => ")?;
        call(alloc, &mut cache, asked, out)?;
        writeln!(out, "{}", cache.len())?;
    }
    Ok(())
}

#[test]
fn blocks_used_last_are_held(rt: HostRuntime) -> Result<(), Fail> {
    let mut out = String::new(rt.alloc());
    told(rt.alloc(), &mut out)?;
    assert_eq!(rt; out.trim_end(), CALLS);
    put_is_found();
    others_stay();
    only_what_was_put();
    last_goes();
    Ok(())
}
