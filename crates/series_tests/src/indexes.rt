use crate::tags::tags_of;
use m3_model::{Memory, Seq, Text};
use std::alloc::Global;
use std::test::Fail;
use tag_index::Index;
use tag_index::laws::postings_agree;

// Calls on one index, each before its answer.
const CALLS: &str = "add a dc:x;host:h1 => 0
add b dc:x;host:h2 => 1
add c dc:y => 2
add a dc:y => 0
posting dc:x => 0 1
posting dc:y => 2
posting dc: =>
remove b => true
remove b => false
has b => false
has a => true
posting dc:x => 0
posting host:h2 =>
all => 0 2
id 1 => none
add d dc:x => 1
id 1 => d
id 3 => none
posting dc:x => 0 1
all => 0 1 2
remove c => true
posting dc:y =>
posting dc:x => 0 1
add e dc:y => 2
posting dc:y => 2
remove a => true
posting host:h1 =>
posting dc:x => 1";

fn list(ordinals: Result<Seq<u32>, Memory>, out: &mut String) -> Result<(), Fail> {
    for ordinal in ordinals?.as_slice() {
        write!(out, " {ordinal}")?;
    }
    Ok(())
}

fn add(alloc: Global, index: &mut Index, id: &str, tags: &str) -> Result<u32, Fail> {
    let tags = tags_of(alloc, tags)?;
    let id = Text::from_string(String::from_str(alloc, id)?);
    Ok(index.add(&id, &tags)?)
}

fn name_of<'a>(index: &'a Index, ordinal: &str) -> &'a str {
    match index.id(ordinal.parse().unwrap_or(u32::MAX)) {
        Some(id) => id.as_str(),
        None => "none",
    }
}

// Does what the call says, and writes its answer.
fn act(
    alloc: Global,
    index: &mut Index,
    verb: &str,
    rest: &str,
    out: &mut String,
) -> Result<(), Fail> {
    let (first, second) = rest.split_once(' ').unwrap_or((rest, ""));
    match verb {
        "add" => write!(out, " {}", add(alloc, index, first, second)?)?,
        "posting" => {
            let (name, value) = first.split_once(':').unwrap_or(("", ""));
            list(index.posting(name, value), out)?;
        }
        "all" => list(index.all(), out)?,
        "id" => write!(out, " {}", name_of(index, first))?,
        "has" => write!(out, " {}", index.has(first))?,
        _ => write!(out, " {}", index.remove(first))?,
    }
    Ok(())
}

// Each call of the rows on one index, with its answer.
fn told(alloc: Global, rows: &str, out: &mut String) -> Result<(), Fail> {
    let mut index = Index::new(alloc);
    for row in rows.lines() {
        let (call, _) = row.split_once(" =>").unwrap_or(("", ""));
        let (verb, rest) = call.split_once(' ').unwrap_or((call, ""));
        write!(out, "{call} =>")?;
        act(alloc, &mut index, verb, rest, out)?;
        out.push('\n')?;
    }
    Ok(())
}

#[test]
fn series_come_and_go(rt: HostRuntime) -> Result<(), Fail> {
    let mut out = String::new(rt.alloc());
    told(rt.alloc(), CALLS, &mut out)?;
    assert_eq!(rt; out.as_str().trim_end(), CALLS);
    postings_agree();
    Ok(())
}
