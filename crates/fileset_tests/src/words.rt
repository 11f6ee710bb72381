//! What the words of a story name: volumes, blocks and series.
use disk_stories::{cut, number, small};
use m3_model::{Memory, Seq, Series, Text};
use m3_outside::FileName;
use std::alloc::Global;
use volume_bytes::Head;

/// The file of this kind of the volume `2.100.1`: its namespace, its start and its number.
pub fn part(kind: u8, text: &str) -> FileName {
    let (ns, rest) = cut(text, '.');
    let (block, last) = cut(rest, '.');
    FileName {
        kind,
        ns: small(ns),
        block: number(block),
        number: number(last),
    }
}

/// The block `2.100.50`: its namespace, its start and its size.
pub fn block(text: &str) -> Head {
    let (ns, rest) = cut(text, '.');
    let (start, size) = cut(rest, '.');
    Head {
        ns: small(ns),
        start: number(start),
        size: number(size),
        number: 0,
    }
}

fn pairs(alloc: Global, text: &str) -> Result<Vec<(u64, i64)>, Memory> {
    let mut pairs = Vec::new(alloc);
    for pair in text.split(',') {
        if let Some((t, v)) = pair.split_once('=') {
            pairs.push((number(t), v.parse::<i64>().unwrap_or(0)))?;
        }
    }
    Ok(pairs)
}

// A series with its times and values, as `hello,100=5,120=-3`.
fn one(alloc: Global, text: &str) -> Result<Series, Memory> {
    let (id, rest) = cut(text, ',');
    let points = Seq::from_vec(pairs(alloc, rest)?);
    Ok(Series {
        id: Text::from_str(alloc, id)?,
        points,
    })
}

/// Series, one behind the other, with `;` between them.
pub fn series(alloc: Global, text: &str) -> Result<Seq<Series>, Memory> {
    let mut all = Vec::new(alloc);
    for text in text.split(';') {
        all.push(one(alloc, text)?)?;
    }
    Ok(Seq::from_vec(all))
}

// The series s07, with the value 7 at 1007, for 7.
fn numbered(alloc: Global, number: u64) -> Result<Series, Memory> {
    let id = format!(in alloc; "s{number:02},{}={number}", number.saturating_add(1000))?;
    one(alloc, id.as_str())
}

/// So many series: s00, s01 and so on.
pub fn many(alloc: Global, count: u64) -> Result<Seq<Series>, Memory> {
    let mut all = Vec::new(alloc);
    for number in 0..count.min(100) {
        all.push(numbered(alloc, number)?)?;
    }
    Ok(Seq::from_vec(all))
}
