ghost use Rattle.std.specs.Prelude.{IfOk};
ghost use Rattle.m3_model.specs.Reads.{IsOrdered};

use block_buffer::Buffer;
use m3_model::{Pick, Point, Seq, Series, Text};
use series_merge::laws::stands_for_its_points;
use series_merge::merge;
use std::alloc::Global;
use std::test::Fail;

// Rows of two lists and of their merge; a series is its identifier, and behind it its times with their values.
const MERGES: &str = "||
a 1=5||a 1=5
|a 1=5;b 2=6|a 1=5;b 2=6
a 1=5|b 1=7|a 1=5;b 1=7
b 1=7|a 1=5|a 1=5;b 1=7
a 1=5;c 2=7|b 3=1;d 4=2|a 1=5;b 3=1;c 2=7;d 4=2
a 1=5 2=6;b 1=1|a 1=5 2=6;b 1=1|a 1=5 2=6;b 1=1
a 1=5 2=-3|a 1=4 2=-1|a 1=5 2=-1
a 1=5 3=1|a 2=9 4=0|a 1=5 2=9 3=1 4=0
a 1=5 2=6|a 3=7|a 1=5 2=6 3=7
a 3=7|a 1=5 2=6|a 1=5 2=6 3=7
a 1=5 2=6|a 2=8 3=7|a 1=5 2=8 3=7
a 2=0;ab 1=1;b 1=2|a 1=0;aa 1=1;b 1=3|a 1=0 2=0;aa 1=1;ab 1=1;b 1=3
";

fn put_pairs(alloc: Global, buffer: &mut Buffer, id: &str, pairs: &str) -> Result<(), Fail> {
    for pair in pairs.split(' ') {
        let (t, v) = pair.split_once('=').unwrap_or(("", ""));
        let id = Text::from_str(alloc, id)?;
        let t = t.parse::<u64>().unwrap_or(0);
        let v = v.parse::<i64>().unwrap_or(0);
        let point = Point { ns: 0, id, t, v };
        buffer.room(&point)?;
        buffer.put(&point);
    }
    Ok(())
}

// The series of a text, which a buffer puts in order.
fn series_of(alloc: Global, text: &str) -> Result<Seq<Series>, Fail>
    ensures { IfOk result IsOrdered }
{
    let mut buffer = Buffer::new(alloc);
    for part in text.split(';') {
        let (id, pairs) = part.split_once(' ').unwrap_or(("", ""));
        if !id.is_empty() {
            put_pairs(alloc, &mut buffer, id, pairs)?;
        }
    }
    let all = Pick::Match {
        ns: 0,
        wanted: Seq::new(alloc),
    };
    Ok(buffer.range(alloc, &all, 0, 10)?)
}

fn write_series(series: &Seq<Series>, out: &mut String) -> Result<(), Fail> {
    for (i, one) in series.as_slice().iter().enumerate() {
        let sign = if i == 0 { "" } else { ";" };
        write!(out, "{sign}{}", one.id.as_str())?;
        for (t, v) in one.points.as_slice() {
            write!(out, " {t}={v}")?;
        }
    }
    Ok(())
}

fn merge_row(alloc: Global, one: &str, other: &str, out: &mut String) -> Result<(), Fail> {
    let first = series_of(alloc, one)?;
    let second = series_of(alloc, other)?;
    let merged = merge(alloc, first, second)?;
    write_series(&merged, out)
}

#[test]
fn series_are_merged(rt: HostRuntime) -> Result<(), Fail> {
    let mut out = String::new(rt.alloc());
    for row in MERGES.lines() {
        let (one, rest) = row.split_once('|').unwrap_or(("", ""));
        let (other, _) = rest.split_once('|').unwrap_or(("", ""));
        write!(out, "{one}|{other}|")?;
        merge_row(rt.alloc(), one, other, &mut out)?;
        out.push('\n')?;
    }
    assert_eq!(rt; out.as_str(), MERGES);
    stands_for_its_points();
    Ok(())
}
