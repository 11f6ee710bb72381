// The points that a replica holds and finds again, and the entries of its log.
ghost use Rattle.std.specs.Prelude.{◌≡◌, None};

use held_points::{HeldPoints, hold};
use m3_model::{Matcher, Pick, Point, Seq, Text};
use shard_files::{LogEntry, read_entry};
use std::alloc::Global;
use std::test::Fail;

// Namespaces and series, each with a point at 10.
const SERIES: &str = r#"0 {a="x"}
1 {a="x",c="q"}
0 plain
0 {a="x",b="y"}
0 {a="z"}
0 {bad
0 {a="x"}"#;

// Namespaces, matchers or an identifier, upper ends of the range, and what is found.
const PICKS: &str = r#"0 a=x 11 {a="x",b="y"};{a="x"}
0 a=x 10 -
0 a!x 11 plain;{a="z"};{bad
0 a=x;b=y 11 {a="x",b="y"}
0 a=x;b!y 11 {a="x"}
0 c!q;b!y 11 plain;{a="x"};{a="z"};{bad
1 a=x 11 {a="x",c="q"}
0 c=q 11 -
0 a=x;a=z 11 -
0 plain 11 plain
0 plain 10 -
1 plain 11 -"#;

fn matchers_of(alloc: Global, text: &str) -> Result<Seq<Matcher>, Fail> {
    let mut matchers = Vec::new(alloc);
    for part in text.split(';') {
        let equal = part.contains('=');
        let sign = if equal { '=' } else { '!' };
        if let Some((name, value)) = part.split_once(sign) {
            let name = Text::from_str(alloc, name)?;
            let value = Text::from_str(alloc, value)?;
            matchers.push(Matcher { name, equal, value })?;
        }
    }
    Ok(Seq::from_vec(matchers))
}

fn pick_of(alloc: Global, ns: u8, text: &str) -> Result<Pick, Fail> {
    if text.contains('=') || text.contains('!') {
        let wanted = matchers_of(alloc, text)?;
        return Ok(Pick::Match { ns, wanted });
    }
    let id = Text::from_str(alloc, text)?;
    Ok(Pick::One { ns, id })
}

fn points(alloc: Global) -> Result<Vec<Point>, Fail> {
    let mut points = Vec::new(alloc);
    for row in SERIES.lines() {
        let (ns, id) = row.split_once(' ').unwrap_or(("", ""));
        points.push(Point {
            ns: if ns == "0" { 0 } else { 1 },
            id: Text::from_str(alloc, id)?,
            t: 10,
            v: 5,
        })?;
    }
    Ok(points)
}

// The identifiers of what is found from 10 on and below the end, or `-`.
fn find(
    alloc: Global,
    held: &HeldPoints,
    ns: &str,
    pick: &str,
    to: &str,
    out: &mut String,
) -> Result<(), Fail>
    requires { held.now.room ≡ None }
{
    let pick = pick_of(alloc, if ns == "0" { 0 } else { 1 }, pick)?;
    let found = held.fetch(&pick, 10, if to == "10" { 10 } else { 11 })?;
    for (position, series) in found.as_slice().iter().enumerate() {
        write!(
            out,
            "{}{}",
            if position == 0 { "" } else { ";" },
            series.id.as_str()
        )?;
    }
    Ok(out.push_str(if found.len() == 0 { "-" } else { "" })?)
}

fn find_all(alloc: Global, held: &HeldPoints, out: &mut String) -> Result<(), Fail>
    requires { held.now.room ≡ None }
{
    for row in PICKS.lines() {
        let (ns, rest) = row.split_once(' ').unwrap_or(("", ""));
        let (pick, rest) = rest.split_once(' ').unwrap_or(("", ""));
        let (to, _) = rest.split_once(' ').unwrap_or(("", ""));
        write!(out, "{ns} {pick} {to} ")?;
        find(alloc, held, ns, pick, to, out)?;
        out.push('\n')?;
    }
    Ok(())
}

fn told(alloc: Global, out: &mut String) -> Result<(), Fail> {
    let points = points(alloc)?;
    let held = hold(alloc, points.as_slice())?;
    find_all(alloc, &held, out)
}

#[test]
fn series_are_found(rt: HostRuntime) -> Result<(), Fail> {
    let mut out = String::new(rt.alloc());
    told(rt.alloc(), &mut out)?;
    assert_eq!(rt; out.as_str().trim_end(), PICKS);
    Ok(())
}

// Bytes, each behind the entry that they are, or the offset at which they break.
const ENTRIES: &str =
    "points 1 => 01 00 01 00 00 05 68 65 6c 6c 6f 00 00 00 00 00 00 00 64 00 00 00 00 00 00 00 05
fence 3 => 02 00 00 00 00 00 00 00 03
tenure 258 => 03 00 00 00 00 00 00 01 02
Form { at: 9 } => 02 00 00 00 00 00 00 00 03 00
Form { at: 3 } => 03 00 00
Form { at: 2 } => 01 00 00
Form { at: 0 } => 04 00";

fn bytes_of(alloc: Global, hex: &str) -> Result<Vec<u8>, Fail> {
    let mut bytes = Vec::new(alloc);
    for part in hex.split(' ') {
        bytes.push(u8::from_str_radix(part, 16).unwrap_or(0))?;
    }
    Ok(bytes)
}

fn entry_of(alloc: Global, hex: &str) -> Result<String, Fail> {
    let bytes = bytes_of(alloc, hex)?;
    match read_entry(alloc, &bytes) {
        Ok(LogEntry::Points { points }) => Ok(format!(in alloc; "points {}", points.len())?),
        Ok(LogEntry::Fence { fence }) => Ok(format!(in alloc; "fence {fence}")?),
        Ok(LogEntry::Tenure { tenure }) => Ok(format!(in alloc; "tenure {tenure}")?),
        Err(e) => Ok(format!(in alloc; "{e:?}")?),
    }
}

#[test]
fn entries_are_those_of_the_format(rt: HostRuntime) -> Result<(), Fail> {
    for row in ENTRIES.lines() {
        let (want, hex) = row.split_once(" => ").expect(&rt, "two parts");
        assert_eq!(rt; entry_of(rt.alloc(), hex)?.as_str(), want, "{row}");
    }
    Ok(())
}
