use crate::tags::tags_of;
use m3_model::{Matcher, Memory, Seq, Text};
use std::alloc::Global;
use std::test::Fail;
use tag_query::{both, holds, minus};

// Rows of the tags that a series has, the matchers, and whether they hold.
const MATCHES: &str = "dc:x;host:h1 dc=x yes
dc:x;host:h1 dc=y no
dc:x;host:h1 dc!y yes
dc:x;host:h1 dc!x no
dc:x;host:h1 rack!x yes
dc:x;host:h1 rack= no
dc:x;host:h1 dc=x;host=h1 yes
dc:x;host:h1 host=h1;dc!x no";

fn matchers_of(alloc: Global, text: &str) -> Result<Seq<Matcher>, Fail> {
    let mut matchers = Vec::new(alloc);
    for part in text.split(';') {
        let equal = part.contains('=');
        let sign = if equal { '=' } else { '!' };
        if let Some((name, value)) = part.split_once(sign) {
            let name = Text::from_string(String::from_str(alloc, name)?);
            let value = Text::from_string(String::from_str(alloc, value)?);
            matchers.push(Matcher { name, equal, value })?;
        }
    }
    Ok(Seq::from_vec(matchers))
}

fn hold(alloc: Global, tags: &str, wanted: &str) -> Result<&'static str, Fail> {
    let tags = tags_of(alloc, tags)?;
    let wanted = matchers_of(alloc, wanted)?;
    Ok(if holds(&tags, &wanted) { "yes" } else { "no" })
}

#[test]
fn matchers_hold(rt: HostRuntime) -> Result<(), Fail> {
    for row in MATCHES.lines() {
        let (tags, rest) = row.split_once(' ').expect(&rt, "three parts");
        let (wanted, want) = rest.split_once(' ').expect(&rt, "three parts");
        assert_eq!(rt; hold(rt.alloc(), tags, wanted)?, want, "{row}");
    }
    Ok(())
}

fn write_list(list: Result<Seq<u32>, Memory>, out: &mut String) -> Result<(), Fail> {
    for ordinal in list?.as_slice() {
        write!(out, "{ordinal} ")?;
    }
    Ok(())
}

#[test]
fn postings_are_joined(rt: HostRuntime) -> Result<(), Fail> {
    let a = [1, 3, 4, 9];
    let b = [0, 3, 9, 12];
    let mut out = String::new(rt.alloc());
    write_list(both(rt.alloc(), &a, &b), &mut out)?;
    out.push('|')?;
    write_list(minus(rt.alloc(), &a, &b), &mut out)?;
    assert_eq!(rt; out.as_str(), "3 9 |1 4 ");
    Ok(())
}
