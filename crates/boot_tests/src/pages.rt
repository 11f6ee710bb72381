use m3_model::{Key, Memory, Page, Point, Seq, Text};
use page_cut::laws::{pages_are_full, pages_end, pages_hold_the_list};
use page_cut::{ascend, cut};
use std::alloc::Global;
use std::test::Fail;

// Pages of the points at a 1, a 3, b 2, b 9 and c 4: a key or none, and a limit; then the points, and the key from which
// the next page goes on.
const PAGES: &str = "- 2 => a1 a3 > a3
a3 2 => b2 b9 > b9
b9 2 => c4 .
- 5 => a1 a3 b2 b9 c4 .
- 4 => a1 a3 b2 b9 > b9
b1 9 => b2 b9 c4 .
a2 1 => a3 > a3
c4 1 => .
a0 5 => a1 a3 b2 b9 c4 .";

// A point of an identifier and a time, each of one byte.
fn point(alloc: Global, spelled: &str) -> Result<Point, Memory> {
    let (id, t) = spelled.split_at_checked(1).unwrap_or(("", ""));
    let id = Text::from_str(alloc, id)?;
    let t = t.parse().unwrap_or(0);
    Ok(Point { ns: 0, id, t, v: 5 })
}

fn key(alloc: Global, spelled: &str) -> Result<Option<Key>, Memory> {
    if spelled == "-" {
        return Ok(None);
    }
    let Point { ns, id, t, v: _ } = point(alloc, spelled)?;
    Ok(Some(Key { ns, id, t }))
}

fn points(alloc: Global) -> Result<Seq<Point>, Memory> {
    let mut list = Vec::new(alloc);
    for spelled in "a1 a3 b2 b9 c4".split(' ') {
        list.push(point(alloc, spelled)?)?;
    }
    Ok(Seq::from_vec(list))
}

fn tell(page: &Page, out: &mut String) -> Result<(), Fail> {
    for point in page.points.as_slice() {
        write!(out, "{}{} ", point.id.as_str(), point.t)?;
    }
    match &page.next {
        Some(key) => write!(out, "> {}{}", key.id.as_str(), key.t)?,
        None => write!(out, ".")?,
    }
    Ok(())
}

// The page of such a key and such a limit.
fn told(alloc: Global, from: &str, limit: &str, out: &mut String) -> Result<(), Fail> {
    let list = points(alloc)?;
    let limit: usize = limit.parse().unwrap_or(0);
    if limit == 0 || !ascend(&list) {
        return Ok(());
    }
    let after = key(alloc, from)?;
    let page = cut(alloc, &list, after.as_ref(), limit)?;
    tell(&page, out)
}

#[test]
fn pages_are_cut(rt: HostRuntime) -> Result<(), Fail> {
    let mut out = String::new(rt.alloc());
    for row in PAGES.lines() {
        let (asked, _) = row.split_once(" => ").unwrap_or(("", ""));
        let (from, limit) = asked.split_once(' ').unwrap_or(("", ""));
        write!(out, "{asked} => ")?;
        told(rt.alloc(), from, limit, &mut out)?;
        writeln!(out)?;
    }
    assert_eq!(rt; out.trim_end(), PAGES);
    pages_hold_the_list();
    pages_end();
    pages_are_full();
    Ok(())
}
