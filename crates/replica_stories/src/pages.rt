//! Pages of a replica, told, merged and streamed.
use crate::replica::Replica;
use crate::words::{counted, point, refused};
use disk_stories::{number, part, small};
use m3_model::{Key, Memory, Page, Point, Reason, Seq, Text};
use m3_outside::Disk;
use std::alloc::Global;

// The key `0,hello,100`: its namespace, its identifier and its time. None of no words.
fn key(alloc: Global, words: &str) -> Result<Option<Key>, Memory> {
    if words.is_empty() {
        return Ok(None);
    }
    Ok(Some(Key {
        ns: small(part(words, ',', 0)),
        id: Text::from_str(alloc, part(words, ',', 1))?,
        t: number(part(words, ',', 2)),
    }))
}

// The points of a page, each as ` 0/hello@1000=7`, with ` ..` behind them where it goes on.
fn tell_page(page: &Page, out: &mut String) -> Result<(), Memory> {
    for point in page.points.as_slice() {
        let id = point.id.as_str();
        write!(out, " {}/{id}@{}={}", point.ns, point.t, point.v)?;
    }
    if page.next.is_some() {
        out.push_str(" ..")?;
    }
    Ok(())
}

// The points, with `+` between them.
fn points_of(alloc: Global, words: &str) -> Result<Seq<Point>, Memory> {
    let mut points = Vec::new(alloc);
    for one in words.split('+') {
        points.push(point(alloc, one)?)?;
    }
    Ok(Seq::from_vec(points))
}

/// `g` tells the first page, and `g0,hello,100` the one above this key.
pub(crate) fn page<D: Disk>(
    replica: &mut Replica<D>,
    words: &str,
    out: &mut String,
) -> Result<bool, Memory> {
    let after = key(replica.alloc, words)?;
    match replica.page(after.as_ref()) {
        Ok(page) => {
            tell_page(&page, out)?;
            Ok(true)
        }
        Err(reason) => refused(replica.alloc, &reason, false, out),
    }
}

/// `m0,hello,100,5+0,zulu,110,6` merges a page of these points, and tells how many were new or higher.
pub(crate) fn merge<D: Disk>(
    replica: &mut Replica<D>,
    words: &str,
    out: &mut String,
) -> Result<bool, Memory> {
    let points = points_of(replica.alloc, words)?;
    let said = replica.merge(&Page { points, next: None });
    counted(replica.alloc, said, out)
}

/// What a stream came to.
#[derive(Clone, Copy)]
pub struct Streamed {
    pub pages: u64,
    pub points: u64,
    /// How many points were new or higher where they were merged.
    pub merged: u64,
}

// Counts the page, and merges it into the other replica, if it is to.
fn take_page<D: Disk>(
    page: &Page,
    into: &mut Replica<D>,
    merges: bool,
    streamed: Streamed,
) -> Result<Streamed, Reason> {
    let merged = if merges { into.merge(page)? } else { 0 };
    Ok(Streamed {
        pages: streamed.pages.saturating_add(1),
        points: streamed.points.saturating_add(page.points.len() as u64),
        merged: streamed.merged.saturating_add(merged),
    })
}

/// All pages of a replica, each from where the one before goes on, and merged into the other replica, where `merges` says so.
///
/// # Errors
///
/// Why a page or a merge was refused.
pub fn stream<D: Disk>(
    from: &mut Replica<D>,
    into: &mut Replica<D>,
    merges: bool,
) -> Result<Streamed, Reason> {
    let mut streamed = Streamed {
        pages: 0,
        points: 0,
        merged: 0,
    };
    let mut after = None;
    for _ in 0..u64::MAX {
        let page = from.page(after.as_ref())?;
        streamed = take_page(&page, into, merges, streamed)?;
        after = page.next;
        if after.is_none() {
            break;
        }
    }
    Ok(streamed)
}
