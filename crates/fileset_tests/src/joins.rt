//! What the words of a story read of all volumes, and join with series that they name.
ghost use Rattle.std.specs.Prelude.{◌≡◌, ◌+◌, ◌<◌, List, map, length, IfOk, IsTrue};
ghost use Rattle.m3_model.specs.Members.{IsIn};
ghost use Rattle.m3_model.specs.Reads.{InRange, IsOrdered};
ghost use Rattle.m3_model.specs.declared.point.Point.{Point};
ghost use Rattle.m3_model.specs.declared.point.Series.{Series as Row};
ghost use Rattle.m3_outside.specs.DiskState.{DiskState, Told};
ghost use Rattle.wire_bytes.specs.Entries.{IsBounded};
ghost use Rattle.wire_bytes.specs.Volumes.{IsHead, points_of_rows};
ghost use Rattle.volume_bytes.specs.Heads.{head_of};
ghost use Rattle.fileset_read.specs.Volumes.{IsThere};
ghost use Rattle.fileset_check.specs.declared.volume.Volume.{Volume as Listed};

use crate::tells::{of_damage, of_file, tell_all};
use crate::words::{block, series};
use disk_stories::{cut, tell_name};
use fileset_check::{Volume, is_volume, volumes};
use fileset_read::FileErr;
use m3_model::{Matcher, Memory, Pick, Seq, Series, Text};
use m3_outside::{Disk, DiskErr};
use std::alloc::Global;
use volume_bytes::Head;
use volume_points::{BlockErr, block_rows, join, read};

fn heads_of(alloc: Global, all: &[Volume]) -> Result<Vec<Head>, Memory>
    ensures { IfOk result (λ heads. heads.items ≡ map (λ (v : Listed). v.head) all.now) }
{
    let mut heads = Vec::new(alloc);
    for volume in all {
        heads.push(volume.head)?;
    }
    Ok(heads)
}

// Whether each series has a point.
fn are_filled(rows: &[Series]) -> bool
    ensures { IsTrue result → (s : Row) → IsIn rows.now s → 0 < length s.points }
{
    for row in rows {
        if row.points.len() == 0 {
            return false;
        }
    }
    true
}

// Whether these may be the points of the block in memory.
fn may_be_held(head: &Head, rows: &[Series]) -> bool
    ensures ordered { IsTrue result → IsOrdered rows.now }
    ensures bounded { IsTrue result → (p : Point) → IsIn (points_of_rows head.now.ns rows.now) p → IsBounded p × InRange head.now.start (head.now.start + head.now.size) p }
    ensures head { IsTrue result → IsHead (head_of head.now) }
{
    is_volume(head, rows) && are_filled(rows)
}

fn find<D: Disk>(
    alloc: Global,
    disk: &mut D,
    all: &[Volume],
    pick: &Pick,
    from: u64,
    to: u64,
) -> Result<Seq<Series>, FileErr>
    requires there { Told (D.state disk.old) (λ files. (v : Listed) → IsIn all.now v → IsThere (head_of v.head) files) }
    ensures ordered { IfOk result IsOrdered }
{
    match heads_of(alloc, all) {
        Ok(heads) => read(alloc, disk, &heads, pick, from, to),
        Err(_) => Err(FileErr::Memory),
    }
}

fn tell_found<D: Disk>(
    alloc: Global,
    disk: &mut D,
    all: &[Volume],
    pick: &Pick,
    span: &Head,
    out: &mut String,
) -> Result<(), DiskErr>
    requires there { Told (D.state disk.old) (λ files. (v : Listed) → IsIn all.now v → IsThere (head_of v.head) files) }
{
    match find(alloc, disk, all, pick, span.start, span.size) {
        Ok(found) => Ok(tell_all(found.as_slice(), out)?),
        Err(e) => of_file(e, out),
    }
}

fn tell_read<D: Disk>(
    alloc: Global,
    disk: &mut D,
    pick: &Pick,
    span: &Head,
    out: &mut String,
) -> Result<bool, DiskErr> {
    match volumes(alloc, disk) {
        Ok(all) => tell_found(alloc, disk, all.as_slice(), pick, span, out)?,
        Err(e) => of_damage(alloc, e, false, out)?,
    }
    Ok(true)
}

/// `f2.100.160:hello` tells the points of the series in the namespace from 100 on and below 160.
pub fn tell_series_found<D: Disk>(
    alloc: Global,
    disk: &mut D,
    words: &str,
    out: &mut String,
) -> Result<bool, DiskErr> {
    let (span, id) = cut(words, ':');
    let span = block(span);
    let id = Text::from_str(alloc, id)?;
    tell_read(alloc, disk, &Pick::One { ns: span.ns, id }, &span, out)
}

// The matcher `dc=east` or `dc!=east`.
fn matcher(alloc: Global, text: &str) -> Result<Matcher, Memory> {
    let (left, value) = cut(text, '=');
    let name = left.strip_suffix('!').unwrap_or(left);
    Ok(Matcher {
        name: Text::from_str(alloc, name)?,
        equal: name.len() == left.len(),
        value: Text::from_str(alloc, value)?,
    })
}

fn matchers(alloc: Global, text: &str) -> Result<Seq<Matcher>, Memory> {
    let mut wanted = Vec::new(alloc);
    for one in text.split(',') {
        if !one.is_empty() {
            wanted.push(matcher(alloc, one)?)?;
        }
    }
    Ok(Seq::from_vec(wanted))
}

/// `a2.100.160:dc=east,host!=a` tells those of all series for which the matchers hold.
pub fn tell_matched<D: Disk>(
    alloc: Global,
    disk: &mut D,
    words: &str,
    out: &mut String,
) -> Result<bool, DiskErr> {
    let (span, wanted) = cut(words, ':');
    let span = block(span);
    let wanted = matchers(alloc, wanted)?;
    tell_read(
        alloc,
        disk,
        &Pick::Match {
            ns: span.ns,
            wanted,
        },
        &span,
        out,
    )
}

fn of_block(e: BlockErr, out: &mut String) -> Result<(), DiskErr> {
    match e {
        BlockErr::Disk => Err(DiskErr::Failed),
        BlockErr::Memory => Err(DiskErr::Memory),
        BlockErr::Large => Ok(out.push_str("large")?),
        BlockErr::Form { file } => {
            out.push_str("form of")?;
            Ok(tell_name(file, out)?)
        }
    }
}

fn tell_block<D: Disk>(
    alloc: Global,
    disk: &mut D,
    all: &[Volume],
    head: &Head,
    held: Seq<Series>,
    out: &mut String,
) -> Result<bool, DiskErr>
    requires there { Told (D.state disk.old) (λ files. (v : Listed) → IsIn all.now v → IsThere (head_of v.head) files) }
{
    if !may_be_held(head, held.as_slice()) {
        return Ok(false);
    }
    let heads = heads_of(alloc, all)?;
    match block_rows(alloc, disk, &heads, head.ns, head.start, head.size, held) {
        Ok(rows) => tell_all(rows.as_slice(), out)?,
        Err(e) => of_block(e, out)?,
    }
    Ok(true)
}

/// `j2.100.50:hello,100=5` tells the rows of a new volume of the block, which has these series in memory.
pub fn tell_rows_joined<D: Disk>(
    alloc: Global,
    disk: &mut D,
    words: &str,
    out: &mut String,
) -> Result<bool, DiskErr> {
    let (head, rest) = cut(words, ':');
    let held = series(alloc, rest)?;
    match volumes(alloc, disk) {
        Ok(all) => tell_block(alloc, disk, all.as_slice(), &block(head), held, out),
        Err(e) => {
            of_damage(alloc, e, false, out)?;
            Ok(true)
        }
    }
}

fn tell_join<D: Disk>(
    alloc: Global,
    disk: &mut D,
    all: &[Volume],
    head: &Head,
    held: Seq<Series>,
    out: &mut String,
) -> Result<bool, DiskErr>
    requires there { Told (D.state disk.old) (λ files. (v : Listed) → IsIn all.now v → IsThere (head_of v.head) files) }
{
    if !may_be_held(head, held.as_slice()) {
        return Ok(false);
    }
    let pick = Pick::Match {
        ns: head.ns,
        wanted: Seq::new(alloc),
    };
    match find(
        alloc,
        disk,
        all,
        &pick,
        head.start,
        head.start.saturating_add(head.size),
    ) {
        Ok(found) => {
            let both = join(alloc, held, found)?;
            tell_all(both.as_slice(), out)?;
        }
        Err(e) => of_file(e, out)?,
    }
    Ok(true)
}

/// `o2.100.50:hello,100=5` tells what a read of all series of the block finds, which has these in memory.
pub fn tell_both<D: Disk>(
    alloc: Global,
    disk: &mut D,
    words: &str,
    out: &mut String,
) -> Result<bool, DiskErr> {
    let (head, rest) = cut(words, ':');
    let held = series(alloc, rest)?;
    match volumes(alloc, disk) {
        Ok(all) => tell_join(alloc, disk, all.as_slice(), &block(head), held, out),
        Err(e) => {
            of_damage(alloc, e, false, out)?;
            Ok(true)
        }
    }
}
