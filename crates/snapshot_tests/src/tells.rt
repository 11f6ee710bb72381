//! What is told of the newest snapshot.
use disk_stories::{tell_bytes, tell_name};
use fileset_check::CheckErr;
use m3_model::Memory;
use m3_outside::{Disk, DiskErr};
use snapshot_files::{Snap, newest};
use std::alloc::Global;

// A snapshot, as `5.3.7.2:0,hello,100,5;`.
fn tell_snap(snap: &Snap, out: &mut String) -> Result<(), Memory> {
    write!(out, "{}.{}.", snap.number, snap.tenure)?;
    write!(out, "{}.{}:", snap.fence, snap.first)?;
    for point in snap.points.as_slice() {
        write!(out, "{},{},", point.ns, point.id.as_str())?;
        write!(out, "{},{};", point.t, point.v)?;
    }
    Ok(())
}

// What is told in place of a snapshot.
fn tell_damage(alloc: Global, e: CheckErr, out: &mut String) -> Result<bool, DiskErr> {
    match e {
        CheckErr::Disk => return Err(DiskErr::Failed),
        CheckErr::Memory => return Err(DiskErr::Memory),
        CheckErr::Form { file, at } => {
            out.push_str("form of")?;
            tell_name(file, out)?;
            write!(out, " at {at}")?;
        }
        CheckErr::Digest { file, kept, found } => {
            out.push_str("digest of")?;
            tell_name(file, out)?;
            tell_bytes(alloc, " kept ", &kept, out)?;
            tell_bytes(alloc, " found ", &found, out)?;
        }
    }
    Ok(true)
}

/// `e` tells the newest snapshot, `none` where there is none, or its damage with the digests.
pub fn tell_newest<D: Disk>(
    alloc: Global,
    disk: &mut D,
    out: &mut String,
) -> Result<bool, DiskErr> {
    match newest(alloc, disk) {
        Ok(Some(snap)) => tell_snap(&snap, out)?,
        Ok(None) => out.push_str("none")?,
        Err(e) => return tell_damage(alloc, e, out),
    }
    Ok(true)
}

/// `n` tells its number, once it is found whole.
pub fn tell_number<D: Disk>(
    alloc: Global,
    disk: &mut D,
    out: &mut String,
) -> Result<bool, DiskErr> {
    match newest(alloc, disk) {
        Ok(Some(snap)) => write!(out, "{}", snap.number)?,
        Ok(None) => out.push_str("none")?,
        Err(e) => return tell_damage(alloc, e, out),
    }
    Ok(true)
}
