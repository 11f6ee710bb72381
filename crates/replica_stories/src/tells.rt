//! What a replica answers, as texts.
use disk_stories::{tell_bytes, tell_name};
use m3_model::{Damage, Memory, Reason, Seq, Series};
use m3_outside::{DiskErr, FileName};
use std::alloc::Global;

// The points of the series, each as ` hello@1000=7`.
fn tell_series(series: &Series, out: &mut String) -> Result<(), Memory> {
    for pair in series.points.as_slice() {
        let (t, v) = *pair;
        write!(out, " {}@{t}={v}", series.id.as_str())?;
    }
    Ok(())
}

pub(crate) fn tell_all(all: &Seq<Series>, out: &mut String) -> Result<(), Memory> {
    for series in all.as_slice() {
        tell_series(series, out)?;
    }
    Ok(())
}

// The bytes as hexadecimal digits, behind these words.
fn tell_hex(alloc: Global, before: &str, bytes: &[u8], out: &mut String) -> Result<(), Memory> {
    match tell_bytes(alloc, before, bytes, out) {
        Ok(()) => Ok(()),
        Err(_) => Err(Memory),
    }
}

fn tell_digests(
    alloc: Global,
    kept: &[u8],
    found: &[u8],
    full: bool,
    out: &mut String,
) -> Result<(), Memory> {
    if !full {
        return Ok(());
    }
    tell_hex(alloc, " kept ", kept, out)?;
    tell_hex(alloc, " found ", found, out)
}

fn tell_form(file: &str, at: u64, out: &mut String) -> Result<(), Memory> {
    write!(out, "form of {file} at {at}")?;
    Ok(())
}

fn tell_file(file: &str, out: &mut String) -> Result<(), Memory> {
    write!(out, "digest of {file}")?;
    Ok(())
}

// Damage: its file, with its place, or, where all is to be told, with the digests that are kept and found.
fn tell_damage(alloc: Global, damage: &Damage, full: bool, out: &mut String) -> Result<(), Memory> {
    match damage {
        Damage::Digest { file, kept, found } => {
            tell_file(file.as_str(), out)?;
            tell_digests(alloc, kept, found, full, out)
        }
        Damage::Form { file, at } => tell_form(file.as_str(), *at, out),
    }
}

fn name_of(reason: &Reason) -> &'static str {
    match reason {
        Reason::Down => "down",
        Reason::Boot => "boot",
        Reason::NotOwned => "notowned",
        Reason::Past => "past",
        Reason::Future => "future",
        Reason::Disk => "disk",
        Reason::Memory => "memory",
        _ => "other",
    }
}

/// Why a replica refused; of a stale call with the fence, as `stale2`.
pub(crate) fn tell_reason(
    alloc: Global,
    reason: &Reason,
    full: bool,
    out: &mut String,
) -> Result<(), Memory> {
    match reason {
        Reason::Corrupt(damage) => tell_damage(alloc, damage, full, out),
        Reason::Stale { fence } => Ok(write!(out, "stale{fence}")?),
        _ => Ok(out.push_str(name_of(reason))?),
    }
}

/// Those of the files that are of this kind, each as ` 7.0.1000.1`: its kind, its namespace, its block and its number.
pub(crate) fn tell_kind(names: &[FileName], kind: u8, out: &mut String) -> Result<(), Memory> {
    for name in names {
        if name.kind == kind {
            tell_name(*name, out)?;
        }
    }
    Ok(())
}

/// What a disk answers in place of files.
pub(crate) fn tell_fault(why: DiskErr, out: &mut String) -> Result<(), Memory> {
    match why {
        DiskErr::Failed => Ok(out.push_str("disk")?),
        DiskErr::Memory => Err(Memory),
    }
}
