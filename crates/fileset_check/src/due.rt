ghost use Rattle.std.specs.Prelude.{◌≡◌, ◌≤◌, length, IfErr, OnOk};
ghost use Rattle.fileset_read.specs.m3_outside.Files.{Files};
ghost use Rattle.fileset_read.specs.wire_bytes.Volumes.{Bloom, Info, part_bytes};
ghost use Rattle.fileset_read.specs.shard_files.Damage.{BreaksForm};
ghost use Rattle.fileset_read.specs.volume_bytes.Heads.{head_of};
ghost use Rattle.fileset_check.specs.PartFiles.{AreDerived, AreParts, HasHead, IsBody, Spells, bytes_in, file_of};
ghost use Rattle.fileset_check.specs.Told.{FirstTells, Says, at_derived};

use crate::body::Body;
use crate::gate::first_difference;
use crate::part_err::PartErr;
use crate::parts::{bytes_in, file_of};
use fileset_read::of_m3_model::Seq;
use fileset_read::of_m3_outside::FileName;
use fileset_read::of_volume_bytes::{Head, bloom_filter, info};
use std::alloc::Global;

// Tells where the file of this kind has other bytes than are due.
fn check_due(of: FileName, parts: &[Option<Seq<u8>>], kind: u8, due: &[u8]) -> Result<(), PartErr>
    requires low { 1 ≤ kind }
    requires high { kind ≤ 7 }
    requires all { length parts.now ≡ 7 }
    ensures ok { OnOk result (bytes_in parts.now kind ≡ due.now) }
    ensures err { (files : Files) → AreParts of files parts.now → IfErr result (Says (BreaksForm (Spells due.now) files (file_of kind of))) }
{
    match first_difference(due, bytes_in(parts, kind)) {
        None => Ok(()),
        Some(at) => Err(PartErr::Form {
            file: file_of(kind, of),
            at: at as u64,
        }),
    }
}

// The same of the info of the volume of this head with these series.
fn check_info(
    alloc: Global,
    of: FileName,
    parts: &[Option<Seq<u8>>],
    head: &Head,
    body: &Body,
) -> Result<(), PartErr>
    requires all { length parts.now ≡ 7 }
    requires body { IsBody (head_of head.now) (bytes_in parts.now 4) body.now }
    ensures ok { OnOk result (bytes_in parts.now 1 ≡ part_bytes Info (head_of head.now) body.now.rows) }
    ensures err { (files : Files) → AreParts of files parts.now → IfErr result (Says (BreaksForm (Spells (part_bytes Info (head_of head.now) body.now.rows)) files (file_of 1 of))) }
{
    let due = info(alloc, head, body.rows.len() as u64, body.tables.points)?;
    check_due(of, parts, 1, due.as_slice())
}

// The same of the bloom filter of these series.
fn check_bloom(
    alloc: Global,
    of: FileName,
    parts: &[Option<Seq<u8>>],
    head: &Head,
    body: &Body,
) -> Result<(), PartErr>
    requires all { length parts.now ≡ 7 }
    requires body { IsBody (head_of head.now) (bytes_in parts.now 4) body.now }
    ensures ok { OnOk result (bytes_in parts.now 5 ≡ part_bytes Bloom (head_of head.now) body.now.rows) }
    ensures err { (files : Files) → AreParts of files parts.now → IfErr result (Says (BreaksForm (Spells (part_bytes Bloom (head_of head.now) body.now.rows)) files (file_of 5 of))) }
{
    let due = bloom_filter(alloc, body.rows.as_slice())?;
    check_due(of, parts, 5, due.as_slice())
}

/// Tells where info, summaries, index or bloom filter aren't those that the series of the volume give.
///
/// # Errors
///
/// Want of memory. The first of these files that has other bytes, and the first offset at which it has.
pub(crate) fn check_derived(
    alloc: Global,
    of: FileName,
    parts: &[Option<Seq<u8>>],
    head: &Head,
    body: &Body,
) -> Result<(), PartErr>
    requires all { length parts.now ≡ 7 }
    requires head { HasHead of (bytes_in parts.now 1) head.now }
    requires body { IsBody (head_of head.now) (bytes_in parts.now 4) body.now }
    ensures ok { OnOk result (AreDerived (head_of head.now) body.now.rows parts.now) }
    ensures err { (files : Files) → AreParts of files parts.now → IfErr result (Says (FirstTells at_derived of files)) }
{
    check_info(alloc, of, parts, head, body)?;
    check_due(of, parts, 2, body.tables.summaries.as_slice())?;
    check_due(of, parts, 3, body.tables.index.as_slice())?;
    check_bloom(alloc, of, parts, head, body)
}
