ghost use Rattle.std.specs.Prelude.{◌≡◌, ◌≤◌, IfOk, IfSome};
ghost use Rattle.file_names.specs.Names.{name_text, IsOfFormat};

use crate::spelling::{NAME_ROOM, add_name};
use m3_outside::FileName;
use std::alloc::AllocError;

// What is told apart by a number alone.
fn numbered(kind: u8, number: &str) -> Option<FileName>
    ensures { IfSome result (λ name. (name.kind ≡ kind) × (name.ns ≡ 0) × (name.block ≡ 0)) }
{
    Some(FileName {
        kind,
        ns: 0,
        block: 0,
        number: number.parse::<u64>().ok()?,
    })
}

fn part_of(text: &str) -> Option<u8>
    ensures { IfSome result (λ kind. (1 ≤ kind) × (kind ≤ 7)) }
{
    match text {
        "info" => Some(1),
        "summaries" => Some(2),
        "index" => Some(3),
        "data" => Some(4),
        "bloom" => Some(5),
        "digests" => Some(6),
        "checkpoint" => Some(7),
        _ => None,
    }
}

// A file of a volume, by what stands behind `fileset-`.
fn volume_of(text: &str) -> Option<FileName>
    ensures { IfSome result (λ name. (1 ≤ name.kind) × (name.kind ≤ 7)) }
{
    let (ns, rest) = text.split_once('-')?;
    let (block, rest) = rest.split_once('-')?;
    let (number, part) = rest.split_once('-')?;
    Some(FileName {
        kind: part_of(part)?,
        ns: ns.parse::<u8>().ok()?,
        block: block.parse::<u64>().ok()?,
        number: number.parse::<u64>().ok()?,
    })
}

// A file of a snapshot, by what stands behind `snapshot-`.
fn snapshot_of(text: &str) -> Option<FileName>
    ensures { IfSome result (λ name. (8 ≤ name.kind) × (name.kind ≤ 9) × (name.ns ≡ 0) × (name.block ≡ 0)) }
{
    let (number, part) = text.split_once('-')?;
    match part {
        "data" => numbered(8, number),
        "checkpoint" => numbered(9, number),
        _ => None,
    }
}

// The one file that may have this name, if there is one: a number may still be spelled otherwise.
fn likely_name(text: &str) -> Option<FileName>
    ensures { IfSome result IsOfFormat }
{
    let body = text.strip_suffix(".db")?;
    if let Some(number) = body.strip_prefix("log-") {
        return numbered(0, number);
    }
    if let Some(rest) = body.strip_prefix("fileset-") {
        return volume_of(rest);
    }
    snapshot_of(body.strip_prefix("snapshot-")?)
}

/// The file of the format of which this is the name, if there is one. What `room` held is gone.
///
/// # Errors
///
/// Want of memory, where `room` hasn't got `NAME_ROOM` bytes.
pub fn name_of(text: &str, room: &mut String) -> Result<Option<FileName>, AllocError>
    ensures named { IfOk result (λ found. IfSome found (λ name. name_text name ≡ text.now)) }
    ensures format { IfOk result (λ found. IfSome found IsOfFormat) }
{
    let Some(name) = likely_name(text) else {
        return Ok(None);
    };
    room.clear();
    room.reserve(NAME_ROOM)?;
    add_name(room, name);
    Ok(if room.as_str() == text {
        Some(name)
    } else {
        None
    })
}
