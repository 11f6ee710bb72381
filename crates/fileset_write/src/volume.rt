ghost use Rattle.std.specs.Prelude.{◌≡◌, IfOk};
ghost use Rattle.shard_files.specs.wire_bytes.Volumes.{IsVolume};
ghost use Rattle.volume_bytes.specs.Heads.{head_of};
ghost use Rattle.fileset_write.specs.NewVolumes.{IsNewVolume};

use crate::new_file::NewFile;
use shard_files::of_m3_model::{Memory, Seq, Series};
use shard_files::of_m3_outside::FileName;
use shard_files::of_wire_bytes::digest;
use std::alloc::Global;
use volume_bytes::{Head, Tables, bloom_filter, digests, info, tables_of};

/// A volume that is to be written.
#[derive(Drop)]
pub(crate) struct NewVolume {
    /// Its files but for the checkpoint, in the order in which they are made.
    pub files: Vec<NewFile>,
    pub checkpoint: FileName,
    /// The digest that stands in the checkpoint.
    pub digest: [u8; 32],
}

// The name of the file of this kind.
fn name_of(kind: u8, head: &Head) -> FileName
    ensures { result ≡ record { kind = kind; ns = head.now.ns; block = head.now.start; number = head.now.number } }
{
    FileName {
        kind,
        ns: head.ns,
        block: head.start,
        number: head.number,
    }
}

// The file of this kind.
fn new_file(kind: u8, head: &Head, bytes: Seq<u8>) -> NewFile
    ensures { result ≡ record { name = record { kind = kind; ns = head.now.ns; block = head.now.start; number = head.now.number }; bytes = bytes } }
{
    NewFile {
        name: name_of(kind, head),
        bytes,
    }
}

/// The volume of this head and these rows.
pub(crate) fn new_volume(alloc: Global, head: &Head, rows: &[Series]) -> Result<NewVolume, Memory>
    requires { IsVolume (head_of head.now) rows.now }
    ensures { IfOk result (IsNewVolume (head_of head.now) rows.now) }
{
    let tables = tables_of(alloc, rows)?;
    let bloom = bloom_filter(alloc, rows)?;
    let info = info(alloc, head, rows.len() as u64, tables.points)?;
    let digests = digests(
        alloc,
        info.as_slice(),
        tables.summaries.as_slice(),
        tables.index.as_slice(),
        tables.data.as_slice(),
        bloom.as_slice(),
    )?;
    let digest = digest(digests.as_slice());
    let Tables {
        data,
        index,
        summaries,
        ..
    } = tables;
    let files = Vec::from_array(
        alloc,
        [
            new_file(1, head, info),
            new_file(2, head, summaries),
            new_file(3, head, index),
            new_file(4, head, data),
            new_file(5, head, bloom),
            new_file(6, head, digests),
        ],
    )?;
    Ok(NewVolume {
        files,
        checkpoint: name_of(7, head),
        digest,
    })
}
