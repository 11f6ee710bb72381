ghost use Rattle.std.specs.Prelude.{◌≤◌, ℕ, List, length, OnOk, IfErr, IsErrOf};
ghost use Rattle.log_chunks.specs.m3_model.declared.limits.TheConstants.{SEGMENT_BYTES};
ghost use Rattle.commit_log.specs.Reading.{IsFront, ReadsMore, MayBreak};
ghost use Rattle.commit_log.specs.declared.log_err.LogErr.TheVariants as errors;

use crate::file::Front;
use crate::log_err::LogErr;
use log_chunks::of_m3_model::Seq;
use log_chunks::{ChunkAt, get_chunk};
use std::alloc::Global;

/// Appends the chunks of the segment of this number, whose file begins so.
pub(crate) fn read_chunks(
    alloc: Global,
    number: u64,
    front: &Front,
    chunks: &mut Vec<Seq<u8>>,
) -> Result<(), LogErr>
    requires { length front.now.bytes.items ≤ SEGMENT_BYTES }
    ensures ok { OnOk result ((file : List ℕ) → IsFront front.now.bytes.items front.now.is_whole file → ReadsMore file chunks.old.items chunks.new.items) }
    ensures no_fault { ¬ (IsErrOf result errors.Disk) }
    ensures err { IfErr result (λ e. (file : List ℕ) → IsFront front.now.bytes.items front.now.is_whole file → MayBreak number file e) }
{
    let bytes = front.bytes.as_slice();
    let mut at = 0;
    let mut found = get_chunk(bytes, at);
    while let ChunkAt::Chunk { from, next } = found {
        chunks.push(Seq::from_vec(Vec::from_slice(alloc, &bytes[from..next])?))?;
        at = next;
        found = get_chunk(bytes, at);
    }
    if let ChunkAt::Bad { at } = found {
        return Err(LogErr::Form {
            number,
            at: at as u64,
        });
    }
    if !front.is_whole {
        return Err(LogErr::Form {
            number,
            at: bytes.len() as u64,
        });
    }
    Ok(())
}
