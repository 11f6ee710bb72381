ghost use Rattle.std.specs.Prelude.{◌≡◌, ◌<◌, ◌^◌, ◌++◌, IfOk, OnOk};
ghost use Rattle.sha2.specs.Sha256.{sha256};
ghost use Rattle.wire_bytes.specs.Volumes.{IsHead, info_of};
ghost use Rattle.volume_bytes.specs.Heads.{head_of};

use std::alloc::Global;
use wire_bytes::of_m3_model::{Memory, Seq};
use wire_bytes::{digest, put_number};

/// Which volume of a disk, of format 1.
#[derive(Clone, Copy, Debug, PartialEq, Eq)]
pub struct Head {
    /// The position of the namespace among the namespaces.
    pub ns: u8,
    /// The first time of the block, and its size.
    pub start: u64,
    pub size: u64,
    /// What tells the volume from others of the namespace and the start.
    pub number: u64,
}

// The format of the volumes that are written.
const FORMAT: u64 = 1;

/// The info of a volume of this head, with so many series and points.
pub fn info(alloc: Global, head: &Head, series: u64, points: u64) -> Result<Seq<u8>, Memory>
    requires head { IsHead (head_of head.now) }
    requires series { series < 2 ^ 32 }
    ensures { IfOk result (λ bytes. bytes ≡ info_of (head_of head.now) series points) }
{
    let mut out = Vec::new(alloc);
    put_number(&mut out, 1, FORMAT)?;
    put_number(&mut out, 1, u64::from(head.ns))?;
    put_number(&mut out, 8, head.start)?;
    put_number(&mut out, 8, head.size)?;
    put_number(&mut out, 8, head.number)?;
    put_number(&mut out, 4, series)?;
    put_number(&mut out, 8, points)?;
    Ok(Seq::from_vec(out))
}

/// The digests of these five files of a volume, one after another.
pub fn digests(
    alloc: Global,
    info: &[u8],
    summaries: &[u8],
    index: &[u8],
    body: &[u8],
    bloom: &[u8],
) -> Result<Seq<u8>, Memory>
    ensures { IfOk result (λ bytes. bytes ≡ sha256 info.now ++ (sha256 summaries.now ++ (sha256 index.now ++ (sha256 body.now ++ sha256 bloom.now)))) }
{
    let mut out = Vec::new(alloc);
    out.extend_from_slice(&digest(info))?;
    out.extend_from_slice(&digest(summaries))?;
    out.extend_from_slice(&digest(index))?;
    out.extend_from_slice(&digest(body))?;
    out.extend_from_slice(&digest(bloom))?;
    Ok(Seq::from_vec(out))
}
