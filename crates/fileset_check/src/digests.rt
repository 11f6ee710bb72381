ghost use Rattle.std.specs.Prelude.{◌≡◌, ◌+◌, ◌≤◌, ◌∷◌, length, take, drop, IfOk, IfErr, OnOk, Some};
ghost use Rattle.fileset_read.specs.m3_outside.Files.{Files};
ghost use Rattle.fileset_read.specs.shard_files.Damage.{BreaksDigest, BreaksForm, IsGate};
ghost use Rattle.fileset_check.specs.PartFiles.{AreDigests, AreParts, AreSealed, Keeps, bytes_in, file_of, part_in};
ghost use Rattle.fileset_check.specs.Told.{FirstTells, Says, at_digests, at_gates};

use crate::gate::gate_stop;
use crate::part_err::PartErr;
use crate::parts::{bytes_in, file_of, is_there};
use fileset_read::of_m3_model::Seq;
use fileset_read::of_m3_outside::FileName;
use fileset_read::of_wire_bytes::digest;

// How many bytes a digest has, and how many the digests of five files.
const DIGEST_BYTES: usize = 32;

const FIVE_DIGESTS: usize = 160;

// The digest at the offset.
fn digest_at(bytes: &[u8], at: usize) -> [u8; DIGEST_BYTES]
    requires { at + 32 ≤ length bytes.now }
    ensures { result ≡ take 32 (drop at bytes.now) }
{
    let mut digest = [0; DIGEST_BYTES];
    digest.copy_from_slice(&bytes[at..at + DIGEST_BYTES]);
    digest
}

// The digest behind the open gate of the checkpoint.
fn read_gate(of: FileName, parts: &[Option<Seq<u8>>]) -> Result<[u8; DIGEST_BYTES], PartErr>
    requires { length parts.now ≡ 7 }
    ensures ok { IfOk result (λ kept. part_in parts.now 7 ≡ Some (1 ∷ kept)) }
    ensures long { IfOk result (λ kept. length kept ≡ 32) }
    ensures err { (files : Files) → AreParts of files parts.now → IfErr result (Says (BreaksForm IsGate files (file_of 7 of))) }
{
    let bytes = bytes_in(parts, 7);
    match gate_stop(bytes) {
        None => Ok(digest_at(bytes, 1)),
        Some(at) => Err(PartErr::Form {
            file: file_of(7, of),
            at: at as u64,
        }),
    }
}

// Tells where the file of this kind isn't there, or has another digest than is kept.
fn check_digest(
    of: FileName,
    parts: &[Option<Seq<u8>>],
    kind: u8,
    kept: [u8; DIGEST_BYTES],
) -> Result<(), PartErr>
    requires low { 1 ≤ kind }
    requires high { kind ≤ 7 }
    requires all { length parts.now ≡ 7 }
    ensures ok { OnOk result (Keeps kept (part_in parts.now kind)) }
    ensures err { (files : Files) → AreParts of files parts.now → IfErr result (Says (BreaksDigest kept files (file_of kind of))) }
{
    let file = file_of(kind, of);
    if !is_there(parts, kind) {
        return Err(PartErr::Form { file, at: 0 });
    }
    let found = digest(bytes_in(parts, kind));
    if found != kept {
        return Err(PartErr::Digest { file, kept, found });
    }
    Ok(())
}

// Tells where the checkpoint has no open gate with the digest of the digests, or there aren't five of these.
fn check_gates(of: FileName, parts: &[Option<Seq<u8>>]) -> Result<(), PartErr>
    requires { length parts.now ≡ 7 }
    ensures ok { OnOk result (AreDigests parts.now) }
    ensures long { OnOk result (length (bytes_in parts.now 6) ≡ 160) }
    ensures err { (files : Files) → AreParts of files parts.now → IfErr result (Says (FirstTells at_gates of files)) }
{
    let kept = read_gate(of, parts)?;
    check_digest(of, parts, 6, kept)?;
    let long = bytes_in(parts, 6).len();
    if long != FIVE_DIGESTS {
        return Err(PartErr::Form {
            file: file_of(6, of),
            at: long.min(FIVE_DIGESTS) as u64,
        });
    }
    Ok(())
}

/// Tells where the checkpoint of the volume has no open gate, or a file doesn't keep to the digest that is kept of it.
///
/// # Errors
///
/// The first damage: of the checkpoint, of the digests, and then of the five files in the order of their digests.
pub(crate) fn check_digests(of: FileName, parts: &[Option<Seq<u8>>]) -> Result<(), PartErr>
    requires { length parts.now ≡ 7 }
    ensures ok { OnOk result (AreSealed parts.now) }
    ensures err { (files : Files) → AreParts of files parts.now → IfErr result (Says (FirstTells at_digests of files)) }
{
    check_gates(of, parts)?;
    let five = bytes_in(parts, 6);
    check_digest(of, parts, 1, digest_at(five, 0))?;
    check_digest(of, parts, 2, digest_at(five, 32))?;
    check_digest(of, parts, 3, digest_at(five, 64))?;
    check_digest(of, parts, 4, digest_at(five, 96))?;
    check_digest(of, parts, 5, digest_at(five, 128))
}
