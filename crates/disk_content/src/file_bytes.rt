ghost use Rattle.std.specs.Prelude.{◌≡◌, ◌≤◌, ◌+◌, ◌-◌, Some, IfOk, length, replicate, map, take, drop};
ghost use Rattle.m3_outside.specs.Files.{patched};
ghost use Rattle.disk_content.specs.Tables.{range_in, copied_bytes};

use m3_model::Memory;
use m3_outside::Passed;
use std::alloc::Global;
use std::marker::Model;

// The bytes of a file, or of a write to it. Contracts see the list of them.
#[derive(Drop)]
pub struct FileBytes {
    bytes: Vec<u8>,
}

impl Model for FileBytes {
    ghost use Rattle.std.specs.Prelude.{ℕ, List};

    ghost Value = { List ℕ };

    ghost view = { λ f. f.bytes.items };
}

// A copy of some bytes. Where there was no memory for it, they are lost: they exist for proofs alone.
#[derive(Drop)]
pub struct Copied {
    pub bytes: FileBytes,
    pub lost: Option<Passed>,
}

// These bytes, for proofs alone.
fn ghost_of(bytes: &[u8]) -> Passed
    ensures { result ≡ bytes.now }
{
    let mut passed = Passed::new();
    passed.add(bytes);
    passed
}

// Copies bytes, into the memory of this vector where it is wide enough.
pub fn copy_of(alloc: Global, vec: Vec<u8>, bytes: &[u8]) -> Copied
    ensures { copied_bytes result.bytes result.lost ≡ bytes.now }
{
    match FileBytes::try_copy(vec, bytes) {
        Ok(bytes) => Copied { bytes, lost: None },
        Err(Memory) => Copied {
            bytes: FileBytes::from_vec(Vec::new(alloc)),
            lost: Some(ghost_of(bytes)),
        },
    }
}

impl FileBytes {
    pub fn from_vec(bytes: Vec<u8>) -> FileBytes
        ensures { result ≡ bytes.items }
    {
        FileBytes { bytes }
    }

    pub fn zeros(alloc: Global, size: usize) -> Result<FileBytes, Memory>
        ensures { IfOk result (λ f. f ≡ replicate size 0) }
    {
        let mut bytes = Vec::new(alloc);
        bytes.resize(size, 0)?;
        Ok(FileBytes { bytes })
    }

    // A copy of these bytes, in a vector whose memory is used again.
    fn try_copy(vec: Vec<u8>, bytes: &[u8]) -> Result<FileBytes, Memory>
        ensures { IfOk result (λ f. f ≡ bytes.now) }
    {
        let mut vec = vec;
        vec.clear();
        vec.extend_from_slice(bytes)?;
        Ok(FileBytes { bytes: vec })
    }

    pub fn into_vec(self) -> Vec<u8>
        ensures { result.items ≡ self }
    {
        self.bytes
    }

    pub fn as_slice(&self) -> &[u8]
        ensures { result.now ≡ self.now }
    {
        self.bytes.as_slice()
    }

    pub fn len(&self) -> u64
        ensures { result ≡ length self.now }
    {
        self.bytes.len() as u64
    }

    pub fn write(&mut self, at: usize, bytes: &[u8])
        requires { at + length bytes.now ≤ length self.old }
        ensures { self.new ≡ patched self.old at bytes.now }
    {
        self.bytes[at..at + bytes.len()].copy_from_slice(bytes);
    }

    // Writes over a part, and gives a copy of what it replaced, in the memory of this vector where it is wide enough.
    pub fn replace(&mut self, alloc: Global, at: usize, bytes: &[u8], vec: Vec<u8>) -> Copied
        requires { at + length bytes.now ≤ length self.old }
        ensures value { copied_bytes result.bytes result.lost ≡ range_in at (length bytes.now) (Some self.old) }
        ensures after { self.new ≡ patched self.old at bytes.now }
    {
        let replaced = copy_of(alloc, vec, &self.bytes[at..at + bytes.len()]);
        self.write(at, bytes);
        replaced
    }

    // Exchanges a part for these bytes.
    pub fn exchange(&mut self, at: usize, other: &mut FileBytes)
        requires { at + length other.old ≤ length self.old }
        ensures other { other.new ≡ range_in at (length other.old) (Some self.old) }
        ensures after { self.new ≡ patched self.old at other.old }
    {
        let count = other.bytes.len();
        self.bytes[at..at + count].swap_with_slice(&mut other.bytes);
    }

    // Subtracts each byte from 255.
    pub fn flip(&mut self)
        ensures { self.new ≡ map (λ b. 255 - b) self.old }
    {
        for byte in self.bytes.iter_mut() {
            *byte = 255 - *byte;
        }
    }

    pub fn read(&self, at: usize, buf: &mut [u8])
        requires { at + length buf.old ≤ length self.now }
        ensures { buf.new ≡ take (length buf.new) (drop at self.now) }
    {
        let bytes = self.bytes.as_slice();
        buf.copy_from_slice(&bytes[at..at + buf.len()]);
    }
}
