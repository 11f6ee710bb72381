ghost use Rattle.std.specs.Prelude.{◌≡◌, IfOk, OnOk, OnErr, length, replicate};
ghost use Rattle.std.specs.Option.{option_copied};
ghost use Rattle.std.specs.FinMap as finite;
ghost use Rattle.m3_outside.specs.Files.{IsInside};
ghost use Rattle.disk_content.specs.Tables.{with_bytes, range_in, copied_bytes};

use crate::file_bytes::{Copied, FileBytes};
use indexmap::IndexMap;
use m3_model::Memory;
use m3_outside::FileName;
use std::alloc::Global;
use std::marker::Model;

// Files by their names. Contracts see the finite map.
#[derive(Drop)]
pub struct FileTable {
    map: IndexMap<FileName, FileBytes>,
}

impl Model for FileTable {
    ghost use Rattle.std.specs.FinMap.{from_entries};
    ghost use Rattle.m3_outside.specs.Files.{Files};
    ghost use Rattle.disk_content.specs.Tables.{files_code};

    ghost Value = { Files };

    ghost coded = { files_code };

    ghost view = { λ t. from_entries t.map.entries };
}

impl FileTable {
    pub fn new(alloc: Global) -> FileTable
        ensures { result ≡ finite.empty }
    {
        FileTable {
            map: IndexMap::new(alloc),
        }
    }

    // The bytes of a file, in constant expected time, as all look-ups below.
    pub fn get(&self, name: FileName) -> Option<&FileBytes>
        ensures { option_copied result ≡ finite.get self.now name }
    {
        self.map.get(&name)
    }

    fn insert(&mut self, name: FileName, bytes: FileBytes) -> Result<(), Memory>
        ensures ok { OnOk result (self.new ≡ finite.insert self.old name bytes) }
        ensures err { OnErr result (self.new ≡ self.old) }
    {
        self.map.insert(name, bytes)?;
        Ok(())
    }

    // Makes a file of so many zeros.
    pub fn insert_zeros(&mut self, alloc: Global, name: FileName, size: usize) -> Result<(), Memory>
        ensures ok { OnOk result (self.new ≡ finite.insert self.old name (replicate size 0)) }
        ensures err { OnErr result (self.new ≡ self.old) }
    {
        let bytes = FileBytes::zeros(alloc, size)?;
        self.insert(name, bytes)
    }

    pub fn remove(&mut self, name: FileName)
        ensures { self.new ≡ finite.remove self.old name }
    {
        self.map.swap_remove(&name);
    }

    // Writes over a part of a file.
    pub fn write(&mut self, name: FileName, at: usize, bytes: &[u8])
        requires { IsInside name at (length bytes.now) self.old }
        ensures { self.new ≡ with_bytes name at bytes.now self.old }
    {
        if let Some(file) = self.map.get_mut(&name) {
            file.write(at, bytes);
        }
    }

    // Writes over a part of a file, and gives a copy of what it replaced, in the memory of this vector where it is wide enough.
    pub fn replace(
        &mut self,
        alloc: Global,
        name: FileName,
        at: usize,
        bytes: &[u8],
        vec: Vec<u8>,
    ) -> Copied
        requires { IsInside name at (length bytes.now) self.old }
        ensures value { copied_bytes result.bytes result.lost ≡ range_in at (length bytes.now) (finite.get self.old name) }
        ensures after { self.new ≡ with_bytes name at bytes.now self.old }
    {
        match self.map.get_mut(&name) {
            Some(file) => file.replace(alloc, at, bytes, vec),
            None => unreachable!(),
        }
    }

    // Exchanges a part of a file for these bytes.
    pub fn exchange(&mut self, name: FileName, at: usize, other: &mut FileBytes)
        requires { IsInside name at (length other.old) self.old }
        ensures other { other.new ≡ range_in at (length other.old) (finite.get self.old name) }
        ensures after { self.new ≡ with_bytes name at other.old self.old }
    {
        match self.map.get_mut(&name) {
            Some(file) => file.exchange(at, other),
            None => unreachable!(),
        }
    }

    // All names, ascending. The map doesn't keep them in order, so they are sorted here.
    pub fn names(&self, alloc: Global) -> Result<Vec<FileName>, Memory>
        ensures { IfOk result (λ names. names.items ≡ finite.keys self.now) }
    {
        let mut names: Vec<FileName> = self.map.keys().copied().collect(alloc)?;
        names.sort_unstable();
        Ok(names)
    }
}
