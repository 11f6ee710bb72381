//! A disk that counts what is read of it.
use m3_outside::{Disk, DiskErr, Failed, FileName, NameList};
use std::alloc::Global;

// A file with its name.
#[derive(Drop)]
struct File {
    name: FileName,
    bytes: Vec<u8>,
}

/// Files in memory, of which no clause says anything. Counts the reads and how many bytes the longest of them had.
#[derive(Drop)]
pub struct CountedDisk {
    alloc: Global,
    files: Vec<File>,
    faults: u64,
    /// So many reads were done, and so many bytes had the longest.
    pub reads: u64,
    pub longest: u64,
    /// The read that fails, once so many others are done.
    pub failing: Option<u64>,
}

fn put_bytes(files: &mut [File], position: usize, at: usize, bytes: &[u8]) -> bool {
    let Some(file) = files.get_mut(position) else {
        return false;
    };
    let len = file.bytes.len();
    if at > len || bytes.len() > len - at {
        return false;
    }
    file.bytes[at..at + bytes.len()].copy_from_slice(bytes);
    true
}

fn get_bytes(bytes: &[u8], at: usize, buf: &mut [u8]) -> bool {
    if at > bytes.len() || buf.len() > bytes.len() - at {
        return false;
    }
    buf.copy_from_slice(&bytes[at..at + buf.len()]);
    true
}

impl CountedDisk {
    ghost use Rattle.std.specs.Prelude.{◌≡◌, ⊤};
    ghost use Rattle.m3_outside.specs.Causes.{CountsFaults};

    pub fn new(alloc: Global) -> CountedDisk {
        CountedDisk {
            alloc,
            files: Vec::new(alloc),
            faults: 0,
            reads: 0,
            longest: 0,
            failing: None,
        }
    }

    /// Counts from nothing on.
    pub fn begin(&mut self) {
        self.reads = 0;
        self.longest = 0;
        self.failing = None;
    }

    // The position of the file among the files.
    fn position(&self, name: FileName) -> Option<usize> {
        self.files.iter().position(|file| file.name == name)
    }

    fn file(&self, name: FileName) -> Option<&File> {
        match self.position(name) {
            Some(position) => self.files.get(position),
            None => None,
        }
    }

    /// Writes over the bytes from an offset on. Says whether there are so many.
    pub fn put(&mut self, name: FileName, at: usize, bytes: &[u8]) -> bool
        ensures { self.new.faults ≡ self.old.faults }
    {
        let Some(position) = self.position(name) else {
            return false;
        };
        put_bytes(&mut self.files, position, at, bytes)
    }

    // Fills the buffer with the bytes from an offset on. Says whether there are so many.
    fn get(&self, name: FileName, at: usize, buf: &mut [u8]) -> bool {
        let Some(file) = self.file(name) else {
            return false;
        };
        get_bytes(&file.bytes, at, buf)
    }

    // One fault more.
    fn fault(&mut self) -> Failed
        ensures { CountsFaults ⊤ self.old.faults self.new.faults }
    {
        self.faults = self.faults.saturating_add(1);
        Failed
    }
}

impl Disk for CountedDisk {
    ghost use Rattle.lookup_tests.specs.Silent.{silent, silent_is_lawful};

    ghost state = { λ d. silent d.faults };

    ghost lawful = { λ d. silent_is_lawful d.faults };

    fn reserve(&mut self, _calls: u64) -> Result<(), DiskErr> {
        Ok(())
    }

    fn create(&mut self, name: FileName, size: u64) -> Result<(), DiskErr> {
        let bytes = vec![in self.alloc; 0u8; size as usize]?;
        self.files.push(File { name, bytes })?;
        Ok(())
    }

    fn write_at(&mut self, name: FileName, at: u64, bytes: &[u8]) -> Result<(), Failed> {
        self.put(name, at as usize, bytes);
        Ok(())
    }

    fn sync(&mut self, _name: FileName) -> Result<(), Failed> {
        Ok(())
    }

    fn read(&mut self, name: FileName, at: u64, buf: &mut [u8]) -> Result<(), Failed> {
        let fails = self.failing == Some(self.reads);
        self.reads = self.reads.saturating_add(1);
        self.longest = self.longest.max(buf.len() as u64);
        if !fails && self.get(name, at as usize, buf) {
            return Ok(());
        }
        Err(self.fault())
    }

    fn size(&mut self, name: FileName) -> Result<Option<u64>, Failed> {
        match self.file(name) {
            Some(file) => Ok(Some(file.bytes.len() as u64)),
            None => Ok(None),
        }
    }

    fn remove(&mut self, name: FileName) -> Result<(), Failed> {
        let position = self.position(name).unwrap_or(self.files.len());
        if position < self.files.len() {
            self.files.remove(position);
        }
        Ok(())
    }

    fn list(&mut self) -> Result<NameList, DiskErr> {
        let mut names = Vec::new(self.alloc);
        for file in &self.files {
            names.push(file.name)?;
        }
        names.sort_unstable();
        Ok(NameList::from_vec(names))
    }

    fn restart(&mut self, _pick: u64) -> Result<(), DiskErr> {
        Ok(())
    }

    fn waits(&self) -> bool {
        false
    }

    fn faults(&self) -> u64 {
        self.faults
    }
}
