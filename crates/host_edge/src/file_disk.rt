ghost use Rattle.std.specs.Prelude.{◌≡◌, ⊤, true, false, IfOk, OnOk, OnErr, IsErr};
ghost use Rattle.m3_outside.specs.Causes.{CountsFaults, count_after};
ghost use Rattle.m3_outside.specs.DiskState.{IsEmpty};
ghost use Rattle.host_edge.specs.Silent.{silent, Refuses};

use crate::folder::{make_file, make_folder, names_in, sync_folder, take_unfinished};
use crate::paths::Paths;
use m3_outside::{Disk, DiskErr, Failed, FileName, NameList};
use std::alloc::AllocError;
use std::fs;
use std::io::{self, ErrorKind};
use std::marker::Model;
use std::os::unix::fs::FileExt;

/// A disk in a folder of the host, which is made with its first file. Contracts see it as its count of faults, and whether it is
/// broken, since a sync failed.
///
/// A file is made as zeros under a second name, synced and then named, so that later writes need no space and a sync commits
/// data alone. Names are there for good once the folder was synced, which is done behind each creation and removal, and in a
/// process before the first sync. After a sync that failed nothing more is tried: what the host has of the files isn't known then, and a later
/// sync that answers Ok would say nothing. A restart changes nothing of all that.
#[derive(Drop)]
pub struct FileDisk {
    rt: HostRuntime,
    paths: Paths,
    // the file that was used last
    used: Option<(FileName, fs::File)>,
    // the names that an earlier process left are there for good, and so is the folder's own
    settled: bool,
    // a sync failed
    broken: bool,
    faults: u64,
}

impl Model for FileDisk {
    ghost use Rattle.host_edge.specs.Silent.{FileDiskState};

    ghost Value = { FileDiskState };

    ghost view = { λ d. record { faults = d.faults; broken = d.broken } };
}

impl FileDisk {
    // A disk in this folder. What a stop left there of files that were being made is taken away.
    pub(crate) fn open(rt: HostRuntime, folder: String) -> io::Result<FileDisk>
        ensures empty { IfOk result (λ d. IsEmpty (silent d)) }
        ensures begins { IfOk result (λ d. d ≡ record { faults = 0; broken = false }) }
    {
        take_unfinished(rt, folder.as_str())?;
        let paths = Paths::new(rt.alloc(), folder)?;
        Ok(FileDisk {
            rt,
            paths,
            used: None,
            settled: false,
            broken: false,
            faults: 0,
        })
    }

    // Counts a fault.
    fn fault(&mut self) -> Failed
        ensures counts { CountsFaults ⊤ self.old.faults self.new.faults }
        ensures one { self.new ≡ record self.old { faults = count_after self.old.faults } }
    {
        self.faults = self.faults.saturating_add(1);
        Failed
    }

    // Whether calls are tried still.
    fn stands(&self) -> io::Result<()>
        ensures ok { OnOk result (self.now.broken ≡ false) }
        ensures err { OnErr result (self.now.broken ≡ true) }
    {
        if self.broken {
            return Err(ErrorKind::Other.into());
        }
        Ok(())
    }

    // What a sync answered, behind which nothing more is tried where it failed.
    fn synced(&mut self, answer: io::Result<()>) -> io::Result<()>
        ensures faults { self.new.faults ≡ self.old.faults }
        ensures stays { self.old.broken ≡ true → self.new.broken ≡ true }
        ensures breaks { OnErr result (self.new.broken ≡ true) }
    {
        if answer.is_err() {
            self.broken = true;
            self.used = None;
        }
        answer
    }

    fn sync_names(&mut self) -> io::Result<()>
        ensures faults { self.new.faults ≡ self.old.faults }
        ensures stays { self.old.broken ≡ true → self.new.broken ≡ true }
        ensures breaks { OnErr result (self.new.broken ≡ true) }
    {
        let answer = sync_folder(self.rt, self.paths.folder());
        self.synced(answer)
    }

    fn sync_parent(&mut self) -> io::Result<()>
        ensures faults { self.new.faults ≡ self.old.faults }
        ensures stays { self.old.broken ≡ true → self.new.broken ≡ true }
        ensures breaks { OnErr result (self.new.broken ≡ true) }
    {
        let answer = match self.paths.parent() {
            Ok(parent) => sync_folder(self.rt, parent),
            Err(error) => Err(error.into()),
        };
        self.synced(answer)
    }

    // An earlier process may have left names that aren't there for good.
    fn settle(&mut self) -> io::Result<()>
        ensures faults { self.new.faults ≡ self.old.faults }
        ensures stays { self.old.broken ≡ true → self.new.broken ≡ true }
        ensures breaks { OnErr result (self.new.broken ≡ true) }
    {
        if self.settled {
            return Ok(());
        }
        self.sync_names()?;
        self.sync_parent()?;
        self.settled = true;
        Ok(())
    }

    // Opens the file, unless it is the one that was used last.
    fn open_file(&mut self, name: FileName) -> io::Result<()>
        ensures { self.new ≡ self.old }
    {
        if let Some((last, _)) = &self.used
            && *last == name
        {
            return Ok(());
        }
        self.used = None;
        let path = self.paths.path(name)?;
        let file = fs::OpenOptions::new()
            .read(true)
            .write(true)
            .open(&self.rt, path)?;
        self.used = Some((name, file));
        Ok(())
    }

    fn make(&mut self, name: FileName, size: u64) -> io::Result<()>
        ensures faults { self.new.faults ≡ self.old.faults }
        ensures refuses { Refuses result self.old self.new }
    {
        self.stands()?;
        make_folder(self.rt, self.paths.folder())?;
        self.settle()?;
        let (fresh, path) = self.paths.both(name)?;
        make_file(self.rt, fresh, path, size)?;
        self.sync_names()
    }

    fn put(&mut self, name: FileName, at: u64, bytes: &[u8]) -> io::Result<()>
        ensures same { self.new ≡ self.old }
        ensures refuses { Refuses result self.old self.new }
    {
        self.stands()?;
        self.open_file(name)?;
        match &self.used {
            Some((_, file)) => file.write_all_at(bytes, at),
            None => Err(ErrorKind::NotFound.into()),
        }
    }

    // Commits the data of the file.
    fn commit(&mut self, name: FileName) -> io::Result<()>
        ensures { self.new ≡ self.old }
    {
        self.open_file(name)?;
        match &self.used {
            Some((_, file)) => file.sync_data(),
            None => Err(ErrorKind::NotFound.into()),
        }
    }

    fn flush(&mut self, name: FileName) -> io::Result<()>
        ensures faults { self.new.faults ≡ self.old.faults }
        ensures refuses { Refuses result self.old self.new }
        ensures breaks { OnErr result (self.new.broken ≡ true) }
    {
        self.stands()?;
        self.settle()?;
        let answer = self.commit(name);
        self.synced(answer)
    }

    fn fill(&mut self, name: FileName, at: u64, buf: &mut [u8]) -> io::Result<()>
        ensures same { self.new ≡ self.old }
        ensures refuses { Refuses result self.old self.new }
    {
        self.stands()?;
        self.open_file(name)?;
        match &self.used {
            Some((_, file)) => file.read_exact_at(buf, at),
            None => Err(ErrorKind::NotFound.into()),
        }
    }

    fn measure(&mut self, name: FileName) -> io::Result<Option<u64>>
        ensures same { self.new ≡ self.old }
        ensures refuses { Refuses result self.old self.new }
    {
        self.stands()?;
        let path = self.paths.path(name)?;
        match fs::metadata(&self.rt, path) {
            Ok(found) => Ok(Some(found.len())),
            Err(error) if error.kind() == ErrorKind::NotFound => Ok(None),
            Err(error) => Err(error),
        }
    }

    fn take_away(&mut self, name: FileName) -> io::Result<()>
        ensures faults { self.new.faults ≡ self.old.faults }
        ensures refuses { Refuses result self.old self.new }
    {
        self.stands()?;
        self.used = None;
        let path = self.paths.path(name)?;
        fs::remove_file(&self.rt, path)?;
        self.sync_names()
    }

    fn names(&self) -> io::Result<Vec<FileName>>
        ensures { OnOk result (self.now.broken ≡ false) }
    {
        self.stands()?;
        names_in(self.rt, self.paths.folder())
    }
}

impl Disk for FileDisk {
    ghost use Rattle.std.specs.Prelude.{◌≡◌, true, OnErr, IsErr, IsErrOf};
    ghost use Rattle.m3_outside.specs.DiskCalls.{Reserves, Creates, Writes, Syncs, Reads, Sizes, Removes, Lists, Restarts};
    ghost use Rattle.host_edge.specs.Silent.{silent, lawful_silent, CountsOne, Refuses};

    ghost state = { silent };

    ghost lawful = { lawful_silent };

    /// Names are spelled in room that is there from the beginning, so there is always enough.
    fn reserve(&mut self, calls: u64) -> Result<(), DiskErr>
        ensures disk { Reserves calls result (silent self.old) (silent self.new) }
        ensures same { self.new ≡ self.old }
    {
        let _ = calls;
        Ok(())
    }

    fn create(&mut self, name: FileName, size: u64) -> Result<(), DiskErr>
        ensures disk { Creates name size result (silent self.old) (silent self.new) }
        ensures counted { CountsOne (IsErr result) self.old.faults self.new.faults }
        ensures refuses { Refuses result self.old self.new }
    {
        match self.make(name, size) {
            Ok(()) => Ok(()),
            Err(_) => Err(DiskErr::from(self.fault())),
        }
    }

    fn write_at(&mut self, name: FileName, at: u64, bytes: &[u8]) -> Result<(), Failed>
        ensures disk { Writes name at bytes.now result (silent self.old) (silent self.new) }
        ensures counted { CountsOne (IsErr result) self.old.faults self.new.faults }
        ensures refuses { Refuses result self.old self.new }
    {
        match self.put(name, at, bytes) {
            Ok(()) => Ok(()),
            Err(_) => Err(self.fault()),
        }
    }

    fn sync(&mut self, name: FileName) -> Result<(), Failed>
        ensures disk { Syncs name result (silent self.old) (silent self.new) }
        ensures counted { CountsOne (IsErr result) self.old.faults self.new.faults }
        ensures refuses { Refuses result self.old self.new }
        ensures breaks { OnErr result (self.new.broken ≡ true) }
    {
        match self.flush(name) {
            Ok(()) => Ok(()),
            Err(_) => Err(self.fault()),
        }
    }

    fn read(&mut self, name: FileName, at: u64, buf: &mut [u8]) -> Result<(), Failed>
        ensures disk { Reads name at buf.new result (silent self.old) (silent self.new) }
        ensures counted { CountsOne (IsErr result) self.old.faults self.new.faults }
        ensures refuses { Refuses result self.old self.new }
    {
        match self.fill(name, at, buf) {
            Ok(()) => Ok(()),
            Err(_) => Err(self.fault()),
        }
    }

    fn size(&mut self, name: FileName) -> Result<Option<u64>, Failed>
        ensures disk { Sizes name result (silent self.old) (silent self.new) }
        ensures counted { CountsOne (IsErr result) self.old.faults self.new.faults }
        ensures refuses { Refuses result self.old self.new }
    {
        match self.measure(name) {
            Ok(size) => Ok(size),
            Err(_) => Err(self.fault()),
        }
    }

    fn remove(&mut self, name: FileName) -> Result<(), Failed>
        ensures disk { Removes name result (silent self.old) (silent self.new) }
        ensures counted { CountsOne (IsErr result) self.old.faults self.new.faults }
        ensures refuses { Refuses result self.old self.new }
    {
        match self.take_away(name) {
            Ok(()) => Ok(()),
            Err(_) => Err(self.fault()),
        }
    }

    fn list(&mut self) -> Result<NameList, DiskErr>
        ensures disk { Lists result (silent self.old) (silent self.new) }
        ensures counted { CountsOne (IsErrOf result DiskErr.Failed) self.old.faults self.new.faults }
        ensures refuses { Refuses result self.old self.new }
    {
        match self.names() {
            Ok(names) => Ok(NameList::from_vec(names)),
            Err(error) if error.kind() == ErrorKind::OutOfMemory => Err(DiskErr::Memory),
            Err(_) => Err(DiskErr::from(self.fault())),
        }
    }

    /// Changes nothing: what the host has, it has still.
    fn restart(&mut self, pick: u64) -> Result<(), DiskErr>
        ensures disk { Restarts result (silent self.old) (silent self.new) }
        ensures same { self.new ≡ self.old }
    {
        let _ = pick;
        Ok(())
    }

    /// A sync waits for the device.
    fn waits(&self) -> bool
        ensures { result ≡ true }
    {
        true
    }

    fn faults(&self) -> u64 {
        self.faults
    }
}
