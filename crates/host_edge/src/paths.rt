//! Paths in a disk's folder, spelled without taking memory.
use file_names::{NAME_ROOM, add_name};
use m3_outside::FileName;
use std::alloc::{AllocError, Global};

// A file that is being made has this behind its name.
pub(crate) const UNFINISHED: &str = ".new";

// What comes before a name in a path, and behind it, beside the folder's.
const MORE_ROOM: usize = 8;

// A folder, and room for two paths in it.
#[derive(Drop)]
pub(crate) struct Paths {
    folder: String,
    path: String,
    second: String,
}

impl Paths {
    pub(crate) fn new(alloc: Global, folder: String) -> Result<Paths, AllocError> {
        let room = folder.len().saturating_add(NAME_ROOM + MORE_ROOM);
        Ok(Paths {
            path: String::with_capacity(alloc, room)?,
            second: String::with_capacity(alloc, room)?,
            folder,
        })
    }

    pub(crate) fn folder(&self) -> &str {
        self.folder.as_str()
    }

    // The folder that it is in.
    pub(crate) fn parent(&mut self) -> Result<&str, AllocError> {
        self.path.clear();
        self.path.push_str(self.folder.as_str())?;
        self.path.push_str("/..")?;
        Ok(self.path.as_str())
    }

    // The path of a file.
    pub(crate) fn path(&mut self, name: FileName) -> Result<&str, AllocError> {
        self.path.clear();
        self.path.push_str(self.folder.as_str())?;
        self.path.push_str("/")?;
        self.path.reserve(NAME_ROOM)?;
        add_name(&mut self.path, name);
        Ok(self.path.as_str())
    }

    // The path under which a file is made, and its own.
    pub(crate) fn both(&mut self, name: FileName) -> Result<(&str, &str), AllocError> {
        self.path(name)?;
        self.second.clear();
        self.second.push_str(self.path.as_str())?;
        self.second.push_str(UNFINISHED)?;
        Ok((self.second.as_str(), self.path.as_str()))
    }
}
