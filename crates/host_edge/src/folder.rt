//! Folders of the host, and files made in them. All are for their owner alone.
use crate::paths::UNFINISHED;
use file_names::{NAME_ROOM, name_of};
use m3_outside::FileName;
use std::alloc::AllocError;
use std::fs;
use std::io::{self, ErrorKind, Write};
use std::os::unix::fs::{DirBuilderExt, OpenOptionsExt};

// How much of a new file is written at once.
const PIECE: usize = 65536;

const OWNERS_FOLDER: u32 = 0o700;

const OWNERS_FILE: u32 = 0o600;

// Makes the folder where it isn't there, and answers whether it did. That in which it is has to be there.
pub(crate) fn make_folder(rt: HostRuntime, folder: &str) -> io::Result<bool> {
    let mut builder = fs::DirBuilder::new();
    builder.mode(OWNERS_FOLDER);
    match builder.create(&rt, folder) {
        Ok(()) => Ok(true),
        Err(error) if error.kind() == ErrorKind::AlreadyExists => Ok(false),
        Err(error) => Err(error),
    }
}

// Syncs a folder, so that all names in it are there for good.
pub(crate) fn sync_folder(rt: HostRuntime, folder: &str) -> io::Result<()> {
    fs::File::open(&rt, folder)?.sync_all()
}

fn write_zeros(file: &mut fs::File, size: u64) -> io::Result<()> {
    let zeros = [0u8; PIECE];
    for _ in 0..size / PIECE as u64 {
        file.write_all(&zeros)?;
    }
    file.write_all(&zeros[..(size % PIECE as u64) as usize])
}

// A file of zeros, for which the host has all space that it needs from then on, and which is there with its bytes once it is named.
fn make_zeros(rt: HostRuntime, path: &str, size: u64) -> io::Result<()> {
    let mut options = fs::OpenOptions::new();
    options
        .write(true)
        .create(true)
        .truncate(true)
        .mode(OWNERS_FILE);
    let mut file = options.open(&rt, path)?;
    write_zeros(&mut file, size)?;
    file.sync_all()
}

// Fails where something has this path already.
fn is_free(rt: HostRuntime, path: &str) -> io::Result<()> {
    match fs::symlink_metadata(&rt, path) {
        Err(error) if error.kind() == ErrorKind::NotFound => Ok(()),
        Err(error) => Err(error),
        Ok(_) => Err(ErrorKind::AlreadyExists.into()),
    }
}

// Makes a file of zeros under another path, and then names it: over no other file. Where that fails, it takes away what it made.
pub(crate) fn make_file(rt: HostRuntime, fresh: &str, path: &str, size: u64) -> io::Result<()> {
    is_free(rt, path)?;
    let made = match make_zeros(rt, fresh, size) {
        Ok(()) => fs::rename(&rt, fresh, path),
        Err(error) => Err(error),
    };
    if made.is_err() {
        let _ = fs::remove_file(&rt, fresh);
    }
    made
}

// Whether it is what was left of a file that was being made.
fn is_unfinished(text: &str, room: &mut String) -> Result<bool, AllocError> {
    match text.strip_suffix(UNFINISHED) {
        Some(name) => Ok(name_of(name, room)?.is_some()),
        None => Ok(false),
    }
}

// The names of the format in a folder, ascending; none where there is no folder. Others are left alone.
pub(crate) fn names_in(rt: HostRuntime, folder: &str) -> io::Result<Vec<FileName>> {
    let mut names = Vec::new(rt.alloc());
    let mut room = String::with_capacity(rt.alloc(), NAME_ROOM)?;
    let entries = match fs::read_dir(&rt, folder) {
        Ok(entries) => entries,
        Err(error) if error.kind() == ErrorKind::NotFound => return Ok(names),
        Err(error) => return Err(error),
    };
    for entry in entries {
        match entry {
            Ok(entry) => {
                if let Some(name) = name_of(entry.file_name(), &mut room)? {
                    names.push(name)?;
                }
            }
            // It isn't UTF-8.
            Err(error) if error.kind() == ErrorKind::InvalidFilename => {}
            Err(error) => return Err(error),
        }
    }
    names.sort_unstable();
    Ok(names)
}

// Takes away what a stop left of files that were being made. All other names are left alone.
pub(crate) fn take_unfinished(rt: HostRuntime, folder: &str) -> io::Result<()> {
    let mut room = String::with_capacity(rt.alloc(), NAME_ROOM)?;
    let entries = match fs::read_dir(&rt, folder) {
        Ok(entries) => entries,
        Err(error) if error.kind() == ErrorKind::NotFound => return Ok(()),
        Err(error) => return Err(error),
    };
    for entry in entries {
        match entry {
            Ok(entry) => {
                if is_unfinished(entry.file_name(), &mut room)? {
                    fs::remove_file(&rt, entry.path())?;
                }
            }
            // It isn't UTF-8.
            Err(error) if error.kind() == ErrorKind::InvalidFilename => {}
            Err(error) => return Err(error),
        }
    }
    Ok(())
}
