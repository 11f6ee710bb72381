ghost use Rattle.std.specs.Prelude.{◌≡◌, ◌≤◌, length, map};
ghost use Rattle.disk_content.specs.Contents.{AllFit};
ghost use Rattle.disk_content.specs.Undo.{as_write};
ghost use Rattle.disk_content.specs.Picks.{picked_bytes, picked_files};

use crate::file_bytes::FileBytes;
use crate::file_table::FileTable;
use crate::undo_log::UndoEntry;

// What a digit leaves of a write, whose bytes may be changed for it.
fn picked_bytes<'a>(digit: u64, bytes: &'a mut FileBytes) -> &'a [u8]
    ensures { result.now ≡ picked_bytes digit bytes.old }
{
    if digit > 2 {
        bytes.flip();
    }
    let bytes = bytes.as_slice();
    match digit {
        0 => &[],
        2 => &bytes[..bytes.len() / 2],
        _ => bytes,
    }
}

// Does the writes in their order, as the digits of the pick say, where each entry has what was written.
pub fn apply(files: &mut FileTable, entries: &mut [UndoEntry], pick: u64)
    requires { AllFit (map as_write entries.old) files.old }
    ensures { files.new ≡ picked_files pick (map as_write entries.old) files.old }
{
    let mut digits = pick;
    for entry in entries.iter_mut() {
        let left = picked_bytes(digits % 4, &mut entry.bytes);
        files.write(entry.name, entry.at, left);
        digits /= 4;
    }
}
