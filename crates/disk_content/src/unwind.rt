ghost use Rattle.std.specs.Prelude.{◌≡◌, map};
ghost use Rattle.std.specs.FinMap as finite;
ghost use Rattle.disk_content.specs.Contents.{FitsFile};
ghost use Rattle.disk_content.specs.Undo.{AllLieIn, as_write, files_before, write_of, unwound};

use crate::file_table::FileTable;
use crate::undo_log::UndoEntry;

// Undoes the write of an entry, which then has what was written.
fn take_back(files: &mut FileTable, entry: &mut UndoEntry)
    requires { FitsFile (as_write entry.old) (finite.get files.old entry.old.name) }
    ensures files { files.new ≡ files_before entry.old files.old }
    ensures wrote { as_write entry.new ≡ write_of entry.old files.old }
{
    if entry.done {
        files.exchange(entry.name, entry.at, &mut entry.bytes);
    }
}

// Undoes the writes of these entries, the last of them first. Each then has what was written.
pub fn unwind(files: &mut FileTable, entries: &mut [UndoEntry])
    requires { AllLieIn entries.old files.old }
    ensures files { files.new ≡ (unwound entries.old files.old).files }
    ensures writes { map as_write entries.new ≡ (unwound entries.old files.old).writes }
{
    let mut left = entries.len();
    while left > 0 {
        left -= 1;
        take_back(files, &mut entries[left]);
    }
}
