ghost use Rattle.std.specs.Prelude.{◌≡◌, ◌+◌, ◌++◌, ◌≤◌, length, codes, decimal, string_bytes, string_len, string_capacity};
ghost use Rattle.file_names.specs.Names.{HasNameRoom, folder_text, name_text, part_text, segment_text, snapshot_text, volume_text};

use itoa::Buffer;
use m3_outside::{DiskSlot, FileName};

/// No name of a file or of a slot's folder has more bytes.
pub const NAME_ROOM: usize = 96;

// Adds to a name for which there is room.
fn add(name: &mut String, part: &str)
    requires { string_len name.old + length part.now ≤ string_capacity name.old }
    ensures bytes { string_bytes name.new ≡ string_bytes name.old ++ part.now }
    ensures len { string_len name.new ≡ string_len name.old + length part.now }
    ensures capacity { string_capacity name.old ≤ string_capacity name.new }
{
    name.push_str(part).unwrap();
}

fn add_number(name: &mut String, number: u64)
    requires { string_len name.old + 20 ≤ string_capacity name.old }
    ensures bytes { string_bytes name.new ≡ string_bytes name.old ++ decimal number }
    ensures len { string_len name.new ≤ string_len name.old + 20 }
    ensures capacity { string_capacity name.old ≤ string_capacity name.new }
{
    let mut digits = Buffer::new();
    add(name, digits.format(number));
}

// Which part of a volume or of a snapshot the file of this kind is.
fn part_text(kind: u8) -> &'static str
    ensures text { result.now ≡ part_text kind }
    ensures short { length result.now ≤ 10 }
{
    match kind {
        1 => "info",
        2 => "summaries",
        3 => "index",
        4 | 8 => "data",
        5 => "bloom",
        6 => "digests",
        _ => "checkpoint",
    }
}

fn add_segment(name: &mut String, number: u64)
    requires { HasNameRoom name.old }
    ensures { string_bytes name.new ≡ string_bytes name.old ++ segment_text number }
{
    add(name, "log-");
    add_number(name, number);
    add(name, ".db");
}

fn add_snapshot(name: &mut String, kind: u8, number: u64)
    requires { HasNameRoom name.old }
    ensures { string_bytes name.new ≡ string_bytes name.old ++ snapshot_text kind number }
{
    add(name, "snapshot-");
    add_number(name, number);
    add(name, "-");
    add(name, part_text(kind));
    add(name, ".db");
}

// The name of a volume's file up to the volume's number.
fn add_block(name: &mut String, file: FileName)
    requires { HasNameRoom name.old }
    ensures bytes { string_bytes name.new ≡ string_bytes name.old ++ (codes "fileset-" ++ (decimal file.ns ++ (codes "-" ++ (decimal file.block ++ codes "-")))) }
    ensures len { string_len name.new ≤ string_len name.old + 50 }
    ensures capacity { string_capacity name.old ≤ string_capacity name.new }
{
    add(name, "fileset-");
    add_number(name, file.ns as u64);
    add(name, "-");
    add_number(name, file.block);
    add(name, "-");
}

fn add_volume(name: &mut String, file: FileName)
    requires { HasNameRoom name.old }
    ensures { string_bytes name.new ≡ string_bytes name.old ++ volume_text file }
{
    add_block(name, file);
    add_number(name, file.number);
    add(name, "-");
    add(name, part_text(file.kind));
    add(name, ".db");
}

/// Adds the name of a file to a text that has room for it. Takes no memory, here and below.
pub fn add_name(text: &mut String, file: FileName)
    requires { HasNameRoom text.old }
    ensures { string_bytes text.new ≡ string_bytes text.old ++ name_text file }
{
    match file.kind {
        0 => add_segment(text, file.number),
        8 => add_snapshot(text, 8, file.number),
        9 => add_snapshot(text, 9, file.number),
        _ => add_volume(text, file),
    }
}

/// Adds the name of the folder in which a slot's disk keeps its files.
pub fn add_folder(text: &mut String, slot: DiskSlot)
    requires { HasNameRoom text.old }
    ensures { string_bytes text.new ≡ string_bytes text.old ++ folder_text slot }
{
    if slot == DiskSlot::META {
        add(text, "meta");
        return;
    }
    add_number(text, slot.node as u64);
    add(text, "-");
    add_number(text, slot.shard as u64);
}
