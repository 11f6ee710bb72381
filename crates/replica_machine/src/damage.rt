ghost use Rattle.std.specs.Prelude.{◌≡◌, IfOk};
ghost use Rattle.file_names.specs.Names.{name_text};
ghost use Rattle.shard_store.specs.shard_files.Damage.{OfDigest, OfForm};
ghost use Rattle.replica_machine.specs.Damages.{told_of, IsNameRoom};

use file_names::{NAME_ROOM, add_name};
use m3_model::{Damage, Memory, Text};
use m3_outside::FileName;
use std::alloc::Global;

/// Room for the name of any file, in which `named_damage` writes it without taking memory.
pub(crate) fn name_room(alloc: Global) -> Result<String, Memory>
    ensures { IfOk result IsNameRoom }
{
    let room = String::with_capacity(alloc, NAME_ROOM)?;
    Ok(room)
}

// The file's name as it is printed.
fn file_text(room: String, file: FileName) -> Text
    requires { IsNameRoom room }
    ensures { result ≡ name_text file }
{
    let mut name = room;
    add_name(&mut name, file);
    Text::from_string(name)
}

/// The damage of a file that isn't that of a volume. Takes no memory beyond the room for its name.
pub(crate) fn named_damage(room: String, file: FileName) -> Damage
    requires { IsNameRoom room }
    ensures { result ≡ told_of (OfForm file 0) }
{
    Damage::Form {
        file: file_text(room, file),
        at: 0,
    }
}

/// The damage of the file, which goes on at this offset as no such file does.
pub(crate) fn damaged_form(alloc: Global, file: FileName, at: u64) -> Result<Damage, Memory>
    ensures { IfOk result (λ damage. damage ≡ told_of (OfForm file at)) }
{
    let room = name_room(alloc)?;
    let file = file_text(room, file);
    Ok(Damage::Form { file, at })
}

/// The damage of the file, which has another digest than is kept of it.
pub(crate) fn damaged_digest(
    alloc: Global,
    file: FileName,
    kept: [u8; 32],
    found: [u8; 32],
) -> Result<Damage, Memory>
    ensures { IfOk result (λ damage. damage ≡ told_of (OfDigest file kept found)) }
{
    let room = name_room(alloc)?;
    let file = file_text(room, file);
    Ok(Damage::Digest { file, kept, found })
}
