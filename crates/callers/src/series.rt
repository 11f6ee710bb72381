ghost use Rattle.std.specs.Prelude.{◌↔◌, ◌<◌, ℕ, OnOk, IfOk};
ghost use Rattle.m3_model.specs.Ascends.{Ascends};
ghost use Rattle.m3_model.specs.Members.{IsIn};
ghost use Rattle.tag_index.specs.Listed.{HasTagAt, IsPresent};

use m3_model::{Memory, Seq, Text};
use tag_index::Index;

/// Adds a series where it isn't present, and answers the ordinals of all series with the tag, ascending.
///
/// # Errors
///
/// Want of memory. The series may have been added.
pub fn add_and_find(
    index: &mut Index,
    id: &Text,
    tags: &Seq<(Text, Text)>,
    name: &str,
    value: &str,
) -> Result<Seq<u32>, Memory>
    ensures exact { IfOk result (λ found. (o : ℕ) → IsIn found o ↔ HasTagAt index.new name.now value.now o) }
    ensures ascends { IfOk result (Ascends ◌<◌) }
    ensures present { OnOk result (IsPresent index.new id.now) }
{
    index.add(id, tags)?;
    index.posting(name, value)
}
