ghost use Rattle.std.specs.Prelude.{◌≡◌, None, OnOk, OnErr, IfOk};
ghost use Rattle.std.specs.FinMap as finite;
ghost use Rattle.m3_model.specs.Contents.{raised, is_higher, key_of};

use block_buffer::Buffer;
use m3_model::{Memory, Point};

/// Puts a point into a buffer, and says whether that changed it: the key was absent, or its value rises.
///
/// # Errors
///
/// Want of memory leaves the points as they were.
pub fn put_point(buffer: &mut Buffer, point: &Point) -> Result<bool, Memory>
    ensures joined { OnOk result (buffer.new ≡ record { points = raised buffer.old.points point.now; room = None }) }
    ensures changed { IfOk result (λ changed. changed ≡ is_higher (finite.get buffer.old.points (key_of point.now)) point.now.v) }
    ensures unchanged { OnErr result (buffer.new.points ≡ buffer.old.points) }
{
    buffer.room(point)?;
    Ok(buffer.put(point))
}
