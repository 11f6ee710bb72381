ghost use Rattle.std.specs.Prelude.{◌≡◌, ◌<◌, length, IfSome};
ghost use Rattle.m3_model.specs.Rules.{namespace_position};

use m3_model::Space;

/// The position of a namespace, by its name.
pub(crate) fn namespace_position(spaces: &[Space], name: &str) -> Option<usize>
    ensures position { result ≡ namespace_position name.now spaces.now }
    ensures below { IfSome result (λ position. position < length spaces.now) }
{
    for (position, space) in spaces.iter().enumerate() {
        if name == space.name.as_str() {
            return Some(position);
        }
    }
    None
}
