//! Whether a state is one that a cluster may have.
ghost use Rattle.std.specs.Prelude.{◌≢◌, ◌↔◌, IsTrue};
ghost use Rattle.std.specs.List.{All};
ghost use Rattle.m3_model.specs.Ascends.{Ascends};
ghost use Rattle.meta_bytes.specs.States.{IsSpaceOf, AreSpaces, IsMetaState};
ghost use Rattle.meta_bytes.specs.StateParts.{HasDurations, AreApart, HasMoment, HasParts};

use crate::names::is_name;
use m3_model::limits::{DURATION_END, MOST_NAMESPACES, SEED_END, TIME_END};
use m3_model::{MetaState, Space};
use placement_core::{Order, ascend, is_lawful};

fn has_durations(space: &Space) -> bool
    ensures { IsTrue result ↔ HasDurations space.now }
{
    1 <= space.block
        && space.past < space.block
        && space.future < space.block
        && space.block <= space.retention
        && space.retention < DURATION_END
}

fn is_space(space: &Space) -> bool
    ensures { IsTrue result ↔ IsSpaceOf space.now }
{
    is_name(space.name.as_str()) && has_durations(space)
}

/// Namespaces have different names.
struct ByName;

impl Order<Space> for ByName {
    ghost before = { λ one other. one.name ≢ other.name };

    fn is_before(first: &Space, later: &Space) -> bool {
        !first.name.equals(later.name.as_str())
    }
}

fn are_apart(spaces: &[Space]) -> bool
    ensures { IsTrue result ↔ AreApart spaces.now }
{
    spaces.iter().all(|space| is_space(space)) && ascend::<Space, ByName>(spaces)
}

fn are_spaces(spaces: &[Space]) -> bool
    ensures { IsTrue result ↔ AreSpaces spaces.now }
{
    spaces.len() <= MOST_NAMESPACES && are_apart(spaces)
}

fn has_moment(state: &MetaState) -> bool
    ensures { IsTrue result ↔ HasMoment state.now }
{
    state.rules.now < TIME_END && u64::from(state.seed) < SEED_END
}

fn has_parts(state: &MetaState) -> bool
    ensures { IsTrue result ↔ HasParts state.now }
{
    is_lawful(&state.place) && are_spaces(state.rules.spaces.as_slice())
}

/// Whether it is a state that a cluster may have: a moment below 2^62, a lawful placement, and at most 8 namespaces with names
/// of their own and durations within their limits. Takes no memory.
pub fn is_meta_state(state: &MetaState) -> bool
    ensures { IsTrue result ↔ IsMetaState state.now }
{
    has_moment(state) && has_parts(state)
}
