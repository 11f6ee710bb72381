//! The words for how a replica and its shard stand.
ghost use Rattle.std.specs.Prelude.{◌≡◌};
ghost use Rattle.reply_values.specs.Words.{state_text, standing_text};

use m3_model::{ShardState, Standing};

/// The word for a state.
pub fn state_text(state: ShardState) -> &'static str
    ensures { result.now ≡ state_text state }
{
    match state {
        ShardState::Initializing => "initializing",
        ShardState::Available => "available",
        ShardState::Leaving => "leaving",
    }
}

/// The word for how a replica stands.
pub fn standing_text(standing: Standing) -> &'static str
    ensures { result.now ≡ standing_text standing }
{
    match standing {
        Standing::Down => "down",
        Standing::Boot => "boot",
        Standing::Open => "open",
    }
}
