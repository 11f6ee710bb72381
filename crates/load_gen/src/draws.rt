//! The draws of a script: a linear congruential generator over 64 bits.
ghost use Rattle.std.specs.Prelude.{◌≡◌};
ghost use Rattle.load_gen.specs.Draws.{drawn, draw};

// What the state of the draws is multiplied with, and what is added then.
const MULTIPLIER: u64 = 6_364_136_223_846_793_005;

const INCREMENT: u64 = 1_442_695_040_888_963_407;

// The state after one more draw.
#[tactic(auto, unfolding(crate::specs::Draws::drawn))]
pub(crate) fn drawn(x: u64) -> u64
    ensures { result ≡ drawn x }
{
    x.wrapping_mul(MULTIPLIER).wrapping_add(INCREMENT)
}

// What the next draw from this state gives.
#[tactic(auto, unfolding(crate::specs::Draws::draw))]
pub(crate) fn draw(x: u64) -> u64
    ensures { result ≡ draw x }
{
    drawn(x) >> 33
}
