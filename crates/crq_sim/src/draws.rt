//! Draws of the SplitMix64 generator.

ghost use Rattle.std.specs.Prelude.{◌≡◌, ℕ};
ghost use Rattle.crq_sim.specs.Draws.{drawn, next_state};

use rand_core::SeedableRng;
use rand_core::utils::NextWord;
use rand_xoshiro::SplitMix64;

/// What is drawn from a state, and the state after it.
pub fn draw(state: u64) -> (u64, u64)
    ensures value { result.0 ≡ drawn state }
    ensures state { result.1 ≡ next_state state }
{
    let mut generator = SplitMix64::from_seed(state.to_le_bytes());
    let value = generator.next_word();
    (value, u64::from_le_bytes(generator.state()))
}
