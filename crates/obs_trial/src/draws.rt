// The generator of numbers.
ghost use Rattle.std.specs.Prelude.{◌≡◌};
ghost use Rattle.obs_trial.specs.Draws.{drawn, next_state, state_after};

const MODULUS: u64 = 2_147_483_648;

const FACTOR: u64 = 1_103_515_245;

const STEP: u64 = 12_345;

/// By what a state is divided for a draw.
const LOW: u64 = 65_536;

// The state with which a seed begins.
pub(crate) fn first_state(seed: u64) -> u32
    ensures state { result ≡ state_after seed 0 }
{
    (seed % MODULUS) as u32
}

// The state after one draw more.
pub(crate) fn next_state(state: u32) -> u32
    ensures state { result ≡ next_state state }
{
    ((u64::from(state) * FACTOR + STEP) % MODULUS) as u32
}

// What the draw gives that led to a state.
pub(crate) fn drawn(state: u32) -> u64
    ensures drawn { result ≡ drawn state }
{
    u64::from(state) / LOW
}
