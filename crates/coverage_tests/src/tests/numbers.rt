//! Numbers for tests, each from the one before.
ghost use Rattle.std.specs.Prelude.{◌<◌};

/// The number of a state, below a bound.
pub fn number(state: u64, below: u64) -> u64
    requires { 0 < below }
    ensures { result < below }
{
    state / 0x1_0000_0000 % below
}

/// The state after a state.
pub fn after(state: u64) -> u64 {
    state
        .wrapping_mul(6364136223846793005)
        .wrapping_add(1442695040888963407)
}
