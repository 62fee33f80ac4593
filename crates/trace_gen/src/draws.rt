//! The numbers that a seed gives: a state follows from the one before, and its upper bits give a number below a bound.
ghost use Rattle.std.specs.Prelude.{◌≡◌, ◌<◌};
ghost use Rattle.trace_gen.specs.Draws.{next_state, number_below};

/// The state behind another.
pub fn next_state(state: u64) -> u64
    requires { state < 2147483648 }
    ensures next { result ≡ next_state state }
    ensures small { result < 2147483648 }
{
    (1_103_515_245 * state + 12_345) % 2_147_483_648
}

/// The number below a bound that a state gives.
pub fn number_below(bound: u64, state: u64) -> u64
    requires { 0 < bound }
    ensures number { result ≡ number_below bound state }
    ensures below { result < bound }
{
    state / 65_536 % bound
}
