//! Numbers that are drawn, one after the other.
ghost use Rattle.std.specs.Prelude.{◌≡◌, ◌<◌};
ghost use Rattle.generator.specs.Draws.{behind, drawn};

/// The state behind one draw more.
pub(crate) fn behind(state: u64) -> u64
    ensures { result ≡ behind state }
{
    ((state as u128 * 6364136223846793005 + 1442695040888963407) % (1 << 64)) as u64
}

/// What is drawn below a bound, by the state behind the draw.
pub(crate) fn drawn(bound: u32, state: u64) -> u32
    requires { 0 < bound }
    ensures value { result ≡ drawn bound state }
    ensures below { result < bound }
{
    ((state / (1 << 33)) % bound as u64) as u32
}
