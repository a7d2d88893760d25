// The keys of sound settings.
ghost use Rattle.std.specs.Prelude.{◌≤◌};

use model::Keys;

// Keys whose repeats are some ticks apart, so that there are no more of them than ticks.
#[derive(Clone, Copy)]
pub(crate) struct Repeating {
    pub(crate) keys: Keys,
    ghost apart: { 1 ≤ keys.interval },
}
