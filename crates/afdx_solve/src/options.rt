//! Which keys are solved for.

ghost use Rattle.std.specs.Prelude.{◌≡◌};
ghost use Rattle.afdx_solve.specs.Solved as spec;

use afdx_config::KeptKeys;

/// Which of the four keys stay as they are, whether the others are raised only, and what skews
/// allow for.
#[derive(Clone, Copy, Debug)]
pub struct SolveOptions {
    pub kept: KeptKeys,
    /// A key that isn't kept takes the greater of its value and the least.
    pub raise_only: bool,
    /// By how much later one copy of a frame may be sent than the other, in ns.
    pub apart: u64,
}

impl SolveOptions {
    ghost use Rattle.std.specs.Prelude.{◌≡◌};
    ghost use Rattle.afdx_solve.specs.Solved as spec;

    /// The same in us, rounded up: by so much a skew is more than what it has to allow for.
    pub(crate) fn apart_us(&self) -> u64
        ensures { result ≡ spec.apart_us self.now }
    {
        self.apart.div_ceil(1000)
    }
}

/// What a key takes: its value, the least, or the greater of both.
pub(crate) fn chosen(keep: bool, raise_only: bool, as_is: u64, least: u64) -> u64
    ensures { result ≡ spec.chosen keep raise_only as_is least }
{
    if keep {
        as_is
    } else if raise_only {
        as_is.max(least)
    } else {
        least
    }
}
