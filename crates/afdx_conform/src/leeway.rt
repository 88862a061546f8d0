//! By how much stamps, clocks and the inside of a switch may differ from what the rules say.

ghost use Rattle.std.specs.Prelude.{◌≡◌, ◌↔◌, ◌≤◌, IsSome, IfSome};
ghost use Rattle.afdx_conform.specs.Leeway.{reach as reach_of};
ghost use Rattle.afdx_conform.specs.Leeways.{IsLeeway, apart_by, greatest_between, leeway_with};

use afdx_frame::LATEST_LISTED;

/// The parts of the whole in which drift is told.
pub(crate) const PARTS: u64 = 1_000_000;

/// The most that a stamp may be off, in ns.
const GREATEST_SLACK: u64 = 1_000_000;

/// The most that a stamp of what left may be off by more than one of what came, in ns.
const GREATEST_BETWEEN: u64 = 100_000_000;

/// The most that a clock's rate may be off, in millionths.
const GREATEST_DRIFT: u64 = 1_000;

/// The most that a frame may take inside beyond its link's latency, in ns.
const GREATEST_INNER: u64 = 1_000_000;

/// The longest after a frame came that its account may be asked, in ns.
const GREATEST_ASKED: u64 = 1_000_000;

/// By how much a right switch may seem to differ from the rules.
///
/// A stamp may be off by `slack` ns, one of what left by `between` ns more, the rate of the
/// switch's clock by `drift` millionths; a frame may take `inner` ns beyond its link's latency, and
/// its account may be asked `asked` ns after it came. From `start` on, in ns, all arrivals are
/// known, and nothing is known of the account before; None: the switch was reset before the first
/// arrival. Each value is in its range.
#[derive(Clone, Copy, Debug)]
pub struct Leeway {
    pub slack: u64,
    pub between: u64,
    pub drift: u64,
    pub inner: u64,
    pub asked: u64,
    pub start: Option<u64>,
    pub ghost in_range: { IsLeeway (leeway_with slack between drift inner asked start) },
}

impl Leeway {
    ghost use Rattle.afdx_conform.specs.LeewayOf.{leeway_of};

    /// The leeway of these values, by recorders that aren't apart; None exactly if one is out of
    /// its range: a slack, an inner delay and a time until an account is asked of at most 1,000,000
    /// ns, a drift of at most 1,000 millionths, a start of at most 10^15 ns.
    pub fn new(slack: u64, drift: u64, inner: u64, asked: u64, start: Option<u64>) -> Option<Leeway>
        ensures in_range { IsSome result
            ↔ IsLeeway (leeway_with slack 0 drift inner asked start) }
        ensures given { IfSome result (λ by.
            leeway_of by ≡ leeway_with slack 0 drift inner asked start) }
    {
        let has_start = match start {
            Some(start) => start <= LATEST_LISTED,
            None => true,
        };
        if slack <= GREATEST_SLACK
            && drift <= GREATEST_DRIFT
            && inner <= GREATEST_INNER
            && asked <= GREATEST_ASKED
            && has_start
        {
            Some(Leeway {
                slack,
                between: 0,
                drift,
                inner,
                asked,
                start,
            })
        } else {
            None
        }
    }

    /// The same by recorders that are apart: stamps of what left may be off by `between` ns more
    /// than those of what came. None exactly if these are more than 100,000,000 ns.
    pub fn apart(self, between: u64) -> Option<Leeway>
        ensures in_range { IsSome result ↔ (between ≤ greatest_between) }
        ensures given { IfSome result (λ by. leeway_of by ≡ apart_by between (leeway_of self)) }
    {
        if between <= GREATEST_BETWEEN {
            Some(Leeway {
                slack: self.slack,
                between,
                drift: self.drift,
                inner: self.inner,
                asked: self.asked,
                start: self.start,
            })
        } else {
            None
        }
    }

    /// By how many ns a stamp of what came and one of what left may be off together.
    pub fn reach(&self) -> u64
        ensures { result ≡ reach_of (leeway_of self.now) }
    {
        self.slack + (self.slack + self.between)
    }
}
