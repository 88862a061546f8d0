//! By how much a source's clocks, stamps and copies may be off, and what its rate is.

ghost use Rattle.std.specs.Prelude.{◌≡◌, ◌≤◌, ◌*◌, ◌/◌};
ghost use Rattle.afdx_conform.specs.LeewayOf.{leeway_of};
ghost use Rattle.afdx_conform.specs.Levels.{parts};
ghost use Rattle.afdx_police.specs.RuleOf.{rule_of};
ghost use Rattle.afdx_lawful.specs.Ranges.{AreInRange};

use afdx_conform::Leeway;
use afdx_police::LinkRule;

/// The parts of the whole in which drift is told.
const PARTS: u64 = 1_000_000;

/// The greatest skew of a link, and the greatest distance of copies that can be given, in ns.
pub(crate) const GREATEST_SKEW: u64 = 100_000_000;

/// What a source's frames are held against.
///
/// A clock's rate is at most `fast` and at least `slow`, in millionths; two stamps together are off
/// by `slip` ns; a frame waits `hold` ns for its copy. Each frame raises the level of its side by
/// `cost`, it falls by `fast` a ns, and a frame has room where it is at most `room`.
#[derive(Clone, Copy, Debug)]
pub(crate) struct SenderLimits {
    pub fast: u64,
    pub slow: u64,
    pub slip: u64,
    pub hold: u64,
    pub cost: u64,
    pub room: u64,
    pub ghost in_range: { AreInRange fast slow slip hold cost room },
}

impl SenderLimits {
    ghost use Rattle.afdx_lawful.specs.Limits.{AreLimits};
    ghost use Rattle.afdx_lawful.specs.Sources.{Source as Terms};

    /// Those of a link of this rule, where stamps and clocks may be off so much.
    pub fn new(rule: &LinkRule, by: &Leeway) -> SenderLimits
        ensures { (s : Terms) → s.rule ≡ rule_of rule.now → s.by ≡ leeway_of by.now →
            AreLimits s result }
    {
        let fast = PARTS + by.drift;
        let slow = PARTS - by.drift;
        let slip = by.slack + by.slack;
        SenderLimits {
            fast,
            slow,
            slip,
            hold: PARTS * GREATEST_SKEW / slow + 2 * slip,
            cost: PARTS * (1_000_000 * rule.bag_ms),
            room: PARTS * (1000 * rule.jitter_us) + fast * slip,
        }
    }

    /// So many ns by a recorder's clock, at most.
    pub fn longest(&self, ns: u64) -> u64
        requires { ns ≤ 100000000 }
        ensures { result ≡ parts * ns / self.now.slow }
    {
        PARTS * ns / self.slow
    }
}
