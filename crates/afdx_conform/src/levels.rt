//! Two bounds of what a switch's account lacks, where its clock and the stamps may be off.

ghost use Rattle.std.specs.Prelude.{◌≡◌, ◌≤◌, ◌<◌, ◌*◌, ◌↔◌, IsTrue, Option, ℕ};
ghost use Rattle.afdx_conform.specs.Ranges.{AreInRange};
ghost use Rattle.afdx_frame.specs.Regulation.{Regulation};
ghost use Rattle.afdx_police.specs.Rule.{regulation_of};
ghost use Rattle.afdx_police.specs.RuleOf.{rule_of};
ghost use Rattle.afdx_conform.specs.Leeway.{Leeway as By};
ghost use Rattle.afdx_conform.specs.LeewayOf.{leeway_of};
ghost use Rattle.afdx_conform.specs.Levels as spec;

use crate::leeway::{Leeway, PARTS};
use afdx_police::LinkRule;

/// What is missing in an account at least, and at most, in millionths of a byte times a nanosecond.
#[derive(Clone, Copy, Debug, PartialEq, Eq)]
pub(crate) struct Levels {
    pub lo: u64,
    pub hi: u64,
}

/// How the levels of one link move, all in the unit of [`Levels`].
///
/// In a ns an account is filled by `fastest` at most and by `slowest` at least. An empty one lacks
/// `full`. Between two moments at which it is asked it may be filled by `fast_slip` more, and by
/// `slow_slip` less, than stamps say. A byte takes `byte_cost`.
#[derive(Clone, Copy, Debug)]
pub(crate) struct Rates {
    pub fastest: u64,
    pub slowest: u64,
    pub full: u64,
    pub fast_slip: u64,
    pub slow_slip: u64,
    pub byte_cost: u64,
    pub ghost in_range: { AreInRange full fast_slip slow_slip byte_cost },
}

impl Rates {
    ghost use Rattle.afdx_conform.specs.Accounts.{AreRates, AreLevels, AreNear};
    ghost use Rattle.afdx_conform.specs.Accounts.{HasRoom, HasToPass};
    ghost use Rattle.afdx_conform.specs.Ranges.{most_charge};

    /// Those of a link of this rule, where stamps and clocks may be off so much.
    pub fn new(rule: &LinkRule, by: &Leeway) -> Rates
        ensures { AreRates (regulation_of (rule_of rule.now)) (leeway_of by.now) result }
    {
        let smax = rule.smax();
        let fill_ns = rule.fill_time();
        let fastest = smax * (PARTS + by.drift);
        let slowest = smax * (PARTS - by.drift);
        let slip = by.slack + by.slack + by.asked;
        Rates {
            fastest,
            slowest,
            full: PARTS * (smax * fill_ns),
            fast_slip: fastest * slip,
            slow_slip: slowest * slip,
            byte_cost: PARTS * (1_000_000 * rule.bag_ms),
        }
    }

    /// The levels so many ns later.
    pub fn later(&self, levels: Levels, ns: u64) -> Levels
        ensures moved { (link : Regulation) (by : By) → AreRates link by self.now →
            result ≡ spec.later link by ns levels }
        ensures bounded { AreLevels self.now levels → AreLevels self.now result }
        ensures near { (link : Regulation) (by : By) → AreRates link by self.now →
            AreNear self.now levels → AreNear self.now result }
    {
        Levels {
            lo: levels.lo.saturating_sub(self.fastest.saturating_mul(ns)),
            hi: levels.hi.saturating_sub(self.slowest.saturating_mul(ns)),
        }
    }

    /// What a frame of this charge, in bytes, takes.
    fn cost(&self, charge: u64) -> u64
        requires bounded { charge ≤ most_charge }
        ensures { result ≡ self.now.byte_cost * charge }
    {
        self.byte_cost * charge
    }

    /// Whether a frame of this charge, in bytes, may have room.
    pub fn may_pass(&self, levels: Levels, charge: u64) -> bool
        requires cost { charge ≤ most_charge }
        requires bounded { AreLevels self.now levels }
        ensures defined { (link : Regulation) (by : By) → AreRates link by self.now →
            result ≡ spec.may_pass link by charge levels }
        ensures room { IsTrue result ↔ HasRoom self.now levels charge }
    {
        levels.lo + self.cost(charge) <= self.full + self.fast_slip
    }

    /// Whether a frame of this charge, in bytes, has room for sure.
    pub fn has_to_pass(&self, levels: Levels, charge: u64) -> bool
        requires cost { charge ≤ most_charge }
        requires bounded { AreLevels self.now levels }
        ensures defined { (link : Regulation) (by : By) → AreRates link by self.now →
            result ≡ spec.has_to_pass link by charge levels }
        ensures room { IsTrue result ↔ HasToPass self.now levels charge }
    {
        levels.hi + self.cost(charge) <= self.full
    }

    /// The levels once a frame of this charge was accepted: it had room.
    pub fn charged(&self, levels: Levels, charge: u64) -> Levels
        requires cost { charge ≤ most_charge }
        requires bounded { AreLevels self.now levels }
        requires room { HasRoom self.now levels charge }
        ensures moved { (link : Regulation) (by : By) → AreRates link by self.now →
            result ≡ spec.charged link by charge levels }
        ensures bounded { AreLevels self.now result }
        ensures near { AreNear self.now levels → AreNear self.now result }
    {
        let cost = self.cost(charge);
        let most = self.full + self.slow_slip;
        Levels {
            lo: levels.lo + cost,
            hi: (levels.hi.max(self.slow_slip) + cost).min(most),
        }
    }

    /// The levels once a frame of this charge was refused: it had none.
    pub fn refused(&self, levels: Levels, charge: u64) -> Levels
        requires cost { charge ≤ most_charge }
        requires some { 0 < charge }
        requires bounded { AreLevels self.now levels }
        ensures moved { (link : Regulation) (by : By) → AreRates link by self.now →
            result ≡ spec.refused link by charge levels }
        ensures bounded { AreLevels self.now result }
        ensures near { ¬ HasToPass self.now levels charge →
            AreNear self.now levels → AreNear self.now result }
    {
        let cost = self.cost(charge);
        Levels {
            lo: levels.lo.max((self.full + 1).saturating_sub(cost)),
            hi: levels.hi,
        }
    }
}
