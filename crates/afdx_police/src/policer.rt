//! The policer of a link: an account of one number and one time.

ghost use Rattle.std.specs.Prelude.{◌≡◌, ◌≤◌, List, [], ◌∷◌};
ghost use Rattle.afdx_frame.specs.Lengths.{least_frame};

use crate::charge::Charge;
use crate::rule::LinkRule;
use afdx_frame::{BYTE_UNITS, WIRE_EXTRA};
use std::marker::{Model, PhantomData};

/// The account of one link at one switch, charged by `C` whatever the rule's own policing is.
///
/// It is full at first, is filled at the link's greatest wire size a gap, and holds at most what it
/// is filled with in a gap and the link's jitter (ARINC 664 Part 7, traffic policing).
#[derive(Debug, Drop)]
pub struct Policer<C> {
    rule: LinkRule,
    level: u64,
    time: u64,
    charge: PhantomData<C>,
}

impl<C> Model for Policer<C> {
    ghost use Rattle.std.specs.Prelude.{◌≤◌};
    ghost use Rattle.afdx_frame.specs.Regulation.{cap};
    ghost use Rattle.afdx_police.specs.Account.{Account};
    ghost use Rattle.afdx_police.specs.Rule.{regulation_of};
    ghost use Rattle.afdx_police.specs.RuleOf.{rule_of};

    ghost Value = { Account };

    ghost view = { λ p.
        record { rule = rule_of p.rule; level = p.level; time = p.time } };

    ghost invariant = { λ p. p.level ≤ cap (regulation_of (rule_of p.rule)) };
}

impl<C: Charge> Policer<C> {
    ghost use Rattle.afdx_frame.specs.Regulation.{cap};
    ghost use Rattle.afdx_police.specs.Early.{IsLeastWait, least_wait};
    ghost use Rattle.afdx_police.specs.Policer.{Offer, StandsFor, is_accepted};
    ghost use Rattle.afdx_police.specs.Policer.{accepted_offers, charged_offer};
    ghost use Rattle.afdx_police.specs.Rule.{regulation_of};
    ghost use Rattle.afdx_police.specs.RuleOf.{rule_of};

    /// A full account, at time 0.
    pub fn new(rule: &LinkRule) -> Policer<C>
        ensures rule { result.rule ≡ rule_of rule.now }
        ensures time { result.time ≡ 0 }
        ensures stands { StandsFor C.charge_of result [] }
    {
        Policer {
            rule: *rule,
            level: rule.cap(),
            time: 0,
            charge: PhantomData,
        }
    }

    /// The rule of the account's link.
    pub(crate) fn rule(&self) -> &LinkRule
        ensures { rule_of result.now ≡ self.now.rule }
    {
        &self.rule
    }

    /// Whether a frame of `length` bytes that comes at `time`, in nanoseconds, is accepted: exactly
    /// if it keeps the window rule with the frames that were accepted before. A frame that is
    /// refused is charged nothing.
    pub fn offer(&mut self, time: u64, length: u64) -> bool
        requires in_time { self.old.time ≤ time }
        requires shortest { least_frame ≤ length }
        requires longest { length ≤ self.old.rule.lmax }

        ensures rule { self.new.rule ≡ self.old.rule }
        ensures time { self.new.time ≡ time }

        // Whatever offers led here, the answer is the window rule's over those that were accepted.
        ensures answer { (offers : List Offer) → StandsFor C.charge_of self.old offers →
            let last : Offer = record { time = time; length = length } in
            result ≡ is_accepted C.charge_of (regulation_of self.old.rule) offers last }
        ensures stands { (offers : List Offer) → StandsFor C.charge_of self.old offers →
            StandsFor C.charge_of self.new (record { time = time; length = length } ∷ offers) }
    {
        let level = self.level_at(time);
        let charge = C::charge(self.rule.smax(), length + WIRE_EXTRA) * BYTE_UNITS;
        let passes = charge <= level;
        self.time = time;
        self.level = if passes { level - charge } else { level };
        passes
    }

    /// The least number of nanoseconds after which a frame of `length` bytes that comes at `time`
    /// would be accepted, if none comes before: 0 if it is accepted at once.
    pub fn early(&self, time: u64, length: u64) -> u64
        requires in_time { self.now.time ≤ time }
        requires shortest { least_frame ≤ length }
        requires longest { length ≤ self.now.rule.lmax }

        // Whatever offers led here, it is the window rule's least wait over those that were
        // accepted, and the time in which the account is filled with what it lacks.
        ensures least { (offers : List Offer) → StandsFor C.charge_of self.now offers →
            let link = regulation_of self.now.rule in
            let last : Offer = record { time = time; length = length } in
            IsLeastWait link (accepted_offers C.charge_of link offers)
            (charged_offer C.charge_of link last) result }
        ensures fill { (offers : List Offer) → StandsFor C.charge_of self.now offers →
            let link = regulation_of self.now.rule in
            let last : Offer = record { time = time; length = length } in
            result ≡ least_wait link (accepted_offers C.charge_of link offers)
            (charged_offer C.charge_of link last) }
    {
        let level = self.level_at(time);
        let charge = C::charge(self.rule.smax(), length + WIRE_EXTRA) * BYTE_UNITS;
        let lack = charge.saturating_sub(level);
        let rate = self.rule.fill_rate();
        lack.div_ceil(rate)
    }

    /// The level of the account at this time, if nothing is charged until then.
    fn level_at(&self, time: u64) -> u64
        requires { self.now.time ≤ time }
        ensures stands { (offers : List Offer) → StandsFor C.charge_of self.now offers →
            StandsFor C.charge_of (record self.now { level = result; time = time }) offers }
        ensures capped { result ≤ cap (regulation_of self.now.rule) }
    {
        let gap = (time - self.time).min(self.rule.fill_time());
        self.rule
            .cap()
            .min(self.level + gap * self.rule.fill_rate())
    }
}
