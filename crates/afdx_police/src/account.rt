//! The account of a link, charged by the link's own kind of policing, and the verdicts on its
//! arrivals.

ghost use Rattle.std.specs.Prelude.{◌≡◌, ℕ, ◌≤◌, if◌then◌else◌, List, [], ◌∷◌, length, IfNone, Ok};
ghost use Rattle.afdx_frame.specs.Lengths.{least_frame};
ghost use Rattle.afdx_frame.specs.Parts.{bytes_of, frame_of, parts_of};
ghost use Rattle.afdx_police.specs.Shape.{fault_of};
ghost use Rattle.afdx_police.specs.declared.shape.Reason.{Reason};
ghost use Rattle.afdx_frame.specs.declared.link.Side.{Side};
ghost use Rattle.afdx_police.specs.Arrival.{Arrival, arrival_with, own};
ghost use Rattle.afdx_police.specs.Rule.{Rule};
ghost use Rattle.afdx_police.specs.RuleOf.{rule_of};
ghost use Rattle.afdx_police.specs.Verdicts.{reason_after, verdict_in};

use crate::charge::{ByteCharge, FrameCharge};
use crate::policer::Policer;
use crate::rule::LinkRule;
use crate::shape::{Reason, fault_by, judge_checked};
use afdx_frame::{Checked, MacView, Policing};

/// The account of one link at one switch, of the link's own kind of policing.
#[derive(Debug, Drop)]
pub enum LinkAccount {
    ByByte(Policer<ByteCharge>),
    ByFrame(Policer<FrameCharge>),
}

/// Why a frame without a fault in its shape is dropped, if its link's account doesn't cover it.
fn over_rate(is_covered: bool) -> Option<Reason>
    ensures { result ≡ (if is_covered then None else Some Reason.OverRate) }
{
    if is_covered {
        None
    } else {
        Some(Reason::OverRate)
    }
}

impl LinkAccount {
    ghost use Rattle.afdx_police.specs.Early.{IsEarlyBy, early_after};
    ghost use Rattle.afdx_police.specs.LinkAccounts.{IsOfferedAs, StandsForOwn, account_of};
    ghost use Rattle.afdx_police.specs.LinkAccounts.{last_time};

    /// A full account.
    pub fn new(rule: &LinkRule) -> LinkAccount
        ensures time { last_time result ≡ 0 }
        ensures stands { StandsForOwn (rule_of rule.now) result [] }
    {
        match rule.policing() {
            Policing::Byte => LinkAccount::ByByte(Policer::new(rule)),
            Policing::Frame => LinkAccount::ByFrame(Policer::new(rule)),
        }
    }

    /// The rule of the account's link.
    pub fn rule(&self) -> &LinkRule
        ensures { rule_of result.now ≡ (account_of self.now).rule }
    {
        match self {
            LinkAccount::ByByte(policer) => policer.rule(),
            LinkAccount::ByFrame(policer) => policer.rule(),
        }
    }

    /// The first fault of a frame by the rule of the account's link, but for the link's rate.
    /// `port` is the input port at which it came, `view` the view of its bytes.
    pub fn fault(&self, port: u8, view: &MacView<'_>, frame: Checked<'_>) -> Option<Reason>
        requires viewed { frame_of (bytes_of frame) ≡ Ok (parts_of view.now) }
        ensures reason { result
            ≡ fault_of (Some (account_of self.now).rule) port (bytes_of frame.entry) }

        // What has no fault may be offered.
        ensures longest { IfNone result
            (length (bytes_of frame.entry) ≤ (account_of self.now).rule.lmax) }
    {
        fault_by(self.rule(), port, view.vl(), frame)
    }

    /// Why an arrival of the link without a fault in its shape is dropped, if it is, by its time in
    /// nanoseconds and its length in bytes. One that is dropped is charged nothing.
    pub fn offer(&mut self, time: u64, length: u64) -> Option<Reason>
        requires in_time { last_time self.old ≤ time }
        requires shortest { least_frame ≤ length }
        requires longest { length ≤ (account_of self.old).rule.lmax }

        ensures rule { (account_of self.new).rule ≡ (account_of self.old).rule }
        ensures time { last_time self.new ≡ time }

        // Whatever own arrivals led here, the answer is the one on the arrival that was offered.
        ensures answer { (rule : Rule) (past : List Arrival) (x : Arrival) →
            StandsForOwn rule self.old past →
            IsOfferedAs rule x (record { time = time; length = length }) →
            result ≡ reason_after rule past x }
        ensures stands { (rule : Rule) (past : List Arrival) (x : Arrival) →
            StandsForOwn rule self.old past →
            IsOfferedAs rule x (record { time = time; length = length }) →
            StandsForOwn rule self.new (x ∷ past) }
    {
        match self {
            LinkAccount::ByByte(policer) => over_rate(policer.offer(time, length)),
            LinkAccount::ByFrame(policer) => over_rate(policer.offer(time, length)),
        }
    }

    /// By how many nanoseconds an arrival of the link without a fault in its shape comes too early,
    /// by its time in nanoseconds and its length in bytes: 0 if it would be accepted.
    pub fn early(&self, time: u64, length: u64) -> u64
        requires in_time { last_time self.now ≤ time }
        requires shortest { least_frame ≤ length }
        requires longest { length ≤ (account_of self.now).rule.lmax }

        // Whatever own arrivals led here, it is the least wait after which the arrival would be
        // accepted, which until then is over its link's rate.
        ensures least { (rule : Rule) (past : List Arrival) (x : Arrival) →
            StandsForOwn rule self.now past →
            IsOfferedAs rule x (record { time = time; length = length }) →
            IsEarlyBy rule past x result }
        ensures fill { (rule : Rule) (past : List Arrival) (x : Arrival) →
            StandsForOwn rule self.now past →
            IsOfferedAs rule x (record { time = time; length = length }) →
            result ≡ early_after rule past x }
    {
        match self {
            LinkAccount::ByByte(policer) => policer.early(time, length),
            LinkAccount::ByFrame(policer) => policer.early(time, length),
        }
    }

    /// Why an arrival is dropped, if it is: for its shape, or else for its link's rate.
    ///
    /// `time` is in nanoseconds, `port` the input port. Only an arrival that is accepted is
    /// charged.
    pub fn police(&mut self, time: u64, port: u8, frame: Checked<'_>) -> Option<Reason>
        requires in_time { last_time self.old ≤ time }

        ensures rule { (account_of self.new).rule ≡ (account_of self.old).rule }
        ensures time { last_time self.new ≤ time }

        // Whatever own arrivals led here, the answer is the one on this arrival after them.
        ensures reason { (rule : Rule) (past : List Arrival) (tag : ℕ) (side : Side) →
            StandsForOwn rule self.old past →
            let x = arrival_with tag time side port (bytes_of frame.entry) in
            result ≡ reason_after rule past x }
        ensures stands { (rule : Rule) (past : List Arrival) (tag : ℕ) (side : Side) →
            StandsForOwn rule self.old past →
            let x = arrival_with tag time side port (bytes_of frame.entry) in
            StandsForOwn rule self.new (x ∷ past) }

        // The same where arrivals of any link and side led here, and this one need not name the
        // link.
        ensures verdict { (rule : Rule) (all : List Arrival) (tag : ℕ) (side : Side) →
            StandsForOwn rule self.old (own rule.vl side all) →
            let x = arrival_with tag time side port (bytes_of frame.entry) in
            result ≡ verdict_in rule all x }
        ensures stands_in { (rule : Rule) (all : List Arrival) (tag : ℕ) (side : Side) →
            StandsForOwn rule self.old (own rule.vl side all) →
            let x = arrival_with tag time side port (bytes_of frame.entry) in
            StandsForOwn rule self.new (own rule.vl side (x ∷ all)) }

        // An arrival with a fault in its shape leaves the account as it was.
        ensures unchanged { (fault : Reason) →
            fault_of (Some (account_of self.old).rule) port (bytes_of frame.entry) ≡ Some fault →
            self.new ≡ self.old }
    {
        match judge_checked(Some(self.rule()), port, frame) {
            None => self.offer(time, frame.length()),
            Some(reason) => Some(reason),
        }
    }
}
