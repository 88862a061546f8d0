//! An arrival of a stream.

ghost use Rattle.std.specs.Prelude.{◌≡◌, ◌≤◌, ◌<◌, length};
ghost use Rattle.afdx_conform.specs.LimitRanges.{most_bytes};
ghost use Rattle.afdx_conform.specs.Ranges.{most_charge};
ghost use Rattle.afdx_frame.specs.Regulation.{wire_of};
ghost use Rattle.afdx_frame.specs.Times.{latest_listed};
ghost use Rattle.afdx_police.specs.Charge.{charge_by};

use crate::checked_bytes::CheckedBytes;
use afdx_frame::{Policing, Side, WIRE_EXTRA};
use afdx_police::{LinkRule, Reason, judge_checked};

/// An arrival at a switch: its number, its time in ns, its network and input port, its bytes; what
/// is wrong with its shape by its link's rule, and what it is charged, in bytes.
#[derive(Debug, Drop)]
pub struct Arrived {
    pub number: u64,
    pub time: u64,
    pub side: Side,
    pub port: u8,
    pub bytes: CheckedBytes,
    pub fault: Option<Reason>,
    pub charge: u64,
    pub ghost listed: { time ≤ latest_listed },
    pub ghost short: { length bytes ≤ most_bytes },
    pub ghost some: { 0 < charge },
    pub ghost charged: { charge ≤ most_charge },
}

/// What a frame of this length, of this link, is charged, in bytes.
fn charge_of(rule: &LinkRule, length: u64) -> u64
    requires { length ≤ rule.now.lmax }
    ensures defined { result
        ≡ charge_by rule.now.policing (wire_of rule.now.lmax) (wire_of length) }
    ensures some { 0 < result }
    ensures most { result ≤ most_charge }
{
    match rule.policing {
        Policing::Byte => length + WIRE_EXTRA,
        Policing::Frame => rule.lmax + WIRE_EXTRA,
    }
}

impl Arrived {
    ghost use Rattle.afdx_police.specs.Arrival.{arrival_with};
    ghost use Rattle.afdx_police.specs.RuleOf.{rule_of};
    ghost use Rattle.afdx_conform.specs.Marks.{IsJudged, arrival_of};
    ghost use Rattle.afdx_conform.specs.Streams.{Terms};

    /// The arrival of a frame of a link of this rule, judged by its shape.
    pub fn new(
        rule: &LinkRule,
        number: u64,
        time: u64,
        side: Side,
        port: u8,
        bytes: CheckedBytes,
    ) -> Arrived
        requires time { time ≤ latest_listed }
        requires short { length bytes ≤ most_bytes }
        ensures judged { (z : Terms) → z.rule ≡ rule_of rule.now → IsJudged z result }
        ensures given { arrival_of result ≡ arrival_with number time side port bytes }
    {
        let fault = judge_checked(Some(rule), port, bytes.frame());
        let length = bytes.length().min(rule.lmax);
        let charge = charge_of(rule, length);
        Arrived {
            number,
            time,
            side,
            port,
            bytes,
            fault,
            charge,
        }
    }
}
