//! The rule of a link.

ghost use Rattle.std.specs.Prelude.{◌≡◌, ◌↔◌, IsSome, IfSome};
ghost use Rattle.afdx_police.specs.Rule.{IsRule, IsRuleAfterCable, rule_with};

use afdx_frame::{
    GAPS_MS, GREATEST_DELAY_US, GREATEST_FRAME, LAST_PORT, LEAST_FRAME, LONGEST_GAP_MS, Policing,
    VlId, WIRE_EXTRA,
};

/// How one virtual link is filtered and policed at a switch (ARINC 664 Part 7).
///
/// `port` is the one input port of its frames, `bag_ms` the bandwidth allocation gap in
/// milliseconds, `lmin` and `lmax` the least and greatest frame length in bytes with the check
/// sequence, `jitter_us` the admitted jitter in microseconds. Each value is in its range.
#[derive(Clone, Copy, Debug)]
pub struct LinkRule {
    pub vl: VlId,
    pub port: u8,
    pub bag_ms: u64,
    pub lmin: u64,
    pub lmax: u64,
    pub jitter_us: u64,
    pub policing: Policing,
    pub ghost in_range: { IsRuleAfterCable
        (rule_with vl.0 port bag_ms lmin lmax jitter_us policing) },
}

impl LinkRule {
    ghost use Rattle.afdx_police.specs.Rule.{regulation_of};
    ghost use Rattle.afdx_police.specs.RuleOf.{rule_of};
    ghost use Rattle.afdx_frame.specs.Regulation.{bag, jitter, fill_rate, cap};
    ghost use Rattle.std.specs.Prelude.{◌+◌};

    /// The rule of these values for a link that a system sends to the switch; None exactly if one
    /// is out of its range: a port of 1 to 24, a gap of 1, 2, 4, .. or 128 ms,
    /// `64 <= lmin <= lmax <= 1518`, a jitter of at most the gap.
    pub fn new(
        vl: VlId,
        port: u8,
        bag_ms: u64,
        lmin: u64,
        lmax: u64,
        jitter_us: u64,
        policing: Policing,
    ) -> Option<LinkRule>
        ensures in_range { IsSome result
            ↔ IsRule (rule_with vl.0 port bag_ms lmin lmax jitter_us policing) }
        ensures given { IfSome result (λ r.
            rule_of r ≡ rule_with vl.0 port bag_ms lmin lmax jitter_us policing) }
    {
        let rule = LinkRule::after_cable(vl, port, bag_ms, lmin, lmax, jitter_us, policing)?;
        if jitter_us <= 1000 * bag_ms {
            Some(rule)
        } else {
            None
        }
    }

    /// The same for a link that may come over a cable from another switch: its jitter is at most
    /// the gap and 100 ms, since its frames have been delayed before.
    pub fn after_cable(
        vl: VlId,
        port: u8,
        bag_ms: u64,
        lmin: u64,
        lmax: u64,
        jitter_us: u64,
        policing: Policing,
    ) -> Option<LinkRule>
        ensures in_range { IsSome result
            ↔ IsRuleAfterCable (rule_with vl.0 port bag_ms lmin lmax jitter_us policing) }
        ensures given { IfSome result (λ r.
            rule_of r ≡ rule_with vl.0 port bag_ms lmin lmax jitter_us policing) }
    {
        let is_bag = GAPS_MS.contains(&bag_ms);
        if port >= 1
            && port <= LAST_PORT
            && is_bag
            && lmin >= LEAST_FRAME as u64
            && lmin <= lmax
            && lmax <= GREATEST_FRAME as u64
            && jitter_us <= 1000 * bag_ms + GREATEST_DELAY_US
        {
            Some(LinkRule {
                vl,
                port,
                bag_ms,
                lmin,
                lmax,
                jitter_us,
                policing,
            })
        } else {
            None
        }
    }

    /// How the link's frames are charged.
    pub fn policing(&self) -> Policing
        ensures { result ≡ self.now.policing }
    {
        self.policing
    }

    /// The greatest size of the link's frames on the wire, in bytes: Lmax, and 20 for preamble,
    /// start delimiter and the gap between frames.
    pub fn smax(&self) -> u64
        ensures { result ≡ (regulation_of (rule_of self.now)).smax }
    {
        self.lmax + WIRE_EXTRA
    }

    /// The units by which the link's account is filled in a nanosecond.
    pub(crate) fn fill_rate(&self) -> u64
        ensures { result ≡ fill_rate (regulation_of (rule_of self.now)) }
    {
        self.smax() * (LONGEST_GAP_MS / self.bag_ms)
    }

    /// The nanoseconds in which an empty account is filled: BAG and jitter.
    pub fn fill_time(&self) -> u64
        ensures { let link = regulation_of (rule_of self.now) in result ≡ bag link + jitter link }
    {
        1_000_000 * self.bag_ms + 1000 * self.jitter_us
    }

    /// The units of a full account.
    pub(crate) fn cap(&self) -> u64
        ensures { result ≡ cap (regulation_of (rule_of self.now)) }
    {
        self.fill_rate() * self.fill_time()
    }
}
