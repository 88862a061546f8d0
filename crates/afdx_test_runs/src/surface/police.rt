//! The items of `afdx_police`.

use afdx_frame::{Policing, VlId};
use afdx_police::{ByteCharge, Charge, FrameCharge, LinkRule, Policer, Reason, judge};
use afdx_test_samples::{equal, hello};
use std::test::Fail;

/// The rule of link 1, at port 1.
fn rule() -> Option<LinkRule> {
    let (vl, port, policing): (VlId, u8, Policing) = (VlId(1), 1, Policing::Byte);
    let (bag_ms, lmin, lmax, jitter_us): (u64, u64, u64, u64) = (1, 64, 64, 500);
    let rule: Option<LinkRule> = LinkRule::new(vl, port, bag_ms, lmin, lmax, jitter_us, policing);
    rule
}

/// Whether a link that comes from another switch may have a jitter of its gap and 100 ms.
fn may_be_late() -> bool {
    let (vl, port, policing): (VlId, u8, Policing) = (VlId(1), 1, Policing::Byte);
    let (bag_ms, lmin, lmax, jitter_us): (u64, u64, u64, u64) = (1, 64, 64, 101_000);
    let rule: Option<LinkRule> = LinkRule::after_cable(
        vl, port, bag_ms, lmin, lmax, jitter_us, policing,
    );
    rule.is_some()
}

/// What a frame of 84 bytes on the wire is charged.
fn charged<C: Charge>() -> u64 {
    let (smax, wire): (u64, u64) = (1538, 84);
    let charge: u64 = C::charge(smax, wire);
    charge
}

/// Whether a new account takes a frame of 64 bytes at time 0.
fn is_taken<C: Charge>(rule: &LinkRule) -> bool {
    if rule.lmax < 64 {
        return false;
    }
    let mut policer: Policer<C> = Policer::new(rule);
    let (time, length): (u64, u64) = (0, 64);
    let passes: bool = policer.offer(time, length);
    passes
}

#[test]
fn verdicts() -> Result<(), Fail> {
    let rule: LinkRule = rule().ok_or("a rule")?;
    equal(may_be_late(), true)?;
    let policing: Policing = rule.policing();
    let (smax, fill_ns): (u64, u64) = (rule.smax(), rule.fill_time());
    equal((smax, fill_ns), (84, 1_500_000))?;
    let bytes: &[u8] = &hello(0);
    let port: u8 = 2;
    let wrong: Option<Reason> = judge(Some(&rule), port, bytes);
    let unknown: Option<Reason> = judge(None, port, bytes);
    equal(policing, Policing::Byte)?;
    equal(
        (wrong, unknown),
        (Some(Reason::WrongPort), Some(Reason::UnknownLink)),
    )
}

#[test]
fn reasons() -> Result<(), Fail> {
    let of_frames: [&str; 4] = [
        Reason::TooShort.word(),
        Reason::TooLong.word(),
        Reason::BadFcs.word(),
        Reason::BadAddress.word(),
    ];
    let of_links: [&str; 5] = [
        Reason::UnknownLink.word(),
        Reason::WrongPort.word(),
        Reason::OverLmax.word(),
        Reason::UnderLmin.word(),
        Reason::OverRate.word(),
    ];
    let frame_words = ["too-short", "too-long", "bad-fcs", "bad-address"];
    let link_words = [
        "unknown-link",
        "wrong-port",
        "over-lmax",
        "under-lmin",
        "over-rate",
    ];
    equal((of_frames, of_links), (frame_words, link_words))
}

#[test]
fn accounts() -> Result<(), Fail> {
    let rule: LinkRule = rule().ok_or("a rule")?;
    equal(
        (charged::<ByteCharge>(), charged::<FrameCharge>()),
        (84, 1538),
    )?;
    let taken = (
        is_taken::<ByteCharge>(&rule),
        is_taken::<FrameCharge>(&rule),
    );
    equal(taken, (true, true))
}
