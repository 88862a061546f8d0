//! Accounts with known answers, of both kinds. Rules, shapes and their faults are tried at the
//! program (tests/program/police.sh, check.sh).

use afdx_frame::{Checked, Policing, VlId};
use afdx_police::{ByteCharge, Charge, FrameCharge, LinkAccount, LinkRule, Policer, Reason};
use afdx_test_samples::hello;
use std::test::Fail;

fn rule_of_link_1(lmax: u64) -> Option<LinkRule> {
    LinkRule::new(VlId(1), 1, 1, 64, lmax, 500, Policing::Byte)
}

/// Whether a new policer of this rule answers by each window. The window of three frames decides
/// on the fourth; the last two alone would allow 1,000,000.
fn keeps_every_window<C: Charge>(rule: &LinkRule) -> bool {
    let mut policer = Policer::<C>::new(rule);
    policer.offer(0, 64)
        && !policer.offer(499_999, 64)
        && policer.offer(500_000, 64)
        && !policer.offer(1_499_999, 64)
        && policer.offer(1_500_000, 64)
        && policer.offer(1_000_000_000_000_000, 64)
}

#[test]
fn windows(rt: HostRuntime) -> Result<(), Fail> {
    let rule = rule_of_link_1(64).ok_or("range")?;
    assert!(rt; keeps_every_window::<ByteCharge>(&rule));
    assert!(rt; keeps_every_window::<FrameCharge>(&rule));
    Ok(())
}

/// Whether a new account of this rule answers over time.
fn answers_over_time(rule: &LinkRule) -> bool {
    let frame = hello(0);
    let mut account = LinkAccount::new(rule);
    account.police(0, 1, Checked::new(&frame)).is_none()
        && account.police(499_999, 1, Checked::new(&frame)) == Some(Reason::OverRate)
        && account.offer(500_000, 64).is_none()
}

#[test]
fn account_over_time(rt: HostRuntime) -> Result<(), Fail> {
    for policing in [Policing::Byte, Policing::Frame] {
        let rule = LinkRule::new(VlId(1), 1, 1, 64, 64, 500, policing).ok_or("range")?;
        assert!(rt; answers_over_time(&rule));
    }
    Ok(())
}
