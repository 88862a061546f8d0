//! Whether the systems at a recorded switch sent as its tables say: the command over a list, and
//! over two, where the switch is judged beside them. Each answer is tried at the program
//! (tests/run/conformance.py).

use crate::texts::short_text;
use afdx_command_conform::{AsLists, ByRole, Choices, Leeway};
use afdx_command_senders::{Beside, SenderChoices, SenderQuestion, judge_senders};
use afdx_input_lines::Watched;
use afdx_test_samples::{ShortText, base, equal, spelled, two_switches};
use afdx_text::Output;
use std::alloc::Global;
use std::test::Fail;

/// The status, and what is written, of a configuration, a switch of it, a list of what came and, if
/// that is judged beside, one of what left.
fn judged_with<'a>(
    alloc: Global,
    config: &'a str,
    switch: Option<&'a str>,
    beside: Beside,
    (came, left): (&str, &str),
) -> Result<(u8, ShortText), Fail> {
    let leeway = Leeway::new(0, 0, 0, 0, None).ok_or("a leeway")?;
    let choices = Choices::new(leeway, None, Vec::new(alloc), false, false).ok_or("choices")?;
    let what = SenderQuestion {
        config: config.as_bytes(),
        switch,
        beside,
        asked: SenderChoices::new(&choices, None).ok_or("a distance")?,
    };
    let (came, left) = (spelled(alloc, came)?, spelled(alloc, left)?);
    let mut inputs = ByRole {
        came: Watched::new(came.as_bytes()),
        left: Watched::new(left.as_bytes()),
    };
    let mut output = Output::new(alloc, 0, Vec::new(alloc))?;
    let mut errors = Watched::new(Vec::new(alloc));
    let (ins, outs, faults) = (&mut inputs, &mut output, &mut errors);
    let judged = judge_senders(alloc, what, AsLists, ins, outs, faults);
    let text = short_text(output.into_device().as_slice())?;
    Ok((judged.status, text))
}

/// The same of systems alone.
fn judged_at<'a>(
    alloc: Global,
    config: &'a str,
    switch: Option<&'a str>,
    came: &str,
) -> Result<(u8, ShortText), Fail> {
    judged_with(alloc, config, switch, Beside::Nothing, (came, ""))
}

/// The same, of the base tables.
fn judged(alloc: Global, came: &str) -> Result<(u8, ShortText), Fail> {
    judged_at(alloc, base(), None, came)
}

/// Of systems beside the switch, of the base tables.
fn both_judged(alloc: Global, came: &str, left: &str) -> Result<(u8, ShortText), Fail> {
    judged_with(alloc, base(), None, Beside::Switch, (came, left))
}

#[test]
fn recorded_senders_are_judged(rt: HostRuntime) -> Result<(), Fail> {
    let (status, text) = judged(rt.alloc(), "F 0 A 1 H1\n")?;
    let wanted = "conforms explained 0 open 0 uncertain 0 left-out 0 unseen 4 idle 0 \
                  sent 1 cut 1 alone 0\n";
    equal((status, text.as_str()), (0, wanted))?;
    let (status, text) = judged(rt.alloc(), "F 0 B 1 H1\n")?;
    let wanted = "unlawful 1 B 1 not-its-address\n\
                  deviates 1 explained 0 open 0 uncertain 0 left-out 0 unseen 4 idle 0 \
                  sent 0 cut 1 alone 0\n";
    equal((status, text.as_str()), (5, wanted))
}

#[test]
fn senders_at_one_of_several_switches_are_judged(rt: HostRuntime) -> Result<(), Fail> {
    let came = "F 0 A 2 H2\nF 0 A 20 H1\n";
    let (status, text) = judged_at(rt.alloc(), two_switches(), Some("aft"), came)?;
    let wanted = "conforms explained 0 open 0 uncertain 0 left-out 0 unseen 6 idle 0 \
                  sent 1 cut 1 alone 0\n";
    equal((status, text.as_str()), (0, wanted))?;
    let (status, text) = judged_at(rt.alloc(), two_switches(), None, came)?;
    equal((status, text.as_str()), (2, ""))
}

#[test]
fn a_switch_is_judged_beside_its_systems(rt: HostRuntime) -> Result<(), Fail> {
    let (status, text) = both_judged(rt.alloc(), "F 0 A 1 H1\n", "F 6720 A 3 H1\n")?;
    let wanted = "conforms explained 1 open 0 uncertain 0 left-out 0 unseen 0 idle 3 \
                  sent 1 cut 1 alone 0\n";
    equal((status, text.as_str()), (0, wanted))?;
    let (status, text) = both_judged(rt.alloc(), "F 0 A 1 N1\n", "F 17001 A 3 N1\n")?;
    let wanted = "number 1 A 1 0\nlate 1 A 3 1\n\
                  deviates 2 explained 0 open 0 uncertain 0 left-out 0 unseen 0 idle 3 \
                  sent 0 cut 1 alone 0\n";
    equal((status, text.as_str()), (5, wanted))
}

#[test]
fn at_one_port_a_system_is_first(rt: HostRuntime) -> Result<(), Fail> {
    let (status, text) = both_judged(rt.alloc(), "F 0 A 1 N1\n", "F 0 A 1 H2\nF 0 A 1 H9\n")?;
    let wanted = "number 1 A 1 0\nstrange 1 A 1 not-its-port\nstrange 2 A 1 unknown-link\n\
                  deviates 3 explained 0 open 1 uncertain 0 left-out 0 unseen 0 idle 4 \
                  sent 0 cut 1 alone 0\n";
    equal((status, text.as_str()), (5, wanted))
}

#[test]
fn a_distance_has_a_greatest(rt: HostRuntime) -> Result<(), Fail> {
    let leeway = Leeway::new(0, 0, 0, 0, None).ok_or("a leeway")?;
    let choices = Choices::new(leeway, None, Vec::new(rt.alloc()), false, false);
    let choices = choices.ok_or("choices")?;
    let most = SenderChoices::new(&choices, Some(100_000_000)).is_some();
    let more = SenderChoices::new(&choices, Some(100_000_001)).is_some();
    equal((most, more), (true, false))
}
