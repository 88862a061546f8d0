//! Runs over several switches a side. The worked rows are tried at the program
//! (tests/run/cascade_runs.py).

use super::Answer;
use crate::texts::short_text;
use afdx_admit::{AdmittedSwitches, admit_all};
use afdx_config::{Described, Switches, read_file};
use afdx_replay::{NO_COUNTS, RunFault, Summary, Watched, run_cascade, run_cascade_unadmitted};
use afdx_test_samples::{equal, spelled, two_switches};
use std::alloc::Global;
use std::test::Fail;

/// The two switches of the samples.
fn switches(alloc: Global) -> Result<Switches, Fail> {
    match read_file(alloc, two_switches().as_bytes()) {
        Ok(Described::Several(switches)) => Ok(switches),
        Ok(Described::One(_)) => Err("one switch".into()),
        Err(_) => Err("a fault".into()),
    }
}

fn admitted(alloc: Global) -> Result<AdmittedSwitches, Fail> {
    match admit_all(switches(alloc)?) {
        Ok(admitted) => Ok(admitted),
        Err(_) => Err("not admitted".into()),
    }
}

/// What an admitted run answers for a list, and what it writes.
fn answer(alloc: Global, list: &str) -> Result<Answer, Fail> {
    let admitted = admitted(alloc)?;
    let list = spelled(alloc, list)?;
    let mut input = Watched::new(list.as_bytes());
    let mut output = Watched::new(Vec::new(alloc));
    let result = run_cascade(alloc, &admitted, &mut input, &mut output);
    Ok((result, short_text(output.into_inner().as_slice())?))
}

/// The same of a run that asks no admission.
fn answer_unasked(alloc: Global, list: &str) -> Result<Answer, Fail> {
    let switches = switches(alloc)?;
    let list = spelled(alloc, list)?;
    let mut input = Watched::new(list.as_bytes());
    let mut output = Watched::new(Vec::new(alloc));
    let result = run_cascade_unadmitted(alloc, &switches, &mut input, &mut output);
    Ok((result, short_text(output.into_inner().as_slice())?))
}

const PASSES: &str = "\
V 1 A fwd accept
D 1 6720 A fwd 24
V 1 A aft accept
D 1 13440 A aft 3
M 13440 s3 1 68656c6c6f
";

#[test]
fn a_frame_passes_two_switches(rt: HostRuntime) -> Result<(), Fail> {
    let (result, written) = answer(rt.alloc(), "F 0 A fwd 1 H1\n")?;
    let want = Summary {
        lines: 1,
        accepted: 2,
        departed: 2,
        delivered: 1,
        ..NO_COUNTS
    };
    equal((result, written.as_str()), (Ok(want), PASSES))
}

#[test]
fn a_line_at_a_cable(rt: HostRuntime) -> Result<(), Fail> {
    let (result, written) = answer_unasked(rt.alloc(), "F 0 A fwd 1 H1\nF 9 A aft 20 H1\n")?;
    equal(
        (result, written.as_str()),
        (Err(RunFault::BadPort(2)), "V 1 A fwd accept\n"),
    )
}
