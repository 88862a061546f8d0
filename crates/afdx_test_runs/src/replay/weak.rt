//! A whole run between devices that move little at a time and fail, and what they tell of it. More
//! runs are those of the program (tests/run/devices.py).

use afdx_frame::{Policing, VlId};
use afdx_police::LinkRule;
use afdx_replay::{RunFault, Watched, run_police};
use afdx_test_samples::{Break, WeakReader, WeakWriter, all_right};
use std::alloc::Global;
use std::test::Fail;

/// Three frames that are too short, and the text of their verdicts, in lines of 21 bytes.
const LIST: &str = "R 0 A 1 00\nR 1 A 1 00\nR 2 A 1 00\n";

const TEXT: &str = "V 1 A drop too-short\nV 2 A drop too-short\nV 3 A drop too-short\n";

/// How a run ends: which device has failed.
#[derive(Clone, Copy, Debug, PartialEq, Eq)]
enum End {
    Well,
    Input,
    Output,
    Otherwise,
}

fn end_of(fault: Option<RunFault>) -> End {
    match fault {
        None => End::Well,
        Some(RunFault::Read) => End::Input,
        Some(RunFault::Write) => End::Output,
        Some(_) => End::Otherwise,
    }
}

/// How many bytes each device moves a call and how many calls go well, of the input and of the
/// output, how the output then breaks, how the run ends, and how much of the text is written.
type Devices = ([usize; 2], [u64; 2], Break, End, usize);

const MANY: u64 = 999;

const ROWS: [Devices; 5] = [
    ([1, 1], [MANY, MANY], Break::Fails, End::Well, 63),
    ([99, 99], [0, MANY], Break::Fails, End::Input, 0),
    ([1, 99], [32, MANY], Break::Fails, End::Input, 42),
    ([99, 99], [MANY, 1], Break::TakesNone, End::Output, 21),
    ([99, 5], [MANY, 7], Break::Fails, End::Output, 31),
];

/// Whether a run between these devices ends and writes as it should, and tells which has failed,
/// and whether the input has ended.
fn is_run(alloc: Global, rule: &LinkRule, row: &Devices) -> bool {
    let ([most_in, most_out], [calls_in, calls_out], at_end, end, length) = *row;
    let mut input = Watched::new(WeakReader {
        rest: LIST.as_bytes(),
        most: most_in.max(1),
        calls: calls_in,
    });
    let mut output = Watched::new(WeakWriter {
        written: Vec::new(alloc),
        most: most_out,
        calls: calls_out,
        at_end,
    });
    let found = end_of(run_police(alloc, rule, &mut input, &mut output).err());
    let tells = (found, input.failed(), output.failed(), input.ended());
    let written = output.into_inner().written;
    let is_written = TEXT.as_bytes().starts_with(written.as_slice()) && written.len() == length;
    is_written && tells == (end, end == End::Input, end == End::Output, end == End::Well)
}

/// The first of the rows that isn't run as it should be.
fn wrongly_run(alloc: Global, rule: &LinkRule) -> Option<Devices> {
    ROWS.into_iter().find(|row| !is_run(alloc, rule, row))
}

#[test]
fn runs_between_weak_devices(rt: HostRuntime) -> Result<(), Fail> {
    let rule = LinkRule::new(VlId(1), 1, 1, 64, 64, 500, Policing::Byte).ok_or("a rule")?;
    all_right(wrongly_run(rt.alloc(), &rule))
}
