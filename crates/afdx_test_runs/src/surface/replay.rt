//! The items of `afdx_replay`.

ghost use Rattle.std.specs.Prelude.{◌≡◌, ◌<◌, false};
ghost use Rattle.afdx_input_lines.specs.Watching.{has_failed, has_ended};

use afdx_admit::Admitted;
use afdx_config::{SystemId, Tables};
use afdx_frame::{Policing, Side, VlId};
use afdx_police::LinkRule;
use afdx_replay::{
    ListFault, OneOfTwo, RecordingFault, RunFault, Summary, Watched, check, police, replay, run,
    run_police, run_send, run_unadmitted, send,
};
use afdx_test_samples::{admitted, base, base_tables, equal};
use std::alloc::Global;
use std::test::Fail;

/// What a run reads: an empty list.
fn empty_list() -> Watched<&'static [u8]>
    ensures sound { has_failed result ≡ false }
    ensures unended { has_ended result ≡ false }
{
    let list: &[u8] = b"";
    let input: Watched<&[u8]> = Watched::new(list);
    input
}

/// The counts of a run, in their order.
fn counts(summary: Summary) -> [u64; 7] {
    let lines: u64 = summary.lines;
    let accepted: u64 = summary.accepted;
    let dropped: u64 = summary.dropped;
    let lost: u64 = summary.lost;
    let departed: u64 = summary.departed;
    let too_old: u64 = summary.too_old;
    let delivered: u64 = summary.delivered;
    [lines, accepted, dropped, lost, departed, too_old, delivered]
}

/// What became of a device: whether a call failed, whether it ended, and how many calls there were.
fn told<T>(device: &Watched<T>) -> (bool, bool, u64) {
    let failed: bool = device.failed();
    let ended: bool = device.ended();
    let calls: u64 = device.calls();
    (failed, ended, calls)
}

/// An output of a run.
fn new_output(alloc: Global) -> Watched<Vec<u8>>
    ensures { has_failed result ≡ false }
{
    let output: Watched<Vec<u8>> = Watched::new(Vec::new(alloc));
    output
}

/// What `run` counts in an empty list, and what became of its devices.
fn ran(alloc: Global, tables: &Admitted) -> Result<([u64; 7], (bool, bool), usize), RunFault> {
    let mut input = empty_list();
    let mut output = new_output(alloc);
    let answer: Result<Summary, RunFault> = run(alloc, tables, &mut input, &mut output);
    let (failed, ended, _) = told(&input);
    let written: Vec<u8> = output.into_inner();
    Ok((counts(answer?), (failed, ended), written.len()))
}

/// What `run_unadmitted` counts in an empty list.
fn ran_unadmitted(alloc: Global, tables: &Tables) -> Result<[u64; 7], RunFault> {
    let mut input = empty_list();
    let mut output = new_output(alloc);
    let answer: Result<Summary, RunFault> = run_unadmitted(alloc, tables, &mut input, &mut output);
    Ok(counts(answer?))
}

/// What `run_police` counts in an empty list.
fn ran_police(alloc: Global, rule: &LinkRule) -> Result<[u64; 7], RunFault> {
    let mut input = empty_list();
    let mut output = new_output(alloc);
    let answer: Result<Summary, RunFault> = run_police(alloc, rule, &mut input, &mut output);
    Ok(counts(answer?))
}

/// What `run_send` counts in an empty list.
fn ran_send(alloc: Global, tables: &Admitted, system: SystemId) -> Result<[u64; 7], RunFault>
    requires { system.0 < tables.now.own }
{
    let mut input = empty_list();
    let mut output = new_output(alloc);
    let answer: Result<Summary, RunFault> = run_send(
        alloc,
        tables,
        system,
        &mut input,
        &mut output,
    );
    Ok(counts(answer?))
}

/// The status of `check`, and how much it writes.
fn checked(alloc: Global, config: &[u8]) -> (u8, usize) {
    let mut output = new_output(alloc);
    let mut errors = new_output(alloc);
    let status: u8 = check(alloc, config, &mut output, &mut errors);
    (status, output.into_inner().len())
}

/// The status of `police` for the words of a rule and an empty list.
fn policed(alloc: Global, bag_ms: u64) -> u8 {
    let mut input = empty_list();
    let mut output = new_output(alloc);
    let mut errors = new_output(alloc);
    let (lmax, jitter_us): (u64, u64) = (64, 500);
    let status: u8 = police(
        alloc,
        bag_ms,
        lmax,
        jitter_us,
        &mut input,
        &mut output,
        &mut errors,
    );
    status
}

/// That of `replay` for a configuration and an empty list.
fn replayed(alloc: Global, admission: bool, config: &[u8]) -> u8 {
    let mut input = empty_list();
    let mut output = new_output(alloc);
    let mut errors = new_output(alloc);
    let status: u8 = replay(
        alloc,
        admission,
        config,
        &mut input,
        &mut output,
        &mut errors,
    );
    status
}

/// That of `send`.
fn sent(alloc: Global, config: &[u8], system: &str) -> u8 {
    let mut input = empty_list();
    let mut output = new_output(alloc);
    let mut errors = new_output(alloc);
    let status: u8 = send(alloc, config, system, &mut input, &mut output, &mut errors);
    status
}

/// The number in the fault of a recording, if it has one.
fn number_in(fault: RecordingFault) -> Option<u64> {
    match fault {
        RecordingFault::NotRecording(n) => Some(n),
        RecordingFault::BadVersion(n) => Some(n),
        RecordingFault::Damaged(n) => Some(n),
        RecordingFault::Ended(n) => Some(n),
        RecordingFault::NoArrival(n) => Some(n),
        RecordingFault::NotEthernet(n) => Some(n),
        RecordingFault::NoTime(n) => Some(n),
        RecordingFault::BadTime(n) => Some(n),
        RecordingFault::Cut(n) => Some(n),
        RecordingFault::FcsUnclear(n) => Some(n),
        RecordingFault::TimeBack(n) => Some(n),
        RecordingFault::TimeTooLarge(n) => Some(n),
        RecordingFault::Packed => None,
        RecordingFault::Absent(n) => Some(n),
        RecordingFault::Lossy(n) => Some(n),
    }
}

/// The number of a line in a fault of one of two lists.
fn line_in(fault: ListFault) -> Option<u64> {
    match fault {
        ListFault::BadLine(n) => Some(n),
        ListFault::BadHex(n) => Some(n),
        ListFault::TimeBack(n) => Some(n),
        ListFault::TimeTooLarge(n) => Some(n),
        ListFault::BadPort(n) => Some(n),
        ListFault::LineTooLong(n) => Some(n),
        ListFault::TooManyLines => None,
    }
}

/// The number in a fault: of a line of a list, or in the fault of a recording.
fn number_of(fault: &RunFault) -> Option<u64> {
    match fault {
        RunFault::BadLine(n) => Some(*n),
        RunFault::BadHex(n) => Some(*n),
        RunFault::TimeBack(n) => Some(*n),
        RunFault::TimeTooLarge(n) => Some(*n),
        RunFault::BadPort(n) => Some(*n),
        RunFault::LineTooLong(n) => Some(*n),
        RunFault::Recording(fault) => number_in(*fault),
        RunFault::Of(OneOfTwo::Recording(_, fault)) => number_in(*fault),
        RunFault::Of(OneOfTwo::List(_, fault)) => line_in(*fault),
        RunFault::TooManyLines | RunFault::Read | RunFault::Write | RunFault::Memory => None,
    }
}

#[test]
fn faults(_rt: HostRuntime) -> Result<(), Fail> {
    equal(number_of(&RunFault::BadPort(7)), Some(7))?;
    equal(
        number_of(&RunFault::Recording(RecordingFault::Cut(9))),
        Some(9),
    )?;
    equal(
        number_of(&RunFault::of_network(Side::B, RecordingFault::Cut(9))),
        Some(9),
    )?;
    equal(number_of(&RunFault::TooManyLines), None)
}

#[test]
fn commands(rt: HostRuntime) -> Result<(), Fail> {
    let alloc = rt.alloc();
    equal((policed(alloc, 1), policed(alloc, 3)), (0, 2))?;
    let config = base().as_bytes();
    equal(
        (replayed(alloc, true, config), replayed(alloc, false, b"")),
        (0, 1),
    )?;
    equal(
        (sent(alloc, config, "s1"), sent(alloc, config, "s9")),
        (0, 2),
    )
}

#[test]
fn runs(rt: HostRuntime) -> Result<(), Fail> {
    let rule = LinkRule::new(VlId(1), 1, 1, 64, 64, 500, Policing::Byte).ok_or("a rule")?;
    equal(ran_police(rt.alloc(), &rule)?, [0; 7])?;
    let tables = base_tables(rt.alloc())?;
    equal(ran_unadmitted(rt.alloc(), &tables)?, [0; 7])
}

#[test]
fn admitted_runs(rt: HostRuntime) -> Result<(), Fail> {
    let tables = admitted(rt.alloc(), base())?;
    equal(ran(rt.alloc(), &tables)?, ([0; 7], (false, true), 0))?;
    if tables.tables().own_count() < 1 {
        return Err("a system".into());
    }
    equal(ran_send(rt.alloc(), &tables, SystemId(0))?, [0; 7])
}

#[test]
fn checks(rt: HostRuntime) -> Result<(), Fail> {
    let (status, _) = checked(rt.alloc(), base().as_bytes());
    equal(status, 0)
}
