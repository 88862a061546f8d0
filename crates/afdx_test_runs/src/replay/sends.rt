//! A run that sends. What it sends and refuses is tried at the program (tests/program/send.sh).

ghost use Rattle.std.specs.Prelude.{◌<◌};

use super::Answer;
use crate::texts::short_text;
use afdx_admit::Admitted;
use afdx_config::SystemId;
use afdx_replay::{NO_COUNTS, RunFault, Summary, Watched, run_send};
use afdx_test_samples::{admitted, base, equal};
use std::alloc::Global;
use std::test::Fail;

/// What a run of the system at this place answers for a list, and the bytes that it writes.
type Sent = (Result<Summary, RunFault>, Vec<u8>);

fn sent_from(alloc: Global, tables: &Admitted, system: SystemId, list: &str) -> Sent
    requires { system.0 < tables.now.own }
{
    let mut input = Watched::new(list.as_bytes());
    let mut output = Watched::new(Vec::new(alloc));
    let result = run_send(alloc, tables, system, &mut input, &mut output);
    (result, output.into_inner())
}

/// Fails where no system has this place.
fn sent_in(alloc: Global, tables: &Admitted, system: u8, list: &str) -> Result<Sent, Fail> {
    if usize::from(system) < tables.tables().own_count() {
        Ok(sent_from(alloc, tables, SystemId(system), list))
    } else {
        Err("system".into())
    }
}

/// The same in the base tables.
fn sent(alloc: Global, system: u8, list: &str) -> Result<Sent, Fail> {
    let tables = admitted(alloc, base())?;
    sent_in(alloc, &tables, system, list)
}

/// What a run of the first system answers and writes for a short list.
fn sent_shortly(alloc: Global, list: &str) -> Result<Answer, Fail> {
    let (result, written) = sent(alloc, 0, list)?;
    Ok((result, short_text(written.as_slice())?))
}

#[test]
fn a_message_is_sent(rt: HostRuntime) -> Result<(), Fail> {
    let (result, text) = sent_shortly(rt.alloc(), "0 1 1 1000 61\n0 2 1 1000 61\n")?;
    let want = Summary {
        lines: 2,
        accepted: 1,
        dropped: 1,
        departed: 1,
        ..NO_COUNTS
    };
    let is_sent = text
        .as_str()
        .starts_with("# 2 S1\nR 6720 A 1 0300000000010200");
    equal((result, is_sent), (Ok(want), true))
}
