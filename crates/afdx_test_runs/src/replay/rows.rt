//! Worked rows of runs in admitted tables: what each writes, and what it counts. More rows are
//! tried at the program (tests/program/replay.sh).

use super::Answer;
use crate::texts::short_text;
use afdx_admit::Admitted;
use afdx_replay::{NO_COUNTS, Summary, Watched, run};
use afdx_test_samples::{admitted, all_right, base, spelled};
use std::alloc::Global;
use std::test::Fail;

/// A list, its text, and its counts: lines, accepted, dropped, departed and delivered.
type Worked = (&'static str, &'static str, [u64; 5]);

const WORKED_LISTS: [Worked; 2] = [
    (
        "F 0 A 2 H2\nF 0 A 1 H1\n",
        "\
        V 1 A accept\nV 2 A accept\nD 2 6720 A 3\nM 6720 s3 1 68656c6c6f\n\
        D 1 13440 A 3\nM 13440 s3 2 776f726c64\n",
        [2, 2, 0, 2, 2],
    ),
    (
        "\n# a remark\nF 0 A 24 H1\nF 0 A 1 H1\nF 0 B 1 H1\n",
        "\
        V 3 A drop wrong-port\nV 4 A accept\nV 5 B accept\nD 4 6720 A 3\n\
        M 6720 s3 1 68656c6c6f\nD 5 6720 B 3\nX 6720 s3 5 redundant\n",
        [5, 2, 1, 2, 1],
    ),
];

fn counts([lines, accepted, dropped, departed, delivered]: [u64; 5]) -> Summary {
    Summary {
        lines,
        accepted,
        dropped,
        departed,
        delivered,
        ..NO_COUNTS
    }
}

/// What a run in these tables answers for a list with marks of frames, and what it writes.
fn told(alloc: Global, tables: &Admitted, list: &str) -> Result<Answer, Fail> {
    let list = spelled(alloc, list)?;
    let mut input = Watched::new(list.as_bytes());
    let mut output = Watched::new(Vec::new(alloc));
    let result = run(alloc, tables, &mut input, &mut output);
    Ok((result, short_text(output.into_inner().as_slice())?))
}

/// Whether the list is told and counted so.
fn is_told(alloc: Global, tables: &Admitted, row: &Worked) -> Result<bool, Fail> {
    let (list, text, numbers) = *row;
    let (result, written) = told(alloc, tables, list)?;
    Ok(written.as_str() == text && result == Ok(counts(numbers)))
}

/// The first of the lists that isn't told or counted as it should be.
fn wrongly_told(
    alloc: Global,
    tables: &Admitted,
    rows: &[Worked],
) -> Result<Option<&'static str>, Fail> {
    for row in rows {
        if !is_told(alloc, tables, row)? {
            return Ok(Some(row.0));
        }
    }
    Ok(None)
}

#[test]
fn worked_lists(rt: HostRuntime) -> Result<(), Fail> {
    let tables = admitted(rt.alloc(), base())?;
    all_right(wrongly_told(rt.alloc(), &tables, WORKED_LISTS.as_slice())?)
}
