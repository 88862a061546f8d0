//! Two lists that are read at once: which frames are told, and where that stops. Their faults are
//! tried at the program (tests/run/conformance.py, devices.py).

ghost use Rattle.std.specs.Prelude.{◌<◌};

use afdx_input_lines::{ByRole, FrameKind, ListFault, OneOfTwo, Role, RunFault, Watched, Which};
use afdx_input_runs::{Seen, run_two_lists};
use afdx_input_sources::Machine;
use afdx_test_samples::{all_right, equal};
use afdx_text::{OutLine, Output, Sink, Site};
use std::alloc::{AllocError, Global};
use std::io::Read;
use std::test::Fail;

/// Tells each frame by two lines: its list and its number, and the frame itself.
#[derive(Drop)]
struct Noting;

impl Machine<Seen> for Noting {
    ghost Rules = { Unit {0} };

    ghost Can = { λ rules item. Unit {0} };

    ghost Told = { λ rules machine old new past. Unit {0} };

    ghost Begins = { λ rules machine old new past. Unit {0} };

    ghost Done = { λ rules machine old new past. Unit {0} };

    fn tell<O: Sink>(
        &mut self,
        n: u64,
        head: &Seen,
        bytes: &[u8],
        output: &mut O,
    ) -> Result<(), RunFault> {
        let word = match head.role {
            Role::Came => "came",
            Role::Left => "left",
        };
        output.put(&OutLine::Remark { word, n })?;
        let site = Site {
            side: head.heading.side,
            switch: "",
        };
        output.put(&OutLine::Listed {
            kind: FrameKind::Raw,
            time: head.heading.time,
            site,
            port: head.heading.port,
            bytes,
        })
    }

    fn end<O: Sink>(&mut self, output: &mut O) -> Result<(), RunFault> {
        Ok(())
    }
}

/// How many lines both lists have, or the fault that ends a run.
type Answer = Result<(u64, u64), RunFault>;

/// What a run over two inputs answers, what it writes, and how often each was asked.
fn told<R: Read + Drop>(
    alloc: Global,
    came: R,
    left: R,
) -> Result<(Answer, Vec<u8>, (u64, u64)), AllocError> {
    let mut inputs = ByRole {
        came: Watched::new(came),
        left: Watched::new(left),
    };
    let mut machine = Noting;
    let mut output = Output::new(alloc, 0, Vec::new(alloc))?;
    let answer = match run_two_lists(alloc, &mut machine, &mut inputs, &mut output) {
        Ok(lines) => Ok((lines.came, lines.left)),
        Err(fault) => Err(fault),
    };
    let asked = (inputs.came.calls(), inputs.left.calls());
    Ok((answer, output.into_device(), asked))
}

/// Two lists, what a run over them answers, and what it writes.
type Row = (&'static str, &'static str, Answer, &'static str);

const ROWS: [Row; 2] = [
    (
        "R 0 A 1 00\n# a remark\nR 7 B 2 01\n",
        "R 3 A 4 02\nR 7 A 5 03\nR 9 B 24 04\n",
        Ok((3, 3)),
        "# came 1\nR 0 A 1 00\n# left 1\nR 3 A 4 02\n# came 3\nR 7 B 2 01\n\
        # left 2\nR 7 A 5 03\n# left 3\nR 9 B 24 04\n",
    ),
    (
        "R 0 A 1 00\nR 9 A 1 01\n",
        "R 3 A 3 02\nbad\n",
        Err(RunFault::Of(OneOfTwo::List(Which::Left, ListFault::BadLine(2)))),
        "# came 1\nR 0 A 1 00\n# left 1\nR 3 A 3 02\n",
    ),
];

/// The second list of the first row that is told otherwise.
fn wrongly_told(alloc: Global) -> Result<Option<&'static str>, AllocError> {
    for (came, left, answer, text) in ROWS.as_slice() {
        let (result, written, _) = told(alloc, came.as_bytes(), left.as_bytes())?;
        if result != *answer || written.as_slice() != text.as_bytes() {
            return Ok(Some(left));
        }
    }
    Ok(None)
}

#[test]
fn the_earlier_frame_is_told_first(rt: HostRuntime) -> Result<(), Fail> {
    all_right(wrongly_told(rt.alloc())?)
}

#[test]
fn after_a_fault_no_list_is_asked(rt: HostRuntime) -> Result<(), Fail> {
    let (answer, _, asked) = told(rt.alloc(), b"bad\n".as_slice(), b"R 1 A 1 00\n".as_slice())?;
    let fault = RunFault::Of(OneOfTwo::List(Which::Came, ListFault::BadLine(1)));
    equal((answer, asked), (Err(fault), (1, 0)))
}
