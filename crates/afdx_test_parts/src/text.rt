//! Lines that are held and handed over. Their texts, and those of faults, are tried at the program
//! (tests/program/).

use afdx_frame::Side;
use afdx_test_samples::{Break, WeakWriter, all_right};
use afdx_text::{OutLine, Output, Sink, Site};
use std::alloc::{AllocError, Global};
use std::test::Fail;

/// The line of an accepted frame: 13 bytes.
const ACCEPTED: OutLine<'static> = OutLine::Verdict {
    n: 1,
    site: Site {
        side: Side::A,
        switch: "",
    },
    reason: None,
};

/// Puts so many lines, each if the one before it was, and flushes the output if that is asked for.
/// False: a call failed.
fn put_lines(output: &mut Output<WeakWriter>, count: u64, flush: bool) -> bool {
    for _ in 0..count {
        if output.failed() || output.put(&ACCEPTED).is_err() {
            return false;
        }
    }
    !flush || output.flush().is_ok()
}

/// The room of an output, how many calls its device takes, how many lines are put, whether they are
/// flushed, whether all goes well, and how many bytes come to the device.
type Held = (usize, u64, u64, bool, bool, usize);

/// Whether the output holds and hands over its lines as it should.
fn is_held(alloc: Global, row: &Held) -> Result<bool, AllocError> {
    let (room, calls, count, flush, is_well, length) = *row;
    let device = WeakWriter {
        written: Vec::new(alloc),
        most: 100,
        calls,
        at_end: Break::Fails,
    };
    let mut output = Output::new(alloc, room, device)?;
    let went_well = put_lines(&mut output, count, flush);
    let written = output.into_device().written;
    Ok((went_well, written.len()) == (is_well, length))
}

/// The first of the rows that isn't held as it should be.
fn wrongly_held(alloc: Global, rows: &[Held]) -> Result<Option<Held>, AllocError> {
    for row in rows {
        if !is_held(alloc, row)? {
            return Ok(Some(*row));
        }
    }
    Ok(None)
}

#[test]
fn lines_are_held_and_handed_over(rt: HostRuntime) -> Result<(), Fail> {
    let rows = [
        (1000, 9, 3, false, true, 0),
        (1000, 9, 3, true, true, 39),
        (0, 9, 3, false, true, 39),
        (0, 2, 3, false, false, 26),
        (1000, 0, 3, true, false, 0),
        (1000, 99, 200, false, true, 2262),
        (1000, 1, 200, false, false, 100),
    ];
    all_right(wrongly_held(rt.alloc(), rows.as_slice())?)
}
