//! A recording: its frames, one at a time, also from a device that moves little. Each form, stamp
//! and fault is tried at the program (tests/recordings/edge_rows.py, made_recordings.py).

ghost use Rattle.std.specs.Prelude.{◌<◌};

use afdx_input_files::{CheckSequence, FrameReader, Recorded, RecordedFrame, Stamp};
use afdx_input_lines::{Next, RunFault, Watched};
use afdx_test_samples::{HELLO, WeakReader, equal};
use std::alloc::{AllocError, Global};
use std::io::Read;
use std::test::Fail;

/// The header of a pcap: low byte first, us, Ethernet; the check sequence isn't said.
const LOW: [u8; 24] = [
    0xd4, 0xc3, 0xb2, 0xa1, 2, 0, 4, 0, 0, 0, 0, 0, 0, 0, 0, 0, 0, 0, 4, 0, 1, 0, 0, 0,
];
/// A frame's header: 5 us behind 1,700,000,000 s, 60 bytes.
const FIRST: [u8; 16] = [0, 0xf1, 0x53, 0x65, 5, 0, 0, 0, 60, 0, 0, 0, 60, 0, 0, 0];
/// 1,700,000,000 s in ns.
const SECONDS: u64 = 1_700_000_000_000_000_000;

/// A frame of 60 bytes, of Ethernet, at this moment.
fn frame(stamp: Stamp) -> RecordedFrame {
    RecordedFrame {
        interface: 0,
        link_type: 1,
        stamp,
        original: 60,
        check_sequence: CheckSequence::Unsaid,
        found_wrong: false,
    }
}

/// Takes the next number of an input, unless it ended or failed before.
fn next_number<R: Read>(
    input: &mut Watched<R>,
    reader: &mut FrameReader,
) -> Result<Next, RunFault> {
    if input.failed() || input.ended() {
        return Ok(Next::Ended);
    }
    reader.next(input)
}

/// Whether the number that was taken last is this one of these frames, with 60 bytes.
fn is_frame(reader: &FrameReader, number: u64, wanted: &[RecordedFrame]) -> bool {
    let Some(place) = number.checked_sub(1) else {
        return false;
    };
    let Some(frame) = wanted.get(place as usize) else {
        return false;
    };
    let is_it = reader.recorded() == Recorded::Frame(*frame);
    is_it && reader.number() == number && reader.bytes() == HELLO.as_slice()
}

/// Takes all numbers of an input: how many there are, or None if one is another than is wanted.
fn take_all<R: Read>(
    input: &mut Watched<R>,
    reader: &mut FrameReader,
    wanted: &[RecordedFrame],
) -> Result<Option<u64>, RunFault> {
    let mut taken = 0u64;
    for _ in 0..100u64 {
        if let Next::Ended = next_number(input, reader)? {
            return Ok(Some(taken));
        }
        taken = taken.saturating_add(1);
        if !is_frame(reader, taken, wanted) {
            return Ok(None);
        }
    }
    Ok(None)
}

/// What these parts say, one behind the other, at most `most` bytes a read: how many numbers were
/// taken at the end or the fault, and the fault.
fn said(
    alloc: Global,
    parts: &[&[u8]],
    most: usize,
    wanted: &[RecordedFrame],
) -> Result<(Result<Option<u64>, RunFault>, u64), AllocError>
    requires { 0 < most }
{
    let mut bytes = Vec::new(alloc);
    for part in parts {
        bytes.extend_from_slice(part)?;
    }
    let mut input = Watched::new(WeakReader {
        rest: bytes.as_slice(),
        most,
        calls: 100_000,
    });
    let mut reader = FrameReader::new(alloc)?;
    let answer = take_all(&mut input, &mut reader, wanted);
    let taken = reader.number();
    Ok((answer, taken))
}

#[test]
fn a_pcap_says_its_frames(rt: HostRuntime) -> Result<(), Fail> {
    let frames = [frame(Stamp::At(SECONDS + 5000)); 2];
    let parts: [&[u8]; 5] = [&LOW, &FIRST, &HELLO, &FIRST, &HELLO];
    for most in [1, 7, 100_000] {
        equal(said(rt.alloc(), &parts, most, &frames)?, (Ok(Some(2)), 2))?;
    }
    Ok(())
}
