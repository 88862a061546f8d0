//! Frames with known check sequences, and the message of one. Each field and fault of a frame is
//! tried at the program (tests/program/police.sh, replay.sh).

ghost use Rattle.std.specs.Prelude.{ℕ, MatchOption};
ghost use Rattle.afdx_frame.specs.Grammar.{Read};
ghost use Rattle.afdx_frame.specs.Parts.{bytes_of};
ghost use Rattle.afdx_frame.specs.Reading.{NoneRead};

use afdx_frame::{Checked, Datagram, MacView, fcs, seal};
use afdx_test_samples::{all_right, equal, hello};
use std::alloc::{AllocError, Global};
use std::test::Fail;

/// The two views together say whether bytes are read, and what.
fn payload_of(frame: Checked<'_>) -> Option<&[u8]>
    ensures { MatchOption result (NoneRead (bytes_of frame.entry))
        (λ payload.
        (vl from_port to_port number : ℕ)
        × Read (bytes_of frame.entry) vl from_port to_port payload.now number) }
{
    let Ok(view) = MacView::of(frame) else {
        return None;
    };
    match Datagram::parse(view) {
        Ok(datagram) => Some(datagram.payload()),
        Err(_) => None,
    }
}

/// A copy. Where memory was refused once, it is asked for again.
fn copied(alloc: Global, bytes: &[u8]) -> Result<Vec<u8>, AllocError> {
    match Vec::from_slice(alloc, bytes) {
        Ok(copy) => Ok(copy),
        Err(AllocError) => Vec::from_slice(alloc, bytes),
    }
}

/// Seals the bytes. A refused call leaves them as they were, and the next one seals them.
fn seal_them(frame: &mut Vec<u8>, bytes: &[u8]) -> Result<(), Fail> {
    if seal(frame).is_err() {
        equal(frame.as_slice(), bytes)?;
        seal(frame)?;
    }
    Ok(())
}

/// The sequence wanted of the first bytes that have another one.
fn wrong_sequence(rows: &[(&[u8], u32)]) -> Option<u32> {
    for (bytes, wanted) in rows {
        if fcs(bytes) != *wanted {
            return Some(*wanted);
        }
    }
    None
}

#[test]
fn check_sequences(rt: HostRuntime) -> Result<(), Fail> {
    let rows: [(&[u8], u32); 7] = [
        (b"", 0),
        (b"123456789", 0xcbf4_3926),
        (b"a", 0xe8b7_be43),
        (b"abc", 0x3524_41c2),
        (&[0], 0xd202_ef8d),
        (&[0; 4], 0x2144_df1c),
        (&[0xff; 32], 0xff6c_ab0b),
    ];
    all_right(wrong_sequence(rows.as_slice()))
}

#[test]
fn seals_or_is_refused(rt: HostRuntime) -> Result<(), Fail> {
    let mut bytes = copied(rt.alloc(), b"123456789")?;
    seal_them(&mut bytes, b"123456789")?;
    equal(bytes.as_slice(), b"123456789\x26\x39\xf4\xcb".as_slice())
}

#[test]
fn a_message_is_read() -> Result<(), Fail> {
    equal(
        payload_of(Checked::new(&hello(0))),
        Some(b"hello".as_slice()),
    )
}
