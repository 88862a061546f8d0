//! Frames, and lists of them.

use afdx_frame::fcs;
use std::alloc::{AllocError, Global};

/// Where the sequence number of a frame of 64 bytes stands.
pub const NUMBER: usize = 59;

/// A frame of link 1 on side A without its check sequence: `hello` from UDP port 1000 to UDP port
/// 1000, number 0.
pub const HELLO: [u8; 60] = [
    3, 0, 0, 0, 0, 1, 2, 0, 0, 0, 1, 0x20, 8, 0, 0x45, 0, 0, 0x21, 0, 0, 0, 0, 1, 0x11, 0xcd, 0xea,
    0x0a, 0, 1, 1, 0xe0, 0xe0, 0, 1, 3, 0xe8, 3, 0xe8, 0, 0x0d, 0, 0, 0x68, 0x65, 0x6c, 0x6c, 0x6f,
    0, 0, 0, 0, 0, 0, 0, 0, 0, 0, 0, 0, 0,
];

/// A frame of link 2 on side A without its check sequence: `world` from UDP port 2000 to UDP port
/// 2000, number 0.
const WORLD: [u8; 60] = [
    3, 0, 0, 0, 0, 2, 2, 0, 0, 0, 2, 0x20, 8, 0, 0x45, 0, 0, 0x21, 0, 0, 0, 0, 1, 0x11, 0xcc, 0xe9,
    0x0a, 0, 2, 1, 0xe0, 0xe0, 0, 2, 7, 0xd0, 7, 0xd0, 0, 0x0d, 0, 0, 0x77, 0x6f, 0x72, 0x6c, 0x64,
    0, 0, 0, 0, 0, 0, 0, 0, 0, 0, 0, 0, 0,
];

/// The frame with these bytes at these places.
fn with_bytes(frame: &[u8; 60], changes: &[(usize, u8)]) -> [u8; 60] {
    let mut frame = *frame;
    for (place, byte) in changes {
        if *place < 60 {
            frame[*place] = *byte;
        }
    }
    frame
}

/// The frame with these bytes at these places, sealed.
pub fn sealed(frame: &[u8; 60], changes: &[(usize, u8)]) -> [u8; 64] {
    let frame = with_bytes(frame, changes);
    let [s0, s1, s2, s3] = fcs(frame.as_slice()).to_le_bytes();
    let mut bytes = [0; 64];
    for place in 0..60 {
        bytes[place] = frame[place];
    }
    bytes[60] = s0;
    bytes[61] = s1;
    bytes[62] = s2;
    bytes[63] = s3;
    bytes
}

/// The frame `hello` with this number.
pub fn hello(number: u8) -> [u8; 64] {
    sealed(&HELLO, &[(NUMBER, number)])
}

/// The frame `world` with this number.
pub fn world(number: u8) -> [u8; 64] {
    sealed(&WORLD, &[(NUMBER, number)])
}

/// The digits of the frame with these bytes at these places, without its check sequence.
fn digits(alloc: Global, frame: &[u8; 60], changes: &[(usize, u8)]) -> Result<String, AllocError> {
    let bytes = with_bytes(frame, changes);
    hex::encode(alloc, bytes.as_slice())
}

/// A list with the digits of frames in the places of marks: `H1` is `hello`, `N1` the same with the
/// number 1, `H9` the same on link 9, `H2` is `world`.
pub fn spelled(alloc: Global, list: &str) -> Result<String, AllocError> {
    let mut text = String::new(alloc);
    text.push_str(list)?;
    for (mark, frame, change) in [
        ("H1", &HELLO, (NUMBER, 0)),
        ("N1", &HELLO, (NUMBER, 1)),
        ("H9", &HELLO, (5, 9)),
        ("H2", &WORLD, (NUMBER, 0)),
    ] {
        let new = digits(alloc, frame, &[change])?;
        text = text.replace(alloc, mark, new.as_str())?;
    }
    Ok(text)
}
