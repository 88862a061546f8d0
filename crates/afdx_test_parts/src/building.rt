//! Frames that are built, in new memory and in the place of others. Each length is tried at the
//! program (tests/run/streams.py).

ghost use Rattle.std.specs.Prelude.{ℕ, ◌≤◌, length};

use afdx_frame::{Address, Side, VlId, build, build_both, build_both_in, is_sealed};
use afdx_test_samples::{HELLO, hello, sealed};
use std::alloc::{AllocError, Global};

const ADDRESS: Address = Address {
    vl: VlId(1),
    system_id: 1,
    partition: 1,
    from_udp: 1000,
    to_udp: 1000,
    least: 64,
};

const LETTERS: [u8; 1471] = [0x61; 1471];

/// The frame of link 1 with this payload. Where memory was refused once, the next call builds it.
fn built(
    alloc: Global,
    address: &Address,
    number: u8,
    side: Side,
    payload: &[u8],
) -> Result<Vec<u8>, AllocError>
    requires least { (64 ≤ address.now.least) × (address.now.least ≤ 1518) }
    requires payload { (1 ≤ length payload.now) × (length payload.now ≤ 1471) }
{
    match build(alloc, address, number, side, payload) {
        Ok(frame) => Ok(frame),
        Err(AllocError) => build(alloc, address, number, side, payload),
    }
}

/// Whether the frame of `hello` with number 0 is built as this one.
fn is_built_as(alloc: Global, side: Side, wanted: &[u8; 64]) -> Result<bool, AllocError> {
    let frame = built(alloc, &ADDRESS, 0, side, b"hello")?;
    Ok(frame.as_slice() == wanted.as_slice())
}

#[test]
fn builds_or_is_refused(rt: HostRuntime) -> Result<(), AllocError> {
    let on_b = sealed(&HELLO, &[(11, 0x40)]);
    assert!(rt; is_built_as(rt.alloc(), Side::A, &hello(0))?);
    assert!(rt; is_built_as(rt.alloc(), Side::B, &on_b)?);
    Ok(())
}

/// Whether these are the frames of the first `len` letters that are built one by one.
fn are_as_built(alloc: Global, a: &[u8], b: &[u8], len: usize) -> Result<bool, AllocError>
    requires { (1 ≤ len) × (len ≤ 1471) }
{
    let is_a = built(alloc, &ADDRESS, 7, Side::A, &LETTERS[..len])?.as_slice() == a;
    let is_b = built(alloc, &ADDRESS, 7, Side::B, &LETTERS[..len])?.as_slice() == b;
    Ok(is_a && is_b && is_sealed(b))
}

/// Both frames of the first `len` letters. Where memory was refused once, the next call builds
/// them.
fn both(alloc: Global, len: usize) -> Result<(Vec<u8>, Vec<u8>), AllocError>
    requires { (1 ≤ len) × (len ≤ 1471) }
{
    match build_both(alloc, &ADDRESS, 7, &LETTERS[..len]) {
        Ok(frames) => Ok(frames),
        Err(AllocError) => build_both(alloc, &ADDRESS, 7, &LETTERS[..len]),
    }
}

/// Both frames of a message are those that are built one by one, at the least length, at one that
/// the payload asks for, and at the greatest.
#[test]
fn builds_both_or_is_refused(rt: HostRuntime) -> Result<(), AllocError> {
    for len in [1, 18, 200, 1471] {
        let (a, b) = both(rt.alloc(), len)?;
        let as_built = are_as_built(rt.alloc(), a.as_slice(), b.as_slice(), len)?;
        assert!(rt; as_built);
    }
    Ok(())
}

/// Both frames of the first `len` letters, in the place of these. Where memory was refused once,
/// the next call builds them.
fn both_in(
    alloc: Global,
    rooms: (Vec<u8>, Vec<u8>),
    len: usize,
) -> Result<(Vec<u8>, Vec<u8>), AllocError>
    requires { (1 ≤ len) × (len ≤ 1471) }
{
    match build_both_in(rooms, &ADDRESS, 7, &LETTERS[..len]) {
        Ok(frames) => Ok(frames),
        Err(AllocError) => both(alloc, len),
    }
}

/// Frames that are built in the place of longer ones, and of shorter ones, are those that are built
/// one by one.
#[test]
fn builds_both_in_the_place_of_others_or_is_refused(rt: HostRuntime) -> Result<(), AllocError> {
    let mut frames = (Vec::new(rt.alloc()), Vec::new(rt.alloc()));
    for len in [200, 1, 1471, 18] {
        frames = both_in(rt.alloc(), frames, len)?;
        let as_built = are_as_built(rt.alloc(), frames.0.as_slice(), frames.1.as_slice(), len)?;
        assert!(rt; as_built);
    }
    Ok(())
}
