//! The register after a message: the front of a long one is folded, 16 bytes at a time.
//!
//! The polynomial x^2400 + x^1240 + x^936 + x^712 + 1 is a multiple of the generator. So the
//! remainder stays the same where the first 16 bytes of what is left are taken away and added to
//! the bytes 145, 183, 211 and 300 places behind them. Such a block is written into a window, where
//! the later blocks look up what was added to them. The last blocks go into the register instead,
//! so that in the end nothing of the window is still to be added.

ghost use Rattle.std.specs.Prelude.{◌≡◌, ◌+◌, ◌*◌, ◌≤◌, bit_xor, length};
ghost use Rattle.afdx_frame.specs.Folding.{joint_block, number_from, joined, after_rest};
ghost use Rattle.afdx_frame.specs.Register.{number, shift, left_by};

use crate::register::{after_bytes, block_step};
use std::simd::prelude::*;

/// The least length for which folding pays.
const LEAST_FOLDED: usize = 512;

/// The bytes of a block.
const BLOCK: usize = 16;

/// The most blocks that are folded one after the other.
const MOST_BLOCKS: usize = 77;

/// The bytes behind the folded blocks to which something was added, in whole blocks.
const REACH: usize = 304;

/// The bytes of a window. Those behind the last that is written are looked up, and stay 0.
const WINDOW: usize = MOST_BLOCKS * BLOCK + 464;

/// The 16 bytes at a place, and what is added to them.
#[inline(always)]
fn joint_block(bytes: &[u8], window: &[u8], at: usize) -> u8x16
    requires within { at + 16 ≤ length bytes.now }
    requires room { at + 171 ≤ length window.now }
    ensures { result ≡ joint_block bytes.now window.now at }
{
    u8x16::from_slice(&bytes[at..])
        ^ u8x16::from_slice(&window[at..])
        ^ u8x16::from_slice(&window[at + 89..])
        ^ u8x16::from_slice(&window[at + 117..])
        ^ u8x16::from_slice(&window[at + 155..])
}

/// Writes the register into a window of zeros, so that it is added to the first four bytes.
fn write_register(window: &mut [u8], register: u32)
    requires room { 4 ≤ length window.old }
    requires fresh { number_from window.old 0 ≡ 0 }
    ensures length { length window.new ≡ length window.old }
    ensures front { number_from window.new 0 ≡ register }
    ensures fresh { number_from window.new 4 ≡ 0 }
{
    window[..4].copy_from_slice(&register.to_le_bytes());
}

/// Takes the first blocks away, and adds each to the bytes behind it.
fn fold_blocks(bytes: &[u8], window: &mut [u8], blocks: usize)
    requires within { blocks * 16 + 304 ≤ length bytes.now }
    requires room { blocks * 16 + 464 ≤ length window.old }
    requires fresh { number_from window.old 300 ≡ 0 }
    ensures length { length window.new ≡ length window.old }
    ensures fresh { number_from window.new (blocks * 16 + 300) ≡ 0 }
    ensures same { joined bytes.now window.new (blocks * 16) 0 ≡ joined bytes.now window.old 0 0 }
{
    for block in 0..blocks {
        let at = block * BLOCK;
        joint_block(bytes, window, at).copy_to_slice(&mut window[at + 300..]);
    }
}

/// The register after the bytes to which something was added, from a place on.
fn take_back(bytes: &[u8], window: &[u8], from: usize) -> u32
    requires within { from + 304 ≤ length bytes.now }
    requires room { from + 464 ≤ length window.now }
    requires fresh { number_from window.now (from + 300) ≡ 0 }
    ensures { after_rest bytes.now (from + 304) result ≡ joined bytes.now window.now from 0 }
{
    let mut register = 0;
    for block in 0..REACH / BLOCK {
        let joint = joint_block(bytes, window, from + block * BLOCK).to_array();
        register = block_step(block_step(register, &joint[..8]), &joint[8..]);
    }
    register
}

/// The register after so many blocks and the 304 bytes behind them.
fn fold_piece(register: u32, bytes: &[u8], blocks: usize) -> u32
    requires within { blocks * 16 + 304 ≤ length bytes.now }
    requires few { blocks ≤ 77 }
    ensures { after_rest bytes.now (blocks * 16 + 304) result ≡ after_rest bytes.now 0 register }
{
    let mut window = [0; WINDOW];
    write_register(&mut window, register);
    fold_blocks(bytes, &mut window, blocks);
    take_back(bytes, &window, blocks * BLOCK)
}

/// The register after the front of a message, and how many bytes that front has.
fn fold(bytes: &[u8]) -> (u32, usize)
    ensures within { result.1 ≤ length bytes.now }
    ensures same { after_rest bytes.now result.1 result.0 ≡ after_rest bytes.now 0 0xffff_ffff }
{
    let mut register = u32::MAX;
    let mut taken = 0;
    while bytes.len() - taken >= LEAST_FOLDED {
        let blocks = ((bytes.len() - taken - REACH) / BLOCK).min(MOST_BLOCKS);
        register = fold_piece(register, &bytes[taken..], blocks);
        taken += blocks * BLOCK + REACH;
    }
    (register, taken)
}

/// The register after a long message. Its front is folded.
#[inline(never)]
fn after_long(bytes: &[u8]) -> u32
    ensures { result ≡ left_by bytes.now }
{
    let (front, folded) = fold(bytes);
    after_bytes(front, &bytes[folded..])
}

/// The register after a message.
#[inline(always)]
pub(crate) fn after_message(bytes: &[u8]) -> u32
    ensures { result ≡ left_by bytes.now }
{
    if bytes.len() < LEAST_FOLDED {
        return after_bytes(u32::MAX, bytes);
    }
    after_long(bytes)
}
