//! Pieces of a line, each put at a place of a room that is long enough for it.
//!
//! Each function tells where its piece ends. What stands behind that counts for nothing.

ghost use Rattle.std.specs.Prelude.{◌≡◌, ◌≤◌, ◌+◌, ◌*◌, ◌++◌, length, take, decimal};
ghost use Rattle.hex.specs.Hex.{encode_lower};

use crate::digits::encode_at;
use crate::numeral::MOST_DIGITS;
use std::simd::prelude::*;

/// Puts a literal piece. Where its length is known to the compiler, it is one store or two.
#[inline(always)]
pub(crate) fn put(room: &mut [u8], at: usize, piece: &[u8]) -> usize
    requires { at + length piece.now ≤ length room.old }
    ensures ends { result ≡ at + length piece.now }
    ensures text { take result room.new ≡ take at room.old ++ piece.now }
{
    for i in 0..piece.len() {
        room[at + i] = piece[i];
    }
    at + piece.len()
}

/// Puts the first of 8 bytes, so many: one load and one store.
#[inline(always)]
fn put_of_8(room: &mut [u8], at: usize, bytes: &[u8], size: usize) -> usize
    requires size { size ≤ 8 }
    requires bytes { 8 ≤ length bytes.now }
    requires room { at + 8 ≤ length room.old }
    ensures ends { result ≡ at + size }
    ensures text { take result room.new ≡ take at room.old ++ take size bytes.now }
{
    u8x8::from_slice(bytes).copy_to_slice(&mut room[at..]);
    at + size
}

/// Puts the first of 4 bytes, so many.
#[inline(always)]
fn put_of_4(room: &mut [u8], at: usize, bytes: &[u8], size: usize) -> usize
    requires size { size ≤ 4 }
    requires bytes { 4 ≤ length bytes.now }
    requires room { at + 4 ≤ length room.old }
    ensures ends { result ≡ at + size }
    ensures text { take result room.new ≡ take at room.old ++ take size bytes.now }
{
    u8x4::from_slice(bytes).copy_to_slice(&mut room[at..]);
    at + size
}

/// Puts the first of 2 bytes, so many.
#[inline(always)]
fn put_of_2(room: &mut [u8], at: usize, bytes: &[u8], size: usize) -> usize
    requires size { size ≤ 2 }
    requires bytes { 2 ≤ length bytes.now }
    requires room { at + 2 ≤ length room.old }
    ensures ends { result ≡ at + size }
    ensures text { take result room.new ≡ take at room.old ++ take size bytes.now }
{
    u8x2::from_slice(bytes).copy_to_slice(&mut room[at..]);
    at + size
}

/// Puts a piece of any length.
#[cold]
#[inline(never)]
fn put_any(room: &mut [u8], at: usize, piece: &[u8]) -> usize
    requires { at + length piece.now ≤ length room.old }
    ensures ends { result ≡ at + length piece.now }
    ensures text { take result room.new ≡ take at room.old ++ piece.now }
{
    let len = piece.len();
    room[at..at + len].copy_from_slice(piece);
    at + len
}

/// Puts a piece. The names of systems are 1 to 16 bytes: the last 8, 4 or 2 of these may begin
/// among those that stand there already.
#[inline(always)]
pub(crate) fn put_piece(room: &mut [u8], at: usize, piece: &[u8]) -> usize
    requires { at + length piece.now ≤ length room.old }
    ensures ends { result ≡ at + length piece.now }
    ensures text { take result room.new ≡ take at room.old ++ piece.now }
{
    let len = piece.len();
    if 2 <= len && len <= 4 {
        let middle = put_of_2(room, at, piece, len - 2);
        return put_of_2(room, middle, &piece[len - 2..], 2);
    }
    if 4 < len && len < 8 {
        let middle = put_of_4(room, at, piece, len - 4);
        return put_of_4(room, middle, &piece[len - 4..], 4);
    }
    if 8 <= len && len <= 16 {
        let middle = put_of_8(room, at, piece, len - 8);
        return put_of_8(room, middle, &piece[len - 8..], 8);
    }
    put_any(room, at, piece)
}

/// So many bytes are always copied with the digits of a number, so that it is no loop. Those behind
/// the digits count for nothing.
pub(crate) const CHUNK: usize = 32;

/// Puts the first of 32 bytes, so many.
#[inline(always)]
pub(crate) fn put_front(room: &mut [u8], at: usize, bytes: &[u8], size: usize) -> usize
    requires size { size ≤ 32 }
    requires bytes { 32 ≤ length bytes.now }
    requires room { at + 32 ≤ length room.old }
    ensures ends { result ≡ at + size }
    ensures text { take result room.new ≡ take at room.old ++ take size bytes.now }
{
    u8x32::from_slice(bytes).copy_to_slice(&mut room[at..]);
    at + size
}

/// Puts a number in decimal digits.
#[inline(always)]
pub(crate) fn put_number(room: &mut [u8], at: usize, n: u64) -> usize
    requires { at + 32 ≤ length room.old }
    ensures within { result ≤ at + 20 }
    ensures text { take result room.new ≡ take at room.old ++ decimal n }
{
    let mut digits = [0u8; 52];
    let start = itoa::write_digits(n, &mut digits, MOST_DIGITS);
    put_front(room, at, &digits[start..], MOST_DIGITS - start)
}

/// Puts a small number in decimal digits. It is quick where these are one or two, as those of a
/// port are.
#[inline(always)]
pub(crate) fn put_small(room: &mut [u8], at: usize, n: u8) -> usize
    requires { at + 32 ≤ length room.old }
    ensures within { result ≤ at + 20 }
    ensures text { take result room.new ≡ take at room.old ++ decimal n }
{
    if n < 10 {
        put(room, at, &[b'0' + n])
    } else if n < 100 {
        put(room, at, &[b'0' + n / 10, b'0' + n % 10])
    } else {
        put_number(room, at, u64::from(n))
    }
}

/// Puts bytes in hexadecimal digits, in lower case.
#[inline(always)]
pub(crate) fn put_digits(room: &mut [u8], at: usize, bytes: &[u8]) -> usize
    requires { at + 2 * length bytes.now ≤ length room.old }
    ensures ends { result ≡ at + 2 * length bytes.now }
    ensures text { take result room.new ≡ take at room.old ++ encode_lower bytes.now }
{
    encode_at(room, at, bytes);
    at + 2 * bytes.len()
}
