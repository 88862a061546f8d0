//! The fields of a line: numbers, and bytes in hexadecimal digits.

ghost use Rattle.hex.specs.Hex.{hex_digit_value, decode_pairs, decode_sized};
ghost use Rattle.std.specs.Prelude.{◌≤◌, nat_le, length, true, IfSome, MatchResult, Err, ◌*◌, Ok, if◌then◌else◌, ◌≡◌, ◌^◌, ◌-◌, ◌<◌, min, Some, None, OnOk, IfErr};
ghost use Rattle.std.specs.Prelude.{false};
ghost use Rattle.std.specs.Str.Lines.{strip_carriage_return};
ghost use Rattle.std.specs.Prelude.{take};
ghost use Rattle.afdx_input_lines.specs.Splitting.{all_digits, number_after, number_of};
ghost use Rattle.afdx_input_lines.specs.Fields.{bytes_of_digits, is_skipped};
ghost use Rattle.afdx_frame.specs.Times.{latest_listed};
ghost use Rattle.afdx_input_lines.specs.Fields.{SplitsNumber, holds_space, time_fault, cut_number};
ghost use Rattle.afdx_input_lines.specs.Faults.{IsBytesError};
ghost use Rattle.afdx_input_lines.specs.declared.fault.LineFault.TheVariants.{BadLine};
ghost use Rattle.afdx_input_lines.specs.declared.fault.LineError.TheVariants.{Fault};

use crate::fault::{LineError, LineFault};
use crate::splitting::first_field;
use afdx_frame::LATEST_LISTED;
use hex::FromHexError;
use std::alloc::AllocError;
use std::simd::prelude::*;

/// The number of so many decimal digits is less than 2^64.
const FEW_DIGITS: usize = 19;
/// So many decimal digits are read at once.
const EIGHT: usize = 8;
/// So many hexadecimal digits are read at once.
const BLOCK: usize = 64;

/// The line without the one carriage return at its end.
pub(crate) fn trim_line(line: &[u8]) -> &[u8]
    ensures { result.now ≡ strip_carriage_return line.now }
{
    match line {
        [front @ .., b'\r'] => front,
        _ => line,
    }
}

/// Whether the text is nothing, or a remark.
pub(crate) fn says_nothing(text: &[u8]) -> bool
    ensures { result ≡ is_skipped text.now }
{
    matches!(text, [] | [b'#', ..])
}

/// Whether eight bytes are decimal digits: it is a few steps for all of them.
#[inline(always)]
fn are_digits(bytes: &[u8]) -> bool
    requires { length bytes.now ≡ 8 }
    ensures { result ≡ true → all_digits bytes.now ≡ true }
{
    let block = u8x8::from_slice(bytes);
    let are_high = block.simd_ge(u8x8::splat(b'0'));
    let are_low = block.simd_le(u8x8::splat(b'9'));
    (are_high & are_low).all()
}

/// The number that a few digits write.
#[inline(always)]
fn number_of_digits(digits: &[u8]) -> u64
    requires digits { all_digits digits.now ≡ true }
    requires few { length digits.now ≤ 19 }
    ensures { result ≡ number_after 0 digits.now }
{
    let mut value = 0u64;
    for at in 0..digits.len() {
        value = value * 10 + u64::from(digits[at] - b'0');
    }
    value
}

/// The number of the first eight digits of a text, and how many they are: 0 of none, where it
/// begins with fewer.
#[inline(always)]
fn first_digits(text: &[u8]) -> (u64, usize)
    ensures few { result.1 ≤ 8 }
    ensures within { result.1 ≤ length text.now }
    ensures digits { all_digits (take result.1 text.now) ≡ true }
    ensures value { result.0 ≡ number_after 0 (take result.1 text.now) }
{
    if text.len() < EIGHT {
        return (0, 0);
    }
    let front = &text[..EIGHT];
    if !are_digits(front) {
        return (0, 0);
    }
    (number_of_digits(front), EIGHT)
}

/// The number that a text begins with, where it has few digits and a space behind them, and the
/// rest after the space. The digits before place `start` write `front`. Each other one is read
/// once, and a space isn't searched for.
#[inline(always)]
fn split_few_digits(text: &[u8], front: u64, start: usize) -> Option<(u64, &[u8])>
    requires few { start ≤ 8 }
    requires within { start ≤ length text.now }
    requires digits { all_digits (take start text.now) ≡ true }
    requires value { front ≡ number_after 0 (take start text.now) }
    ensures { IfSome result (λ split. SplitsNumber text.now (Some split.0) (Some split.1)) }
{
    let mut value = front;
    let most = text.len().min(FEW_DIGITS);
    for at in start..most {
        let byte = text[at];
        if !byte.is_ascii_digit() {
            if byte != b' ' || at == 0 {
                return None;
            }
            return Some((value, &text[at + 1..]));
        }
        value = value * 10 + u64::from(byte - b'0');
    }
    None
}

/// Decimal digits, one or more, as a number that stops at the greatest `u64`.
#[inline(never)]
fn read_many_digits(text: &[u8]) -> Option<u64>
    requires { 1 ≤ length text.now }
    ensures { result ≡ cut_number (number_of text.now) }
{
    let mut value = 0u64;
    for digit in text {
        if !digit.is_ascii_digit() {
            return None;
        }
        value = value
            .saturating_mul(10)
            .saturating_add(u64::from(*digit - b'0'));
    }
    Some(value)
}

/// A number of any length, and what `split_number` says of it.
#[cold]
#[inline(never)]
fn split_any_number(text: &[u8]) -> (Option<u64>, Option<&[u8]>)
    ensures { SplitsNumber text.now result.0 result.1 }
{
    let (field, rest) = first_field(text, b' ');
    let number = if field.is_empty() {
        None
    } else {
        read_many_digits(field)
    };
    (number, rest)
}

/// The number before the first space, which stops at the greatest `u64`, and the rest after it.
#[inline(always)]
pub(crate) fn split_number(text: &[u8]) -> (Option<u64>, Option<&[u8]>)
    ensures { SplitsNumber text.now result.0 result.1 }
{
    match split_few_digits(text, 0, 0) {
        Some((number, rest)) => (Some(number), Some(rest)),
        None => split_any_number(text),
    }
}

/// The same, made for one of more than eight digits, as a time is.
#[inline(always)]
pub(crate) fn split_long_number(text: &[u8]) -> (Option<u64>, Option<&[u8]>)
    ensures { SplitsNumber text.now result.0 result.1 }
{
    let (front, start) = first_digits(text);
    match split_few_digits(text, front, start) {
        Some((number, rest)) => (Some(number), Some(rest)),
        None => split_any_number(text),
    }
}

/// The first false check of a line's time, after one of the latest time.
pub(crate) fn fault_of_time(time: u64, latest: u64) -> Option<LineFault>
    ensures fault { result ≡ time_fault time latest }
    ensures time { result ≡ None → time ≤ latest_listed }
    ensures order { result ≡ None → latest ≤ time }
{
    if time > LATEST_LISTED {
        Some(LineFault::TimeTooLarge)
    } else if time < latest {
        Some(LineFault::TimeBack)
    } else {
        None
    }
}

/// Whether a space stands among these bytes.
#[cold]
#[inline(never)]
fn has_space(bytes: &[u8]) -> bool
    ensures { result ≡ holds_space bytes.now }
{
    match memchr::memchr(b' ', bytes) {
        Some(_) => true,
        None => false,
    }
}

/// Why a line isn't read for which this error was found and this is what stands behind the fourth
/// space. A space in it comes first, since the line then has more than five fields.
///
/// So a space is searched for only in lines that can't be read: hexadecimal digits have none.
pub(crate) fn first_error(last: &[u8], error: LineError) -> LineError
    ensures { result ≡ (if holds_space last.now then Fault BadLine else error) }
{
    if has_space(last) {
        LineError::Fault(LineFault::BadLine)
    } else {
        error
    }
}

/// The value of a hexadecimal digit, or a number over 15.
///
/// It is arithmetic without a branch, so that it is done for many digits at once. `figure` is the
/// value of `0` to `9` and over 15 for all others, `letter` is so for `a` to `f` of either case.
fn digit_value(digit: u8) -> u8
    ensures { hex_digit_value digit ≡ (if nat_le result 15 then Some result else None) }
{
    let moved = digit.wrapping_add(255 - b'9');
    let figure = moved.saturating_sub(6).wrapping_sub(240);
    let capital = digit & 0xdf;
    let letter = capital.wrapping_sub(b'A').saturating_add(10);
    figure.min(letter)
}

/// Puts the values of digits in the place of `values`, and the bytes of their pairs in that of
/// `bytes`. False: not all were digits.
#[inline(always)]
fn read_block(digits: &[u8], values: &mut [u8], bytes: &mut [u8]) -> bool
    requires pairs { length digits.now ≡ 2 * length bytes.old }
    requires values { length values.old ≡ length digits.now }
    ensures { result ≡ true → decode_pairs 0 digits.now ≡ Ok bytes.new }
{
    let mut greatest = 0u8;
    'values: for at in 0..digits.len() {
        let value = digit_value(digits[at]);
        greatest = greatest.max(value);
        values[at] = value;
    }
    'bytes: for i in 0..bytes.len() {
        let high = values[2 * i];
        let low = values[2 * i + 1];
        bytes[i] = high.wrapping_mul(16).wrapping_add(low);
    }
    greatest < 16
}

/// Puts the bytes of pairs of digits, a block or more, in the place of `bytes`. False: not all were
/// digits.
///
/// A block of digits is a fixed number of them, so that its loops are made into a few steps over
/// many digits at once. So is the last one, which begins among digits that were read already. It is
/// a call of its own, where the compiler knows that nothing else holds the two slices.
#[inline(never)]
fn read_blocks(digits: &[u8], bytes: &mut [u8]) -> bool
    requires pairs { length digits.now ≡ 2 * length bytes.old }
    requires long { 32 ≤ length bytes.old }
    ensures { result ≡ true → decode_pairs 0 digits.now ≡ Ok bytes.new }
{
    let mut values = [0u8; BLOCK];
    let count = (bytes.len() - 1) / (BLOCK / 2);
    for block in 0..count {
        let at = block * (BLOCK / 2);
        let some = &digits[2 * at..2 * at + BLOCK];
        if !read_block(some, &mut values, &mut bytes[at..at + BLOCK / 2]) {
            return false;
        }
    }
    let at = bytes.len() - BLOCK / 2;
    let last = &digits[2 * at..2 * at + BLOCK];
    read_block(last, &mut values, &mut bytes[at..at + BLOCK / 2])
}

/// Puts the bytes of pairs of digits, fewer than a block, in the place of `bytes`. False: not all
/// were digits.
#[inline(never)]
fn read_short(digits: &[u8], bytes: &mut [u8]) -> bool
    requires pairs { length digits.now ≡ 2 * length bytes.old }
    requires short { length bytes.old < 32 }
    ensures { result ≡ true → decode_pairs 0 digits.now ≡ Ok bytes.new }
{
    let mut values = [0u8; BLOCK];
    read_block(digits, &mut values[..digits.len()], bytes)
}

/// Puts the bytes of pairs of digits in the place of `bytes`. False: not all were digits.
fn read_pairs(digits: &[u8], bytes: &mut [u8]) -> bool
    requires { length digits.now ≡ 2 * length bytes.old }
    ensures { result ≡ true → decode_pairs 0 digits.now ≡ Ok bytes.new }
{
    if bytes.len() < BLOCK / 2 {
        read_short(digits, bytes)
    } else {
        read_blocks(digits, bytes)
    }
}

/// Reads digits as the crate `hex` does, but without a branch for each of them where all are sound.
fn decode_to_slice(digits: &[u8], out: &mut [u8]) -> Result<(), FromHexError>
    ensures value { MatchResult (decode_sized digits.now (length out.old))
        (λ bytes. (result ≡ Ok tt) × (out.new ≡ bytes)) (λ e. result ≡ Err e) }
{
    if digits.len() == 2 * out.len() && read_pairs(digits, out) {
        return Ok(());
    }
    hex::decode_to_slice(digits, out)
}

/// Puts the bytes that hexadecimal digits write, or `-` for none, in the place of `bytes`. It fails
/// where they aren't pairs of such digits, or there is no room.
pub(crate) fn read_bytes(digits: &[u8], bytes: &mut Vec<u8>) -> Result<(), LineError>
    ensures read { OnOk result (bytes_of_digits digits.now ≡ Some bytes.new.items) }
    ensures err { IfErr result (IsBytesError (bytes_of_digits digits.now)) }
{
    if digits == b"-".as_slice() {
        bytes.clear();
        return Ok(());
    }
    bytes.resize(digits.len() / 2, 0)?;
    match decode_to_slice(digits, bytes.as_mut_slice()) {
        Ok(()) => Ok(()),
        Err(_) => Err(LineError::Fault(LineFault::BadHex)),
    }
}
