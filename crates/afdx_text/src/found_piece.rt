//! Pieces of the lines of `conform`: what is found and of which frame, a word, by how many ns, and
//! a count.

ghost use Rattle.std.specs.Prelude.{◌≡◌, ◌≤◌, ◌+◌, ◌++◌, codes, length, take};
ghost use Rattle.std.specs.Fmt.{decimal};
ghost use Rattle.afdx_text.specs.FoundPieces.{count_text, found_text};

use crate::piece::{put, put_number, put_piece, put_small};
use crate::place::LinePlace;
use afdx_frame::Side;

/// Puts what is found, and of which frame: how each line of a finding begins.
#[inline(never)]
pub(crate) fn put_found(
    room: &mut [u8],
    at: usize,
    finding: &[u8],
    n: u64,
    side: Side,
    port: u8,
) -> usize
    requires short { length finding.now ≤ 9 }
    requires room { at + 128 ≤ length room.old }
    ensures within { result ≤ at + 64 }
    ensures text { take result room.new
        ≡ take at room.old ++ found_text finding.now n side port }
{
    let at = put(room, at, finding);
    let at = put_number(room, at, n);
    let at = put(room, at, b" ");
    let at = LinePlace::put(side, room, at);
    let at = put(room, at, b" ");
    put_small(room, at, port)
}

/// Puts a word behind what is found.
#[inline(never)]
pub(crate) fn put_word(room: &mut [u8], at: usize, word: &str) -> usize
    requires short { length word.now ≤ 15 }
    requires room { at + 32 ≤ length room.old }
    ensures within { result ≤ at + 17 }
    ensures text { take result room.new
        ≡ take at room.old ++ codes " " ++ word.now ++ codes "\n" }
{
    let at = put(room, at, b" ");
    let at = put_piece(room, at, word.as_bytes());
    put(room, at, b"\n")
}

/// Puts a number behind what is found, as by how many ns.
#[inline(never)]
pub(crate) fn put_by(room: &mut [u8], at: usize, by: u64) -> usize
    requires { at + 64 ≤ length room.old }
    ensures within { result ≤ at + 22 }
    ensures text { take result room.new
        ≡ take at room.old ++ codes " " ++ decimal by ++ codes "\n" }
{
    let at = put(room, at, b" ");
    let at = put_number(room, at, by);
    put(room, at, b"\n")
}

/// Puts the name of a count, and the count.
#[inline(never)]
pub(crate) fn put_count(room: &mut [u8], at: usize, name: &[u8], count: u64) -> usize
    requires short { length name.now ≤ 11 }
    requires room { at + 48 ≤ length room.old }
    ensures within { result ≤ at + 31 }
    ensures text { take result room.new ≡ take at room.old ++ count_text name.now count }
{
    let at = put(room, at, name);
    put_number(room, at, count)
}
