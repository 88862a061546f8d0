//! What `conform` says of the systems that sent what came to a switch: the lines of what they did
//! wrong, and the end of the last line.

ghost use Rattle.std.specs.Prelude.{◌≡◌, ◌≤◌, ◌+◌, ◌++◌, length, take};
ghost use Rattle.afdx_text.specs.SenderLines.{no_source_line, sender_line, senders_text};

use crate::found_piece::{put_by, put_count, put_found, put_word};
use crate::piece::put;
use crate::sender_words::{NoSource, word_of_flaw};
use afdx_frame::Side;
use afdx_lawful::SenderFinding;

/// Of the systems that were judged as senders: the frames without a finding; those of them whose
/// copies on the other network may not have been recorded; and the links that were recorded on one
/// network alone.
#[derive(Clone, Copy, Debug, PartialEq, Eq)]
pub struct SenderTotals {
    pub sent: u64,
    pub cut: u64,
    pub alone: u64,
}

/// Puts the line of what a system did as a sender, at its port of a side.
#[inline(never)]
#[tactic(auto, using(crate::proofs::WordLemmas::flaw_word_short))]
pub(crate) fn put_sender(
    room: &mut [u8],
    at: usize,
    side: Side,
    port: u8,
    finding: SenderFinding,
) -> usize
    requires { at + 128 ≤ length room.old }
    ensures within { result ≤ at + 128 }
    ensures text { take result room.new
        ≡ take at room.old ++ sender_line side port finding }
{
    match finding {
        SenderFinding::Unlawful(n, flaw) => {
            let at = put_found(room, at, b"unlawful ", n, side, port);
            put_word(room, at, word_of_flaw(flaw))
        }
        SenderFinding::Number(n, next) => {
            let at = put_found(room, at, b"number ", n, side, port);
            put_by(room, at, u64::from(next))
        }
        SenderFinding::Soon(n, by) => {
            let at = put_found(room, at, b"soon ", n, side, port);
            put_by(room, at, by)
        }
        SenderFinding::Differs(n) => {
            let at = put_found(room, at, b"differs ", n, side, port);
            put(room, at, b"\n")
        }
        SenderFinding::Apart(n, by) => {
            let at = put_found(room, at, b"apart ", n, side, port);
            put_by(room, at, by)
        }
        SenderFinding::Single(n) => {
            let at = put_found(room, at, b"single ", n, side, port);
            put(room, at, b"\n")
        }
    }
}

/// Puts the line of a frame that is no source's, at a system's port of a side.
#[inline(never)]
#[tactic(auto, using(crate::proofs::WordLemmas::no_source_word_short))]
pub(crate) fn put_no_source(
    room: &mut [u8],
    at: usize,
    n: u64,
    side: Side,
    port: u8,
    why: NoSource,
) -> usize
    requires { at + 128 ≤ length room.old }
    ensures within { result ≤ at + 128 }
    ensures text { take result room.new
        ≡ take at room.old ++ no_source_line n side port why }
{
    let at = put_found(room, at, b"unlawful ", n, side, port);
    put_word(room, at, why.word())
}

/// Puts ` sent S cut C alone G`, where senders were judged.
#[inline(never)]
pub(crate) fn put_senders(room: &mut [u8], at: usize, senders: Option<SenderTotals>) -> usize
    requires { at + 128 ≤ length room.old }
    ensures within { result ≤ at + 93 }
    ensures text { take result room.new ≡ take at room.old ++ senders_text senders }
{
    let Some(senders) = senders else {
        return at;
    };
    let at = put_count(room, at, b" sent ", senders.sent);
    let at = put_count(room, at, b" cut ", senders.cut);
    put_count(room, at, b" alone ", senders.alone)
}
