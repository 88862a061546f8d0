//! The lines of `conform`, and how each is put at a place of a room that is long enough for it.

ghost use Rattle.std.specs.Prelude.{◌≡◌, ◌≤◌, ◌+◌, ◌++◌, length, take};
ghost use Rattle.afdx_text.specs.ConformLines.{answer_text, conform_text, finding_text, judged_line};

use crate::found_piece::{put_by, put_count, put_found, put_word};
use crate::piece::put;
use crate::sender_lines::{SenderTotals, put_no_source, put_sender, put_senders};
use crate::sender_words::NoSource;
use afdx_conform::Finding;
use afdx_frame::Side;
use afdx_lawful::SenderFinding;

/// Whether a recorded switch did what the rules say.
#[derive(Clone, Copy, Debug, PartialEq, Eq)]
pub enum Answer {
    /// Every frame is explained, and no arrival lacks one: `conforms`.
    Conforms,
    /// There are so many findings: `deviates D`.
    Deviates(u64),
    /// There is no finding, but nothing was shown, or a stream is unsure: `undecided`.
    Undecided,
}

/// The answer; the frames that are explained; the arrivals whose frames may come later; those of
/// which both answers are right; the lines that were left out; the streams that weren't recorded;
/// those that were and of which nothing was shown; and what is counted of senders, where these were
/// judged.
#[derive(Clone, Copy, Debug, PartialEq, Eq)]
pub struct Conclusion {
    pub answer: Answer,
    pub explained: u64,
    pub waiting: u64,
    pub uncertain: u64,
    pub left_out: u64,
    pub unseen: u64,
    pub idle: u64,
    pub senders: Option<SenderTotals>,
}

/// A line of `conform`. A stream is a link at an output port of a side; `n` is a line of CAME, but
/// in `strange`, where it is one of LEFT; `port` is the output port, of a sender its system's port.
#[derive(Clone, Copy, Debug, PartialEq, Eq)]
pub enum ConformLine {
    /// What the switch did with a frame or an arrival: `strange n side port WORD`,
    /// `passed n side port WORD`, `stopped n side port`, `late n side port by` or
    /// `early n side port by`.
    Found {
        side: Side,
        port: u8,
        finding: Finding,
    },
    /// From here the stream can be explained in too many ways: `unsure n side port`.
    Unsure {
        n: u64,
        side: Side,
        port: u8,
    },
    /// What a system did as a sender with a frame: `unlawful n side port WORD`,
    /// `number n side port Q`, `soon n side port by`, `differs n side port`,
    /// `apart n side port by` or `single n side port`.
    Sender {
        side: Side,
        port: u8,
        finding: SenderFinding,
    },
    /// A frame that a system sent is no source's: `unlawful n side port WORD`.
    Sourceless {
        n: u64,
        side: Side,
        port: u8,
        why: NoSource,
    },
    /// The last line.
    Judged(Conclusion),
}

/// The most bytes of a line of `conform`.
pub(crate) const MOST_OF_CONFORM: usize = 384;

/// Puts the answer, in words.
#[inline(never)]
fn put_answer(room: &mut [u8], at: usize, answer: Answer) -> usize
    requires { at + 48 ≤ length room.old }
    ensures within { result ≤ at + 31 }
    ensures text { take result room.new ≡ take at room.old ++ answer_text answer }
{
    match answer {
        Answer::Conforms => put(room, at, b"conforms"),
        Answer::Deviates(findings) => put_count(room, at, b"deviates ", findings),
        Answer::Undecided => put(room, at, b"undecided"),
    }
}

/// Puts the line of a finding at an output port of a side.
#[inline(never)]
#[tactic(auto, using(crate::proofs::WordLemmas::reason_word_short, crate::proofs::WordLemmas::strange_word_short))]
fn put_finding(room: &mut [u8], at: usize, side: Side, port: u8, finding: Finding) -> usize
    requires { at + 128 ≤ length room.old }
    ensures within { result ≤ at + 128 }
    ensures text { take result room.new
        ≡ take at room.old ++ finding_text side port finding }
{
    match finding {
        Finding::Strange(n, why) => {
            let at = put_found(room, at, b"strange ", n, side, port);
            put_word(room, at, why.word())
        }
        Finding::Passed(n, reason) => {
            let at = put_found(room, at, b"passed ", n, side, port);
            put_word(room, at, reason.word())
        }
        Finding::Stopped(n) => {
            let at = put_found(room, at, b"stopped ", n, side, port);
            put(room, at, b"\n")
        }
        Finding::Late(n, by) => {
            let at = put_found(room, at, b"late ", n, side, port);
            put_by(room, at, by)
        }
        Finding::Early(n, by) => {
            let at = put_found(room, at, b"early ", n, side, port);
            put_by(room, at, by)
        }
    }
}

/// `VERDICT explained N open K uncertain U left-out L unseen W idle I`, and ` sent S cut C alone G`
/// behind it where senders were judged.
#[inline(never)]
fn put_judged(room: &mut [u8], at: usize, judged: Conclusion) -> usize
    requires { at + 384 ≤ length room.old }
    ensures within { result ≤ at + 384 }
    ensures text { take result room.new ≡ take at room.old ++ judged_line judged }
{
    let at = put_answer(room, at, judged.answer);
    let at = put_count(room, at, b" explained ", judged.explained);
    let at = put_count(room, at, b" open ", judged.waiting);
    let at = put_count(room, at, b" uncertain ", judged.uncertain);
    let at = put_count(room, at, b" left-out ", judged.left_out);
    let at = put_count(room, at, b" unseen ", judged.unseen);
    let at = put_count(room, at, b" idle ", judged.idle);
    let at = put_senders(room, at, judged.senders);
    put(room, at, b"\n")
}

impl ConformLine {
    /// Puts the line at a place of the room, and tells where it ends.
    #[inline(never)]
    pub(crate) fn put_at(self, room: &mut [u8], at: usize) -> usize
        requires { at + 384 ≤ length room.old }
        ensures within { result ≤ at + 384 }
        ensures text { take result room.new ≡ take at room.old ++ conform_text self }
    {
        match self {
            ConformLine::Found {
                side,
                port,
                finding,
            } => put_finding(room, at, side, port, finding),
            ConformLine::Unsure { n, side, port } => {
                let at = put_found(room, at, b"unsure ", n, side, port);
                put(room, at, b"\n")
            }
            ConformLine::Sender {
                side,
                port,
                finding,
            } => put_sender(room, at, side, port, finding),
            ConformLine::Sourceless { n, side, port, why } => {
                put_no_source(room, at, n, side, port, why)
            }
            ConformLine::Judged(judged) => put_judged(room, at, judged),
        }
    }
}
