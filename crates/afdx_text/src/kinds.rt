//! How each kind of line is put at a place of a room that is long enough for it: each function says
//! where the line ends.

ghost use Rattle.std.specs.Prelude.{◌≡◌, ◌≤◌, ◌+◌, ◌*◌, ◌++◌, length, take};
ghost use Rattle.afdx_receive.specs.Words.{drop_word};
ghost use Rattle.afdx_text.specs.OutLines.{site_text, verdict_text, letter_of, kind_letter};
ghost use Rattle.afdx_text.specs.OutLines.{verdict_line, loss_line};
ghost use Rattle.afdx_text.specs.OutLines.{departure_line, message_line, drop_line, frame_line};
ghost use Rattle.afdx_text.specs.OutLines.{refused_line, remark_line};

use crate::numeral::Numeral;
use crate::piece::{put, put_digits, put_number, put_piece, put_small};
use crate::place::LinePlace;
use crate::site::Site;
use afdx_input_lines::FrameKind;
use afdx_police::Reason;
use afdx_receive::DropReason;

/// The numbers that were put last: a time, a line of a list, and a link.
#[derive(Debug, Drop)]
pub(crate) struct LastNumbers {
    time: Numeral,
    n: Numeral,
    vl: Numeral,
}

/// Puts what became of a frame at a switch, in words.
#[inline(always)]
#[tactic(auto, using(crate::proofs::WordLemmas::reason_word_short))]
fn put_words(room: &mut [u8], at: usize, reason: Option<Reason>) -> usize
    requires { at + 32 ≤ length room.old }
    ensures within { result ≤ at + 20 }
    ensures text { take result room.new ≡ take at room.old ++ verdict_text reason }
{
    match reason {
        None => put(room, at, b"accept"),
        Some(reason) => {
            let at = put(room, at, b"drop ");
            put_piece(room, at, reason.word().as_bytes())
        }
    }
}

/// Puts the word of a reason to drop a frame.
#[inline(always)]
#[tactic(auto, using(crate::proofs::WordLemmas::drop_word_short))]
fn put_reason(room: &mut [u8], at: usize, why: DropReason) -> usize
    requires { at + 32 ≤ length room.old }
    ensures within { result ≤ at + 20 }
    ensures text { take result room.new ≡ take at room.old ++ drop_word why }
{
    put_piece(room, at, why.word().as_bytes())
}

/// Puts why a receiver dropped a frame, in a word. The length of a word that comes often is known
/// to the compiler: it is a store or two.
#[inline(always)]
fn put_why(room: &mut [u8], at: usize, why: DropReason) -> usize
    requires { at + 32 ≤ length room.old }
    ensures within { result ≤ at + 20 }
    ensures text { take result room.new ≡ take at room.old ++ drop_word why }
{
    match why {
        DropReason::Redundant => put_reason(room, at, DropReason::Redundant),
        DropReason::NoPort => put_reason(room, at, DropReason::NoPort),
        other => put_reason(room, at, other),
    }
}

/// `V n place accept`, or `V n place drop WORD`.
#[inline(never)]
fn put_verdict_at<P: LinePlace>(
    room: &mut [u8],
    at: usize,
    n: u64,
    place: P,
    reason: Option<Reason>,
) -> usize
    requires { at + 128 + P.named place ≤ length room.old }
    ensures within { result ≤ at + 128 + P.named place }
    ensures text { take result room.new
        ≡ take at room.old ++ verdict_line n (P.text place) reason }
{
    let at = put(room, at, b"V ");
    let at = put_number(room, at, n);
    let at = put(room, at, b" ");
    let at = place.put(room, at);
    let at = put(room, at, b" ");
    let at = put_words(room, at, reason);
    put(room, at, b"\n")
}

/// `V n site accept`, or `V n site drop WORD`.
#[inline(always)]
pub(crate) fn put_verdict(
    room: &mut [u8],
    at: usize,
    n: u64,
    site: Site<'_>,
    reason: Option<Reason>,
) -> usize
    requires { at + 128 + length site.switch.now ≤ length room.old }
    ensures within { result ≤ at + 128 + length site.entry.switch.now }
    ensures text { take result room.new
        ≡ take at room.old ++ verdict_line n (site_text site.entry) reason }
{
    if site.switch.is_empty() {
        put_verdict_at(room, at, n, site.side, reason)
    } else {
        put_verdict_at(room, at, n, site, reason)
    }
}

/// `L n place port`.
#[inline(never)]
fn put_loss_at<P: LinePlace>(room: &mut [u8], at: usize, n: u64, place: P, port: u8) -> usize
    requires { at + 128 + P.named place ≤ length room.old }
    ensures within { result ≤ at + 128 + P.named place }
    ensures text { take result room.new ≡ take at room.old ++ loss_line n (P.text place) port }
{
    let at = put(room, at, b"L ");
    let at = put_number(room, at, n);
    let at = put(room, at, b" ");
    let at = place.put(room, at);
    let at = put(room, at, b" ");
    let at = put_small(room, at, port);
    put(room, at, b"\n")
}

/// `L n site port`.
#[inline(always)]
pub(crate) fn put_loss(room: &mut [u8], at: usize, n: u64, site: Site<'_>, port: u8) -> usize
    requires { at + 128 + length site.switch.now ≤ length room.old }
    ensures within { result ≤ at + 128 + length site.entry.switch.now }
    ensures text { take result room.new
        ≡ take at room.old ++ loss_line n (site_text site.entry) port }
{
    if site.switch.is_empty() {
        put_loss_at(room, at, n, site.side, port)
    } else {
        put_loss_at(room, at, n, site, port)
    }
}

/// Puts what happened to a frame at an output port.
#[inline(always)]
fn put_letter(room: &mut [u8], at: usize, too_old: bool) -> usize
    requires { at + 2 ≤ length room.old }
    ensures ends { result ≡ at + 2 }
    ensures text { take result room.new ≡ take at room.old ++ letter_of too_old }
{
    if too_old {
        put(room, at, b"T ")
    } else {
        put(room, at, b"D ")
    }
}

/// Puts what is done with the bytes of a line of a frame list.
#[inline(always)]
fn put_kind(room: &mut [u8], at: usize, kind: FrameKind) -> usize
    requires { at + 2 ≤ length room.old }
    ensures ends { result ≡ at + 2 }
    ensures text { take result room.new ≡ take at room.old ++ kind_letter kind }
{
    match kind {
        FrameKind::Good => put(room, at, b"F "),
        FrameKind::Bad => put(room, at, b"B "),
        FrameKind::Raw => put(room, at, b"R "),
    }
}

impl LastNumbers {
    /// No numbers were put yet.
    pub(crate) fn new() -> LastNumbers {
        LastNumbers {
            time: Numeral::zero(),
            n: Numeral::zero(),
            vl: Numeral::zero(),
        }
    }

    /// The line of a departure, with the numbers that are kept.
    #[inline(never)]
    fn put_left<P: LinePlace>(
        &self,
        room: &mut [u8],
        at: usize,
        place: P,
        port: u8,
        too_old: bool,
    ) -> usize
        requires { at + 128 + P.named place ≤ length room.old }
        ensures within { result ≤ at + 128 + P.named place }
        ensures text { take result room.new
            ≡ take at room.old
            ++ departure_line too_old self.now.n.number self.now.time.number (P.text place) port }
    {
        let at = put_letter(room, at, too_old);
        let at = self.n.put(room, at);
        let at = put(room, at, b" ");
        let at = self.time.put(room, at);
        let at = put(room, at, b" ");
        let at = place.put(room, at);
        let at = put(room, at, b" ");
        let at = put_small(room, at, port);
        put(room, at, b"\n")
    }

    /// The line of a message, with the numbers that are kept.
    #[inline(never)]
    fn put_read(&self, room: &mut [u8], at: usize, name: &str, message: &[u8]) -> usize
        requires { at + 128 + length name.now + 2 * length message.now ≤ length room.old }
        ensures within { result ≤ at + 128 + length name.now + 2 * length message.now }
        ensures text { take result room.new
            ≡ take at room.old
            ++ message_line self.now.time.number name.now self.now.vl.number message.now }
    {
        let at = put(room, at, b"M ");
        let at = self.time.put(room, at);
        let at = put(room, at, b" ");
        let at = put_piece(room, at, name.as_bytes());
        let at = put(room, at, b" ");
        let at = self.vl.put(room, at);
        let at = put(room, at, b" ");
        let at = put_digits(room, at, message);
        put(room, at, b"\n")
    }

    /// The line of a frame that was dropped, with the numbers that are kept.
    #[inline(never)]
    fn put_unread(&self, room: &mut [u8], at: usize, name: &str, why: DropReason) -> usize
        requires { at + 128 + length name.now ≤ length room.old }
        ensures within { result ≤ at + 128 + length name.now }
        ensures text { take result room.new
            ≡ take at room.old
            ++ drop_line self.now.time.number name.now self.now.n.number (drop_word why) }
    {
        let at = put(room, at, b"X ");
        let at = self.time.put(room, at);
        let at = put(room, at, b" ");
        let at = put_piece(room, at, name.as_bytes());
        let at = put(room, at, b" ");
        let at = self.n.put(room, at);
        let at = put(room, at, b" ");
        let at = put_why(room, at, why);
        put(room, at, b"\n")
    }

    /// Takes the time of the next line, in ns.
    #[inline(always)]
    pub(crate) fn set_time(&mut self, time: u64)
        ensures { self.new.time.number ≡ time }
    {
        self.time.set(time);
    }

    /// `D n time site port`, or `T ..`: of a frame, its line and the time, in ns.
    #[inline(always)]
    pub(crate) fn put_departure(
        &mut self,
        room: &mut [u8],
        at: usize,
        of: (u64, u64),
        site: Site<'_>,
        port: u8,
        too_old: bool,
    ) -> usize
        requires { at + 128 + length site.switch.now ≤ length room.old }
        ensures within { result ≤ at + 128 + length site.entry.switch.now }
        ensures text { take result room.new
            ≡ take at room.old ++ departure_line too_old of.0 of.1 (site_text site.entry) port }
    {
        self.n.set(of.0);
        self.time.set(of.1);
        if site.switch.is_empty() {
            self.put_left(room, at, site.side, port, too_old)
        } else {
            self.put_left(room, at, site, port, too_old)
        }
    }

    /// `M time system vl hex`.
    #[inline(always)]
    pub(crate) fn put_message(
        &mut self,
        room: &mut [u8],
        at: usize,
        time: u64,
        name: &str,
        vl: u16,
        message: &[u8],
    ) -> usize
        requires { at + 128 + length name.now + 2 * length message.now ≤ length room.old }
        ensures within { result ≤ at + 128 + length name.now + 2 * length message.now }
        ensures text { take result room.new
            ≡ take at room.old ++ message_line time name.now vl message.now }
    {
        self.time.set(time);
        self.vl.set(u64::from(vl));
        self.put_read(room, at, name, message)
    }

    /// `X time system n WORD`.
    #[inline(always)]
    pub(crate) fn put_drop(
        &mut self,
        room: &mut [u8],
        at: usize,
        time: u64,
        name: &str,
        n: u64,
        why: DropReason,
    ) -> usize
        requires { at + 128 + length name.now ≤ length room.old }
        ensures within { result ≤ at + 128 + length name.now }
        ensures text { take result room.new
            ≡ take at room.old ++ drop_line time name.now n (drop_word why) }
    {
        self.time.set(time);
        self.n.set(n);
        self.put_unread(room, at, name, why)
    }

    /// `K time place port hex`, with the time that is kept.
    #[inline(never)]
    fn put_listed_at<P: LinePlace>(
        &self,
        room: &mut [u8],
        at: usize,
        kind: FrameKind,
        place: P,
        port: u8,
        bytes: &[u8],
    ) -> usize
        requires { at + 128 + P.named place + 2 * length bytes.now ≤ length room.old }
        ensures within { result ≤ at + 128 + P.named place + 2 * length bytes.now }
        ensures text { take result room.new ≡ take at room.old
            ++ frame_line kind (P.text place) port self.now.time.number bytes.now }
    {
        let at = put_kind(room, at, kind);
        let at = self.time.put(room, at);
        let at = put(room, at, b" ");
        let at = place.put(room, at);
        let at = put(room, at, b" ");
        let at = put_small(room, at, port);
        let at = put(room, at, b" ");
        let at = put_digits(room, at, bytes);
        put(room, at, b"\n")
    }

    /// `K time site port hex`, with the time that is kept.
    #[inline(always)]
    pub(crate) fn put_listed(
        &self,
        room: &mut [u8],
        at: usize,
        kind: FrameKind,
        site: Site<'_>,
        port: u8,
        bytes: &[u8],
    ) -> usize
        requires { at + 128 + length site.switch.now + 2 * length bytes.now ≤ length room.old }
        ensures within { result ≤ at + 128 + length site.entry.switch.now + 2 * length bytes.now }
        ensures text { take result room.new ≡ take at room.old
            ++ frame_line kind (site_text site.entry) port self.now.time.number bytes.now }
    {
        if site.switch.is_empty() {
            self.put_listed_at(room, at, kind, site.side, port, bytes)
        } else {
            self.put_listed_at(room, at, kind, site, port, bytes)
        }
    }
}

/// `# WORD n`.
#[inline(never)]
pub(crate) fn put_remark(room: &mut [u8], at: usize, word: &str, n: u64) -> usize
    requires { at + 128 + length word.now ≤ length room.old }
    ensures within { result ≤ at + 128 + length word.now }
    ensures text { take result room.new ≡ take at room.old ++ remark_line word.now n }
{
    let at = put(room, at, b"# ");
    let at = put_piece(room, at, word.as_bytes());
    let at = put(room, at, b" ");
    let at = put_number(room, at, n);
    put(room, at, b"\n")
}

/// `# n WORD`.
#[inline(never)]
pub(crate) fn put_refusal(room: &mut [u8], at: usize, n: u64, word: &str) -> usize
    requires { at + 128 + length word.now ≤ length room.old }
    ensures within { result ≤ at + 128 + length word.now }
    ensures text { take result room.new ≡ take at room.old ++ refused_line n word.now }
{
    let at = put(room, at, b"# ");
    let at = put_number(room, at, n);
    let at = put(room, at, b" ");
    let at = put_piece(room, at, word.as_bytes());
    put(room, at, b"\n")
}
