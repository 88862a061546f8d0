//! The lines of the program's output.

ghost use Rattle.std.specs.Prelude.{◌≡◌, ◌≤◌, ◌+◌, ◌++◌, length, take};

use crate::check_lines::CheckLine;
use crate::conform_line::{ConformLine, MOST_OF_CONFORM};
use crate::kinds::{LastNumbers, put_loss, put_refusal, put_remark, put_verdict};
use crate::site::Site;
use afdx_frame::VlId;
use afdx_input_lines::FrameKind;
use afdx_police::Reason;
use afdx_receive::DropReason;
use std::alloc::AllocError;

/// A line of the output.
#[derive(Clone, Copy, Debug)]
pub enum OutLine<'a> {
    /// What became of the frame of line `n`: `V n site accept` or `V n site drop WORD`.
    Verdict {
        n: u64,
        site: Site<'a>,
        reason: Option<Reason>,
    },
    /// A copy of it was lost to a full buffer: `L n site port`.
    Lost {
        n: u64,
        site: Site<'a>,
        port: u8,
    },
    /// A copy of it left a port, `D n time site port`, or was dropped there: `T ..`.
    Left {
        n: u64,
        time: u64,
        site: Site<'a>,
        port: u8,
        too_old: bool,
    },
    /// A system read a message: `M time system vl hex`.
    Message {
        time: u64,
        system: &'a str,
        vl: VlId,
        bytes: &'a [u8],
    },
    /// A system dropped a frame: `X time system n WORD`.
    Unread {
        time: u64,
        system: &'a str,
        n: u64,
        why: DropReason,
    },
    /// A line of a frame list: `K time site port hex`, with `F`, `B` or `R` for K.
    Listed {
        kind: FrameKind,
        time: u64,
        site: Site<'a>,
        port: u8,
        bytes: &'a [u8],
    },
    /// A number of a recording that is skipped, a remark in a list: `# WORD n`.
    Remark {
        word: &'a str,
        n: u64,
    },
    /// The message of line `n` wasn't taken: `# n WORD`.
    Refused {
        n: u64,
        word: &'a str,
    },
    /// A line of `check`.
    Check(CheckLine<'a>),
    /// What is found at a switch that was recorded, or the last line.
    Conform(ConformLine),
}

/// The most bytes of a line, but for those of a name, a word and what is written in digits.
pub(crate) const MOST_FIXED: usize = 128;

impl OutLine<'_> {
    ghost use Rattle.std.specs.Prelude.{IfOk, IfSome, IfNone, OnErr, ◌^◌};
    ghost use Rattle.afdx_text.specs.OutLines.{line_text, longest};

    /// At least as many bytes as the line has, its line feed among them; `None` where that is no
    /// `usize`.
    #[inline(always)]
    fn longest(&self) -> Option<usize>
        ensures some { IfSome result (λ most. most ≡ longest self.now) }
        ensures none { IfNone result (2 ^ 64 ≤ longest self.now) }
    {
        match self {
            OutLine::Verdict { site, .. } => MOST_FIXED.checked_add(site.switch.len()),
            OutLine::Lost { site, .. } => MOST_FIXED.checked_add(site.switch.len()),
            OutLine::Left { site, .. } => MOST_FIXED.checked_add(site.switch.len()),
            OutLine::Message { system, bytes, .. } => {
                MOST_FIXED
                    .checked_add(system.len())?
                    .checked_add(2 * bytes.len())
            }
            OutLine::Unread { system, .. } => MOST_FIXED.checked_add(system.len()),
            OutLine::Listed { site, bytes, .. } => {
                MOST_FIXED
                    .checked_add(site.switch.len())?
                    .checked_add(2 * bytes.len())
            }
            OutLine::Remark { word, .. } => MOST_FIXED.checked_add(word.len()),
            OutLine::Refused { word, .. } => MOST_FIXED.checked_add(word.len()),
            OutLine::Check(line) => line.longest(),
            OutLine::Conform(_) => Some(MOST_OF_CONFORM),
        }
    }

    /// So much room is wanted for it. Where that is no `usize`, no memory can have it.
    #[inline(always)]
    pub(crate) fn room_wanted(&self) -> Result<usize, AllocError>
        ensures ok { IfOk result (λ most. most ≡ longest self.now) }
        ensures err { OnErr result (2 ^ 64 ≤ longest self.now) }
    {
        match self.longest() {
            Some(most) => Ok(most),
            None => Err(AllocError),
        }
    }

    /// Puts the line at a place of the room, and tells where it ends.
    #[inline(always)]
    pub(crate) fn put_at(&self, room: &mut [u8], at: usize, kept: &mut LastNumbers) -> usize
        requires { at + longest self.now ≤ length room.old }
        ensures within { result ≤ at + longest self.now }
        ensures text { take result room.new ≡ take at room.old ++ line_text self.now }
    {
        match self {
            OutLine::Verdict { n, site, reason } => put_verdict(room, at, *n, *site, *reason),
            OutLine::Lost { n, site, port } => put_loss(room, at, *n, *site, *port),
            OutLine::Left {
                n,
                time,
                site,
                port,
                too_old,
            } => kept.put_departure(room, at, (*n, *time), *site, *port, *too_old),
            OutLine::Message {
                time,
                system,
                vl,
                bytes,
            } => kept.put_message(room, at, *time, system, vl.0, bytes),
            OutLine::Unread {
                time,
                system,
                n,
                why,
            } => kept.put_drop(room, at, *time, system, *n, *why),
            OutLine::Listed {
                kind,
                time,
                site,
                port,
                bytes,
            } => {
                kept.set_time(*time);
                kept.put_listed(room, at, *kind, *site, *port, bytes)
            }
            OutLine::Remark { word, n } => put_remark(room, at, word, *n),
            OutLine::Refused { n, word } => put_refusal(room, at, *n, word),
            OutLine::Check(line) => line.put_at(room, at),
            OutLine::Conform(line) => line.put_at(room, at),
        }
    }
}
