//! The arrivals among the lines of recordings of which nothing left.

ghost use Rattle.std.specs.Prelude.{◌≡◌, true, false};
ghost use Rattle.afdx_input_sources.specs.Becoming as spec;

use crate::engine::Source;
use crate::number_line::NumberLine;
use afdx_frame::{Seal, Side, is_sealed};
use afdx_input_lines::{FrameKind, Heading, Next, RunFault};

/// Gives the arrivals among the lines that a source gives. A frame that left is given like one that
/// came in: where arrivals are told alone, no option says that something left.
#[derive(Drop)]
pub struct Arriving<S> {
    pub lines: S,
    head: Heading,
    /// Whether the arrival's check sequence is the last four of the recorded bytes.
    has_own: bool,
}

/// Whether the check sequence of a frame is the last four of these bytes, which were recorded.
pub fn has_own(kind: FrameKind, bytes: &[u8]) -> bool
    ensures { result ≡ spec.has_own kind bytes.now }
{
    match kind {
        FrameKind::Raw => is_sealed(bytes),
        FrameKind::Good | FrameKind::Bad => false,
    }
}

/// How a frame is sealed whose recorded bytes end with its check sequence, or don't.
pub fn seal_by(kind: FrameKind, own: bool) -> Seal
    ensures { result ≡ spec.seal_by kind own }
{
    match (kind, own) {
        (FrameKind::Raw, false) => Seal::Missing,
        (FrameKind::Raw, true) | (FrameKind::Good, _) => Seal::Right,
        (FrameKind::Bad, _) => Seal::Wrong,
    }
}

/// What stands before the last four of these bytes, if those are the check sequence; else all of
/// them.
pub fn without_own(own: bool, bytes: &[u8]) -> &[u8]
    ensures { result.now ≡ spec.without_own own bytes.entry.now }
{
    if own {
        &bytes[..bytes.len().saturating_sub(4)]
    } else {
        bytes
    }
}

impl<S> Arriving<S> {
    /// The arrivals among these lines.
    pub fn new(lines: S) -> Arriving<S>
        ensures { result.lines ≡ lines }
    {
        Arriving {
            lines,
            head: Heading {
                time: 0,
                side: Side::A,
                switch: 0,
                port: 1,
                seal: Seal::Missing,
            },
            has_own: false,
        }
    }
}

impl<I, S: Source<NumberLine, I>> Source<Heading, I> for Arriving<S> {
    ghost use Rattle.afdx_input_sources.specs.ArrivingSource.{arrival_given, IsGivenBy};
    ghost use Rattle.afdx_input_sources.specs.NumberLines.{arrivals_listed, AreItems};

    ghost current = { arrival_given S.current };

    ghost left_of = { λ source. S.left_of source.lines };

    ghost Settings = { S.Settings };

    ghost settings = { λ source. S.settings source.lines };

    ghost Gives = { IsGivenBy S.settings S.Gave };

    ghost Gave = { λ start source input past.
        AreItems arrivals_listed (S.Gave start source.lines input) past };

    ghost Ended = { λ start source input past.
        AreItems arrivals_listed (S.Ended start source.lines input) past };

    ghost Stopped = { λ start source input past fault.
        AreItems arrivals_listed (λ lines. S.Stopped start source.lines input lines fault) past };

    #[inline(always)]
    fn next(&mut self, input: &mut I) -> Result<Next, RunFault> {
        while let Next::Given = self.lines.next(input)? {
            if let NumberLine::Arrival {
                kind,
                time,
                side,
                switch,
                port,
                ..
            } = self.lines.head()
            {
                let own = has_own(kind, self.lines.bytes());
                self.has_own = own;
                self.head = Heading {
                    time,
                    side,
                    switch,
                    port,
                    seal: seal_by(kind, own),
                };
                return Ok(Next::Given);
            }
        }
        Ok(Next::Ended)
    }

    fn number(&self) -> u64 {
        self.lines.number()
    }

    fn head(&self) -> Heading {
        self.head
    }

    fn bytes(&self) -> &[u8] {
        without_own(self.has_own, self.lines.bytes())
    }
}
