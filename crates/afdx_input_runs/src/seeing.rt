//! The frames among the lines of recordings, of what came in and of what left.

use crate::over::{Input, Reads};
use crate::seen::Seen;
use afdx_frame::{Seal, Side};
use afdx_input_lines::{Heading, Next, Role, RunFault};
use afdx_input_sources::{NumberLine, Source, Tally, has_own, seal_by, without_own};

/// Gives the frames among the lines that a source gives.
#[derive(Drop)]
pub struct Seeing<S> {
    pub lines: S,
    head: Seen,
    /// Whether the frame's check sequence is the last four of the recorded bytes.
    has_own: bool,
}

impl<S> Seeing<S> {
    ghost use Rattle.std.specs.Prelude.{◌≡◌};

    /// The frames among these lines.
    pub fn new(lines: S) -> Seeing<S>
        ensures { result.lines ≡ lines }
    {
        Seeing {
            lines,
            head: Seen {
                role: Role::Came,
                heading: Heading {
                    time: 0,
                    side: Side::A,
                    switch: 0,
                    port: 1,
                    seal: Seal::Missing,
                },
            },
            has_own: false,
        }
    }
}

impl<I, S: Source<NumberLine, I>> Source<Seen, I> for Seeing<S> {
    ghost use Rattle.afdx_input_runs.specs.SeeingSource.{frame_given};
    ghost use Rattle.afdx_input_runs.specs.SeenLines.{seen_listed};
    ghost use Rattle.afdx_input_sources.specs.NumberLines.{AreItems};

    ghost current = { frame_given S.current };

    ghost left_of = { λ source. S.left_of source.lines };

    ghost Settings = { S.Settings };

    ghost settings = { λ source. S.settings source.lines };

    ghost Gives = { λ settings item. Unit {0} };

    ghost Gave = { λ start source input past.
        AreItems seen_listed (S.Gave start source.lines input) past };

    ghost Ended = { λ start source input past.
        AreItems seen_listed (S.Ended start source.lines input) past };

    ghost Stopped = { λ start source input past fault.
        AreItems seen_listed (λ lines. S.Stopped start source.lines input lines fault) past };

    #[inline(always)]
    fn next(&mut self, input: &mut I) -> Result<Next, RunFault> {
        while let Next::Given = self.lines.next(input)? {
            if let NumberLine::Arrival {
                kind,
                time,
                role,
                side,
                switch,
                port,
            } = self.lines.head()
            {
                let own = has_own(kind, self.lines.bytes());
                self.has_own = own;
                let heading = Heading {
                    time,
                    side,
                    switch,
                    port,
                    seal: seal_by(kind, own),
                };
                self.head = Seen { role, heading };
                return Ok(Next::Given);
            }
        }
        Ok(Next::Ended)
    }

    fn number(&self) -> u64 {
        self.lines.number()
    }

    fn head(&self) -> Seen {
        self.head
    }

    fn bytes(&self) -> &[u8] {
        without_own(self.has_own, self.lines.bytes())
    }
}

impl<I: Input, S: Reads<NumberLine, I>> Reads<Seen, I> for Seeing<S> {
    ghost Bytes = { S.Bytes };

    ghost known = { S.known };

    ghost counted = { λ source. S.counted source.lines };

    ghost AreFew = { λ source. S.AreFew source.lines };

    ghost Way = { S.Way };

    ghost way = { λ source. S.way source.lines };

    ghost IsSet = { S.IsSet };

    ghost whole = { S.whole };

    ghost AreCut = { S.AreCut };

    fn tally(&self) -> Tally {
        self.lines.tally()
    }

    fn stays() {
        S::stays();
    }

    fn reads() {
        S::reads();
    }

    fn takes() {
        S::takes();
    }
}
