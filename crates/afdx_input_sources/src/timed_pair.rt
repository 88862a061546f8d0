//! The numbers of two recordings, as lines: each arrival at its time.

ghost use Rattle.std.specs.Prelude.{◌≡◌};
ghost use Rattle.afdx_input_sources.specs.Taking as taking;
ghost use Rattle.afdx_input_sources.specs.TimedPairSource as spec;

use crate::clock::Clock;
use crate::engine::Source;
use crate::merged::{Merged, Nth, give_next};
use crate::number::Number;
use crate::number_line::NumberLine;
use crate::skipped::Skipped;
use crate::two::Two;
use afdx_frame::Side;
use afdx_input_lines::{Next, RecordingFault, RunFault};

/// Gives the line of each number of two recordings, of network A and of network B, or of what came
/// in and of what left.
#[derive(Drop)]
pub struct TimedPair<S> {
    pub pair: Merged<S>,
    clock: Clock,
    line: NumberLine,
}

impl<S> TimedPair<S> {
    ghost use Rattle.afdx_input_sources.specs.declared.ahead.AtHead.{AtHead};
    ghost use Rattle.afdx_input_sources.specs.declared.ahead.AtHead.TheVariants.{Unknown};

    /// The lines of these recordings. Time 0 is the moment that is said, or that of the first
    /// arrival of both.
    pub fn new(a: S, b: S, said: Option<u64>) -> TimedPair<S>
        ensures a { result.pair.first.source ≡ a }
        ensures b { result.pair.second.source ≡ b }
        ensures head_a { result.pair.first.head ≡ Unknown }
        ensures head_b { result.pair.second.head ≡ Unknown }
        ensures said { result.clock.said ≡ said }
        ensures zero { result.clock.zero ≡ said }
    {
        TimedPair {
            pair: Merged::new(a, b),
            clock: Clock::new(said),
            line: NumberLine::Skipped(Skipped::NoFrame),
        }
    }
}

/// The network of a recording, the first or the second.
fn network_of(n: Nth) -> Side
    ensures { result ≡ spec.network_of n }
{
    match n {
        Nth::First => Side::A,
        Nth::Second => Side::B,
    }
}

/// A fault of the recording of this network.
fn fault_named(side: Side, fault: RunFault) -> RunFault
    ensures { result ≡ spec.fault_named side fault }
{
    match fault {
        RunFault::Recording(fault) => RunFault::of_network(side, fault),
        other => other,
    }
}

/// The network of the recording that an arrival is of.
fn side_of(number: &Number) -> Side
    ensures { result ≡ taking.side_of number.now }
{
    match number {
        Number::Arrival(found) if found.is_second => Side::B,
        _ => Side::A,
    }
}

impl<P: Two, S: Source<Number, P::Part>> Source<NumberLine, P> for TimedPair<S> {
    ghost use Rattle.std.specs.Prelude.{ℕ, Option};
    ghost use Rattle.afdx_input_sources.specs.MergedSource.{left_in};
    ghost use Rattle.afdx_input_sources.specs.TimedPairSource.{HasPaired, HasPairedAll};
    ghost use Rattle.afdx_input_sources.specs.TimedPairSource.{HasStoppedPairing, line_given};

    ghost current = { line_given S.current };

    ghost left_of = { λ source. left_in S.left_of source.pair };

    ghost Settings = { S.Settings × S.Settings × Option ℕ };

    ghost settings = { λ source. (
      S.settings source.pair.first.source,
      S.settings source.pair.second.source,
      source.clock.said,
    ) };

    ghost Gives = { λ settings item. Unit {0} };

    ghost Gave = { λ start source inputs lines.
        HasPaired S.current S.Gave S.Ended (P.both start) source (P.both inputs) lines };

    ghost Ended = { λ start source inputs lines.
        HasPairedAll S.current S.Gave S.Ended (P.both start) source (P.both inputs) lines };

    ghost Stopped = { λ start source inputs lines fault. HasStoppedPairing S.current S.Gave
        S.Ended S.Stopped (P.both start) source (P.both inputs) lines fault };

    fn next(&mut self, inputs: &mut P) -> Result<Next, RunFault> {
        match give_next(&mut self.pair, inputs) {
            Ok(Next::Given) => {}
            Ok(Next::Ended) => return Ok(Next::Ended),
            Err(fault) => return Err(fault_named(network_of(self.pair.from), fault)),
        }
        let given = self.pair.source();
        let number = given.head();
        let n = given.number();
        let Some(line) = self.clock.line(&number) else {
            let fault = RecordingFault::TimeTooLarge(n);
            return Err(RunFault::of_network(side_of(&number), fault));
        };
        self.line = line;
        Ok(Next::Given)
    }

    fn number(&self) -> u64 {
        self.pair.source().number()
    }

    fn head(&self) -> NumberLine {
        self.line
    }

    fn bytes(&self) -> &[u8] {
        self.pair.source().bytes()
    }
}
