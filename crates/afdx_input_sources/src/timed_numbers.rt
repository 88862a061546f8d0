//! The numbers of one recording, as lines: each arrival at its time.

use crate::clock::Clock;
use crate::engine::Source;
use crate::number::Number;
use crate::number_line::NumberLine;
use crate::skipped::Skipped;
use afdx_input_lines::{Next, RecordingFault, RunFault};

/// Gives the line of each number that a source of one recording gives.
#[derive(Drop)]
pub struct TimedNumbers<S> {
    pub numbers: S,
    clock: Clock,
    line: NumberLine,
}

impl<S> TimedNumbers<S> {
    ghost use Rattle.std.specs.Prelude.{◌≡◌, ℕ, Option};

    /// The lines of these numbers. Time 0 is the moment that is said, or that of the first arrival.
    pub fn new(numbers: S, said: Option<u64>) -> TimedNumbers<S>
        ensures numbers { result.numbers ≡ numbers }
        ensures said { result.clock.said ≡ said }
        ensures zero { result.clock.zero ≡ said }
    {
        TimedNumbers {
            numbers,
            clock: Clock::new(said),
            line: NumberLine::Skipped(Skipped::NoFrame),
        }
    }
}

impl<I, S: Source<Number, I>> Source<NumberLine, I> for TimedNumbers<S> {
    ghost use Rattle.std.specs.Prelude.{ℕ, Option};
    ghost use Rattle.afdx_input_sources.specs.TimedSource.{line_given, HasTimed, HasTimedAll};
    ghost use Rattle.afdx_input_sources.specs.TimedSource.{HasStoppedTiming};

    ghost current = { line_given S.current };

    ghost left_of = { λ source. S.left_of source.numbers };

    ghost Settings = { S.Settings × Option ℕ };

    ghost settings = { λ source. (S.settings source.numbers, source.clock.said) };

    ghost Gives = { λ settings item. Unit {0} };

    ghost Gave = { HasTimed S.Gave S.Ended };

    ghost Ended = { HasTimedAll S.Gave S.Ended };

    ghost Stopped = { HasStoppedTiming S.Gave S.Ended S.Stopped };

    #[inline(always)]
    fn next(&mut self, input: &mut I) -> Result<Next, RunFault> {
        if let Next::Ended = self.numbers.next(input)? {
            return Ok(Next::Ended);
        }
        let number = self.numbers.head();
        let Some(line) = self.clock.line(&number) else {
            let n = self.numbers.number();
            return Err(RunFault::Recording(RecordingFault::TimeTooLarge(n)));
        };
        self.line = line;
        Ok(Next::Given)
    }

    fn number(&self) -> u64 {
        self.numbers.number()
    }

    fn head(&self) -> NumberLine {
        self.line
    }

    fn bytes(&self) -> &[u8] {
        self.numbers.bytes()
    }
}
