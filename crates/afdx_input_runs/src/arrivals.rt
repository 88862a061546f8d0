//! What gives a run its arrivals: an input that is a list of frames or a recording, or two
//! recordings that are read at once.

ghost use Rattle.std.specs.Prelude.{ℕ, List};
ghost use Rattle.afdx_input_lines.specs.Peeking.{left_in};
ghost use Rattle.afdx_input_lines.specs.Watching.{device_of};
ghost use Rattle.afdx_input_sources.specs.Items.{arrivals as arrivals_of};

use crate::input_run::{InputCount, run_input};
use crate::inputs::{RunHead, RunInput};
use crate::reading::Reading;
use crate::recording_run::run_pair;
use afdx_frame::BySide;
use afdx_input_lines::{Heading, Peeked, RunFault, Watched};
use afdx_input_sources::{LineForm, Machine, PairOptions, Placing, RecordingOptions};
use afdx_text::Sink;
use std::alloc::Global;
use std::io::Read;

impl<P: Placing> RunHead<P> for Heading {
    ghost use Rattle.std.specs.Prelude.{◌⊎◌};
    ghost use Rattle.afdx_input_runs.specs.Arrivals.{DontGoBack};

    type Count = InputCount;

    ghost is_settled = { P.is_settled };

    ghost CanCome = { λ options ports says item. says item ⊎ P.Enters options ports item };

    ghost GoOn = { λ past. DontGoBack (arrivals_of past) };
}

impl<R: Read> RunInput<RecordingOptions, Heading> for Watched<Peeked<R>> {
    ghost use Rattle.afdx_input_runs.specs.Arrivals.{IsAskedForOne, IsNewOne, TakesOne};

    ghost IsNew = { IsNewOne };

    ghost Bytes = { List ℕ };

    ghost known = { λ input. left_in R.remaining (device_of input) };

    ghost IsAskedFew = { IsAskedForOne R.remaining };

    ghost Takes = { TakesOne R.remaining };

    fn starts() {}

    fn takes_none<F: LineForm<Heading>>() {}

    fn orders() {}

    fn tell_all<F: LineForm<Heading>, M: Machine<Heading>, O: Sink>(
        &mut self,
        alloc: Global,
        options: RecordingOptions,
        reading: Reading<'_, F>,
        machine: &mut M,
        output: &mut O,
    ) -> Result<InputCount, RunFault> {
        run_input(alloc, options, reading, machine, self, output)
    }
}

impl<R: Read> RunInput<PairOptions, Heading> for BySide<Watched<R>> {
    ghost use Rattle.afdx_input_runs.specs.Arrivals.{AreNewTwo, IsAskedForEach, TakesTwo};
    ghost use Rattle.afdx_input_runs.specs.Over.{bytes_of_both};

    ghost IsNew = { AreNewTwo };

    ghost Bytes = { List ℕ × List ℕ };

    ghost known = { bytes_of_both R.remaining };

    ghost IsAskedFew = { λ settled. IsAskedForEach R.remaining };

    ghost Takes = { λ listed. TakesTwo R.remaining };

    fn starts() {}

    fn takes_none<F: LineForm<Heading>>() {}

    fn orders() {}

    fn tell_all<F: LineForm<Heading>, M: Machine<Heading>, O: Sink>(
        &mut self,
        alloc: Global,
        options: PairOptions,
        reading: Reading<'_, F>,
        machine: &mut M,
        output: &mut O,
    ) -> Result<InputCount, RunFault> {
        let Reading { unsaid, .. } = reading;
        let tally = run_pair(alloc, options, unsaid, machine, self, output)?;
        Ok(InputCount::Recorded(tally))
    }
}
