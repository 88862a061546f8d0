//! What gives a run the numbers of recordings, as their lines: one recording, or two that are read
//! at once.

ghost use Rattle.std.specs.Prelude.{ℕ, List, true};
ghost use Rattle.afdx_input_lines.specs.Watching.{device_of};

use crate::inputs::{RunHead, RunInput};
use crate::over::run_over;
use crate::read_pair::{read_one, read_pair};
use crate::reading::Reading;
use afdx_frame::BySide;
use afdx_input_lines::{Heading, RunFault, Watched};
use afdx_input_sources::{
    LineForm, Machine, NumberLine, PairOptions, RecordingOptions, SystemPorts, Tally,
};
use afdx_text::Sink;
use std::alloc::Global;
use std::io::Read;

impl<P> RunHead<P> for NumberLine {
    ghost use Rattle.afdx_input_runs.specs.Numbers.{ArrivalsGoOn};

    type Count = Tally;

    ghost is_settled = { λ options. true };

    ghost CanCome = { λ options ports says item. Unit {0} };

    ghost GoOn = { ArrivalsGoOn };
}

impl<R: Read> RunInput<RecordingOptions, NumberLine> for Watched<R> {
    ghost use Rattle.afdx_input_runs.specs.Arrivals.{IsSound};
    ghost use Rattle.afdx_input_runs.specs.Numbers.{TakesNumbers};
    ghost use Rattle.afdx_input_runs.specs.RecordingRun.{IsAskedOnceFor};

    ghost IsNew = { IsSound };

    ghost Bytes = { List ℕ };

    ghost known = { λ input. R.remaining (device_of input) };

    ghost IsAskedFew = { λ settled. IsAskedOnceFor R.remaining };

    ghost Takes = { λ listed. TakesNumbers R.remaining };

    fn starts() {}

    fn takes_none<F: LineForm<Heading>>() {}

    fn orders() {}

    fn tell_all<F: LineForm<Heading>, M: Machine<NumberLine>, O: Sink>(
        &mut self,
        alloc: Global,
        options: RecordingOptions,
        reading: Reading<'_, F>,
        machine: &mut M,
        output: &mut O,
    ) -> Result<Tally, RunFault> {
        let Reading { unsaid, .. } = reading;
        let ports = SystemPorts::unsaid(alloc, unsaid)?;
        let mut lines = read_one(alloc, options, ports)?;
        run_over(&mut lines, machine, self, output)
    }
}

impl<R: Read> RunInput<PairOptions, NumberLine> for BySide<Watched<R>> {
    ghost use Rattle.afdx_input_runs.specs.Arrivals.{AreNewTwo, IsAskedForEach};
    ghost use Rattle.afdx_input_runs.specs.Numbers.{TakesNumbersOfTwo};
    ghost use Rattle.afdx_input_runs.specs.Over.{bytes_of_both};

    ghost IsNew = { AreNewTwo };

    ghost Bytes = { List ℕ × List ℕ };

    ghost known = { bytes_of_both R.remaining };

    ghost IsAskedFew = { λ settled. IsAskedForEach R.remaining };

    ghost Takes = { λ listed. TakesNumbersOfTwo R.remaining };

    fn starts() {}

    fn takes_none<F: LineForm<Heading>>() {}

    fn orders() {}

    fn tell_all<F: LineForm<Heading>, M: Machine<NumberLine>, O: Sink>(
        &mut self,
        alloc: Global,
        options: PairOptions,
        reading: Reading<'_, F>,
        machine: &mut M,
        output: &mut O,
    ) -> Result<Tally, RunFault> {
        let Reading { unsaid, .. } = reading;
        let mut lines = read_pair(alloc, options, unsaid)?;
        run_over(&mut lines, machine, self, output)
    }
}
