//! What gives a run the frames that came in at switches and those that left them: two lists, one
//! recording of both, or two recordings that are read at once.

ghost use Rattle.std.specs.Prelude.{◌≡◌, ℕ, List, true};
ghost use Rattle.afdx_input_lines.specs.Watching.{device_of};
ghost use Rattle.afdx_input_runs.specs.Joining.{frames_of};
ghost use Rattle.afdx_input_runs.specs.SeenFrames as spec;
ghost use Rattle.afdx_input_runs.specs.SeenFrames.{absent_of, lost_of};

use crate::inputs::{RunHead, RunInput};
use crate::reading::Reading;
use crate::seen::Seen;
use crate::seen_run::{run_seen, run_seen_by_role};
use crate::tapping::AsLists;
use crate::two_lists_run::run_two_lists;
use afdx_input_lines::{ByRole, Heading, RecordingFault, Role, RunFault, Watched};
use afdx_input_sources::{LineForm, Machine, RecordingOptions, Tally};
use afdx_text::Sink;
use std::alloc::Global;
use std::io::Read;

/// What a run read of what came in and what left.
#[derive(Clone, Copy, Debug)]
pub enum SeenCount {
    /// So many lines of two lists.
    Lists(ByRole<u64>),
    /// One recording of both.
    Recorded(Tally),
    /// Two recordings.
    Both(ByRole<Tally>),
}

impl SeenCount {
    /// How many frames the recorders lost, by their own word, 2^64 - 1 if it is more. Of lists 0.
    #[tactic(auto, unfolding(crate::specs::SeenFrames::lost_of))]
    pub fn lost(&self) -> u64
        ensures { result ≡ lost_of self.now }
    {
        match self {
            SeenCount::Lists(_) => 0,
            SeenCount::Recorded(tally) => tally.lost,
            SeenCount::Both(tallies) => tallies.came.lost.saturating_add(tallies.left.lost),
        }
    }

    /// The fault of the least interface that options name and that a recording never described; of
    /// two recordings that of what came in before that of what left. Of lists None.
    #[tactic(auto, unfolding(crate::specs::SeenFrames::absent_of))]
    pub fn absent(&self) -> Option<RunFault>
        ensures { result ≡ absent_of self.now }
    {
        match self {
            SeenCount::Lists(_) => None,
            SeenCount::Recorded(tally) => match tally.absent {
                Some(interface) => {
                    let fault = RecordingFault::Absent(interface);
                    Some(RunFault::Recording(fault))
                }
                None => None,
            },
            SeenCount::Both(tallies) => match absent_in(Role::Came, &tallies.came) {
                Some(fault) => Some(fault),
                None => absent_in(Role::Left, &tallies.left),
            },
        }
    }
}

/// The fault of the recording of this role, if it never described an interface of its options.
fn absent_in(role: Role, tally: &Tally) -> Option<RunFault>
    ensures { result ≡ spec.absent_in role tally.now }
{
    match tally.absent {
        Some(interface) => Some(RunFault::of_role(role, RecordingFault::Absent(interface))),
        None => None,
    }
}

impl<P> RunHead<P> for Seen {
    ghost use Rattle.afdx_input_runs.specs.SeenFrames.{GoOn as GoOnSeen};

    type Count = SeenCount;

    ghost is_settled = { λ options. true };

    ghost CanCome = { λ options ports says item. Unit {0} };

    ghost GoOn = { λ past. GoOnSeen (frames_of past) };
}

impl<R: Read> RunInput<AsLists, Seen> for ByRole<Watched<R>> {
    ghost use Rattle.afdx_input_runs.specs.Over.{bytes_by_role};
    ghost use Rattle.afdx_input_runs.specs.SeenFrames.{AreNewByRole, IsAskedForLines, TakesLists};

    ghost IsNew = { AreNewByRole };

    ghost Bytes = { List ℕ × List ℕ };

    ghost known = { bytes_by_role R.remaining };

    ghost IsAskedFew = { λ settled. IsAskedForLines R.remaining };

    ghost Takes = { λ listed options ports bytes rest past.
        TakesLists R.remaining bytes rest (frames_of past) };

    fn starts() {}

    fn takes_none<F: LineForm<Heading>>() {}

    fn orders() {}

    fn tell_all<F: LineForm<Heading>, M: Machine<Seen>, O: Sink>(
        &mut self,
        alloc: Global,
        _options: AsLists,
        _reading: Reading<'_, F>,
        machine: &mut M,
        output: &mut O,
    ) -> Result<SeenCount, RunFault> {
        let lines = run_two_lists(alloc, machine, self, output)?;
        Ok(SeenCount::Lists(lines))
    }
}

impl<R: Read> RunInput<RecordingOptions, Seen> for Watched<R> {
    ghost use Rattle.afdx_input_runs.specs.Arrivals.{IsSound};
    ghost use Rattle.afdx_input_runs.specs.RecordingRun.{IsAskedOnceFor};
    ghost use Rattle.afdx_input_runs.specs.SeenFrames.{TakesRecording};

    ghost IsNew = { IsSound };

    ghost Bytes = { List ℕ };

    ghost known = { λ input. R.remaining (device_of input) };

    ghost IsAskedFew = { λ settled. IsAskedOnceFor R.remaining };

    ghost Takes = { λ listed options ports bytes rest past.
        TakesRecording R.remaining options ports bytes rest (frames_of past) };

    fn starts() {}

    fn takes_none<F: LineForm<Heading>>() {}

    fn orders() {}

    fn tell_all<F: LineForm<Heading>, M: Machine<Seen>, O: Sink>(
        &mut self,
        alloc: Global,
        options: RecordingOptions,
        reading: Reading<'_, F>,
        machine: &mut M,
        output: &mut O,
    ) -> Result<SeenCount, RunFault> {
        let Reading { unsaid, .. } = reading;
        let tally = run_seen(alloc, options, unsaid, machine, self, output)?;
        Ok(SeenCount::Recorded(tally))
    }
}

impl<R: Read> RunInput<ByRole<RecordingOptions>, Seen> for ByRole<Watched<R>> {
    ghost use Rattle.afdx_input_runs.specs.Over.{bytes_by_role};
    ghost use Rattle.afdx_input_runs.specs.SeenFrames.{AreNewByRole, IsAskedForRoles, TakesRecordings};

    ghost IsNew = { AreNewByRole };

    ghost Bytes = { List ℕ × List ℕ };

    ghost known = { bytes_by_role R.remaining };

    ghost IsAskedFew = { λ settled. IsAskedForRoles R.remaining };

    ghost Takes = { λ listed options ports bytes rest past.
        TakesRecordings R.remaining options ports bytes rest (frames_of past) };

    fn starts() {}

    fn takes_none<F: LineForm<Heading>>() {}

    fn orders() {}

    fn tell_all<F: LineForm<Heading>, M: Machine<Seen>, O: Sink>(
        &mut self,
        alloc: Global,
        options: ByRole<RecordingOptions>,
        reading: Reading<'_, F>,
        machine: &mut M,
        output: &mut O,
    ) -> Result<SeenCount, RunFault> {
        let Reading { unsaid, .. } = reading;
        let tallies = run_seen_by_role(alloc, options, unsaid, machine, self, output)?;
        Ok(SeenCount::Both(tallies))
    }
}
