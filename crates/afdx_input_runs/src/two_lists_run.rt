//! A run over two lists: a machine tells their frames, one by one.

ghost use Rattle.std.specs.Prelude.{◌≡◌, ◌≤◌, ◌+◌, ◌||◌, OnOk, true, false};
ghost use Rattle.afdx_input_lines.specs.Calls.{is_failed_read, is_failed_write};
ghost use Rattle.afdx_input_lines.specs.Lines.{most_reads};
ghost use Rattle.afdx_input_lines.specs.Watching.{calls_of, device_of, has_ended, has_failed};
ghost use Rattle.afdx_input_sources.specs.Engine.{HoldsOfAllTold, IsReadyForAll};
ghost use Rattle.afdx_input_runs.specs.TwoListsRun.{IfBothGiven, TwoListsAnswer};

use crate::seen::Seen;
use crate::two_lists::TwoLists;
use afdx_input_lines::{ByRole, Heading, RunFault, Watched};
use afdx_input_sources::{FrameLines, Machine, ReadList, drive};
use afdx_text::Sink;
use std::alloc::Global;
use std::io::Read;

/// Lets a machine tell the frames of two lists that are read at once, of what came in at switches
/// and of what left them, and gives the number of lines of each.
///
/// The first line of what came in is read, then that of what left. Then the frame of lesser time is
/// told, at one time the one that came in, and the next line of its list is read. The whole text of
/// a frame is handed to `output` before the next line is read. The first fault that is read ends
/// the run; the text of the frames that were told before it stands written. A fault of a list is
/// `RunFault::Of` that list. `RunFault::Read` and `RunFault::Write` come exactly where the device
/// of an input, or the output's, failed; none is tried again.
pub fn run_two_lists<R: Read, M: Machine<Seen>, O: Sink>(
    alloc: Global,
    machine: &mut M,
    inputs: &mut ByRole<Watched<R>>,
    output: &mut O,
) -> Result<ByRole<u64>, RunFault>
    requires sound_came { has_failed inputs.old.came ≡ false }
    requires sound_left { has_failed inputs.old.left ≡ false }
    requires unended_came { has_ended inputs.old.came ≡ false }
    requires unended_left { has_ended inputs.old.left ≡ false }
    requires sound_output { O.failed output.old ≡ false }
    requires told { IsReadyForAll M.Can M.Told machine.old (O.written output.old) }
    ensures ended { OnOk result
        ((has_ended inputs.new.came ≡ true) × (has_ended inputs.new.left ≡ true)) }
    ensures read { (has_failed inputs.new.came || has_failed inputs.new.left)
        ≡ is_failed_read result }
    ensures write { O.failed output.new ≡ is_failed_write result }
    ensures calls_came { calls_of inputs.new.came ≤ calls_of inputs.old.came + most_reads }
    ensures calls_left { calls_of inputs.new.left ≤ calls_of inputs.old.left + most_reads }
    ensures output { O.settings output.new ≡ O.settings output.old }

    // Where the bytes of both are known: what is answered and written for the lists that they are.
    ensures answer { HoldsOfAllTold M.Can M.Done M.Told M.Begins machine.old machine.new
        (O.written output.old) (O.written output.new) (λ done told begins.
        IfBothGiven R.remaining inputs.old (λ came left.
        TwoListsAnswer R.remaining came left inputs.new done told begins result)) }
{
    let came: ReadList<FrameLines, Heading> = ReadList::new(alloc, FrameLines)?;
    let left: ReadList<FrameLines, Heading> = ReadList::new(alloc, FrameLines)?;
    let mut lists = TwoLists::new(came, left);
    drive(&mut lists, inputs, machine, output)?;
    Ok(ByRole {
        came: lists.both.first.source.lines(),
        left: lists.both.second.source.lines(),
    })
}
