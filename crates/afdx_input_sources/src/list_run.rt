//! A run over a list: its lines are read one by one, and a machine tells what they say.

ghost use Rattle.std.specs.Prelude.{◌≡◌, ◌+◌, ◌≤◌, IfSome, OnOk, true, false};
ghost use Rattle.afdx_input_lines.specs.Calls.{is_failed_read, is_failed_write};
ghost use Rattle.afdx_input_lines.specs.Lines.{most_reads};
ghost use Rattle.afdx_input_lines.specs.Watching.{calls_of, device_of, has_ended, has_failed};
ghost use Rattle.afdx_input_sources.specs.Engine.{HoldsOfTold, IsReadyFor};
ghost use Rattle.afdx_input_sources.specs.Items.{thing_of};
ghost use Rattle.afdx_input_sources.specs.ListRun.{ListAnswers};

use crate::engine::{Machine, drive};
use crate::line_form::{LineForm, Listed};
use crate::read_list::ReadList;
use afdx_input_lines::{RunFault, Watched};
use afdx_text::Sink;
use std::alloc::Global;
use std::io::Read;

/// Lets a machine tell what the lines of a list say, by their form, and gives the number of lines.
/// It can tell each item that lines of this form say.
///
/// The whole text of a line is handed to `output` before the next line is read. A list that can't
/// be read ends the run with its first fault; the text of the lines before it stands written.
/// `RunFault::Read` and `RunFault::Write` come exactly where the input's or the output's device
/// failed; neither is tried again.
pub fn run_list<F: LineForm<H>, H: Listed, R: Read, M: Machine<H>, O: Sink>(
    alloc: Global,
    form: F,
    machine: &mut M,
    input: &mut Watched<R>,
    output: &mut O,
) -> Result<u64, RunFault>
    requires sound_input { has_failed input.old ≡ false }
    requires unended { has_ended input.old ≡ false }
    requires sound_output { O.failed output.old ≡ false }
    requires form { F.IsForm form }
    requires told { IsReadyFor M.Can M.Told machine.old (O.written output.old)
        (F.Gives form) }
    ensures ended { OnOk result (has_ended input.new ≡ true) }
    ensures read { has_failed input.new ≡ is_failed_read result }
    ensures write { O.failed output.new ≡ is_failed_write result }
    ensures calls { calls_of input.new ≤ calls_of input.old + most_reads }
    ensures output { O.settings output.new ≡ O.settings output.old }

    // Where the input's bytes are known: what is answered and written for the list that they are.
    ensures answer { HoldsOfTold M.Can M.Done M.Told M.Begins machine.old machine.new
        (O.written output.old) (O.written output.new) (F.Gives form) (λ done told begins.
        IfSome (R.remaining (device_of input.old)) (λ bytes.
        ListAnswers (F.kind form) (thing_of (F.kind form) F.says_of) done told begins
        bytes (R.remaining (device_of input.new)) result)) }
{
    let mut list: ReadList<F, H> = ReadList::new(alloc, form)?;
    drive(&mut list, input, machine, output)?;
    Ok(list.lines())
}
