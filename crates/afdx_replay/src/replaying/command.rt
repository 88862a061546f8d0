//! The command `replay`.

ghost use Rattle.std.specs.Prelude.{◌≡◌, ◌≤◌, ◌+◌, ◌⊎◌, IfSome, OnOk, true, false};
ghost use Rattle.afdx_input_lines.specs.Lines.{most_reads};
ghost use Rattle.afdx_input_lines.specs.Watching.{calls_of, device_of, has_ended, has_failed};
ghost use Rattle.afdx_command_tables.specs.Commands.{IsFourIfFailed, IsInputStatus, IsWholeIfDone};
ghost use Rattle.afdx_command_tables.specs.Taking.{described_of, IsNotTaken};
ghost use Rattle.afdx_input_lines.specs.Calls.{is_failed_read, is_failed_write};
ghost use Rattle.afdx_replay.specs.replaying.Command.{EndsReplaying, FileAnswers};
ghost use Rattle.afdx_command_tables.specs.declared.ending.Ended.{Ended as End};

use crate::cascading::unadmitted::run_cascade_unadmitted;
use crate::replaying::run::run_unadmitted;
use afdx_command_tables::{Summary, Taken, end, take_file};
use afdx_input_lines::{RunFault, Watched};
use std::alloc::Global;
use std::io::{Read, Write};

/// Replays a list of frames by what was taken of a configuration.
fn run_taken<R: Read, W: Write>(
    alloc: Global,
    taken: &Taken,
    input: &mut Watched<R>,
    output: &mut Watched<W>,
) -> Result<Summary, RunFault>
    requires sound_input { has_failed input.old ≡ false }
    requires unended { has_ended input.old ≡ false }
    requires sound_output { has_failed output.old ≡ false }
    ensures ended { OnOk result (has_ended input.new ≡ true) }
    ensures read { has_failed input.new ≡ is_failed_read result }
    ensures write { has_failed output.new ≡ is_failed_write result }
    ensures calls { calls_of input.new ≤ calls_of input.old + most_reads }
    ensures answer { IfSome (R.remaining (device_of input.old)) (λ bytes.
        FileAnswers (described_of taken.now) bytes (R.remaining (device_of input.new))
        (W.contents (device_of output.old)) (W.contents (device_of output.new)) result) }
{
    match taken {
        Taken::OneAdmitted(admitted) => run_unadmitted(alloc, admitted.tables(), input, output),
        Taken::OneUnasked(tables) => run_unadmitted(alloc, tables, input, output),
        Taken::SeveralAdmitted(admitted) => {
            run_cascade_unadmitted(alloc, admitted.switches(), input, output)
        }
        Taken::SeveralUnasked(switches) => {
            run_cascade_unadmitted(alloc, switches, input, output)
        }
    }
}

/// Replays a list of frames by a configuration, which describes one switch on a side or several:
/// the lines of all events go to `output`, a fault's one line to `errors`.
///
/// With `admission` what it describes has to be admitted. The exit status is 0 done, 1 a fault of
/// the configuration or tables that are not admitted, 3 a fault of the list, 4 a device or memory.
pub fn replay<R: Read, O: Write, E: Write>(
    alloc: Global,
    admission: bool,
    config: &[u8],
    input: &mut Watched<R>,
    output: &mut Watched<O>,
    errors: &mut Watched<E>,
) -> u8
    requires sound_input { has_failed input.old ≡ false }
    requires unended { has_ended input.old ≡ false }
    requires sound_output { has_failed output.old ≡ false }
    ensures statuses { IsInputStatus result }
    ensures done { IsWholeIfDone result input.new (has_failed output.new) }
    ensures device { IsFourIfFailed result input.new (has_failed output.new) }
    ensures calls { calls_of input.new ≤ calls_of input.old + most_reads }
    // The command ends as a run over the list answered, or nothing is read and nothing is written.
    ensures replays { (ended : End) × (ended.status ≡ result)
        × (EndsReplaying R.remaining E.contents config.now admission input.old input.new
        errors.old errors.new (has_failed output.new) (O.contents (device_of output.old))
        (O.contents (device_of output.new)) ended
        ⊎ (IsNotTaken E.contents config.now admission errors.old errors.new ended.status
        × (input.new ≡ input.old) × (output.new ≡ output.old))) }
{
    let taken = match take_file(alloc, admission, config, errors) {
        Ok(taken) => taken,
        Err(status) => return status,
    };
    let answer = run_taken(alloc, &taken, input, output);
    end(answer, errors).status
}
