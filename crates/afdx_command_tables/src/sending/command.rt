//! The command `send`.

ghost use Rattle.std.specs.Prelude.{◌≡◌, ◌≤◌, ◌+◌, ◌⊎◌, ◌↔◌, IsSome, false};
ghost use Rattle.afdx_input_lines.specs.Lines.{most_reads};
ghost use Rattle.afdx_input_lines.specs.Watching.{calls_of, device_of, has_ended, has_failed};
ghost use Rattle.afdx_command_tables.specs.Commands.{IsFourIfFailed, IsWholeIfDone};
ghost use Rattle.afdx_command_tables.specs.Senders.{IsNoSender};
ghost use Rattle.afdx_command_tables.specs.sending.Command.{EndsSending};
ghost use Rattle.afdx_command_tables.specs.declared.ending.Ended.{Ended as End};

use crate::sending::run::send_into;
use crate::{Ended, end, take_sender};
use afdx_input_lines::Watched;
use afdx_text::{AtOnce, Sink, Text};
use std::alloc::Global;
use std::io::{Read, Write};

/// Sends the messages of a list from the system of this name in a configuration, which describes
/// one switch on a side or several.
///
/// Its frames for both networks go to `output`, as a list that `replay` reads, with a remark for
/// each message that was refused; a fault's one line goes to `errors`. It also gives what the run
/// counted. The exit status is
/// 0 done, 1 a fault of the configuration or tables that are not admitted, 2 no system has the
/// name, 3 a fault of the list, 4 a device or memory. Of several causes the first is answered: a
/// fault of the configuration, the system's name, admission, the list.
pub fn send_and_count<R: Read, O: Sink, E: Write>(
    alloc: Global,
    config: &[u8],
    system: &str,
    input: &mut Watched<R>,
    output: &mut O,
    errors: &mut Watched<E>,
) -> Ended
    requires sound_input { has_failed input.old ≡ false }
    requires unended { has_ended input.old ≡ false }
    requires sound_output { O.failed output.old ≡ false }

    // 0 comes only where the list came to its end, 4 wherever a device failed; counts come with 0.
    ensures statuses { let status = result.status in
        (status ≡ 0) ⊎ (status ≡ 1) ⊎ (status ≡ 2) ⊎ (status ≡ 3) ⊎ (status ≡ 4) }
    ensures counts { IsSome result.summary ↔ (result.status ≡ 0) }
    ensures done { IsWholeIfDone result.status input.new (O.failed output.new) }
    ensures device { IsFourIfFailed result.status input.new (O.failed output.new) }
    ensures calls { calls_of input.new ≤ calls_of input.old + most_reads }
    ensures settings { O.settings output.new ≡ O.settings output.old }

    // The command ends as a run over the list answered, or nothing is read and nothing is written.
    ensures sends { EndsSending R.remaining E.contents config.now system.now input.old input.new
        errors.old errors.new (O.failed output.new) (O.written output.old) (O.written output.new)
        result
        ⊎ (IsNoSender E.contents errors.old errors.new config.now system.now result.status
        × (input.new ≡ input.old) × (output.new ≡ output.old)) }
{
    let taken = match take_sender(alloc, config, system, errors) {
        Ok(taken) => taken,
        Err(status) => return Ended::without_counts(status),
    };
    let (switch, place) = (taken.switch.as_str(), taken.system);
    let answer = send_into(alloc, switch, &taken.admitted, place, input, output);
    end(answer, errors)
}

/// Sends the messages of a list from the system of this name, as `send_and_count` does, and gives
/// the exit status alone.
pub fn send<R: Read, O: Write, E: Write>(
    alloc: Global,
    config: &[u8],
    system: &str,
    input: &mut Watched<R>,
    output: &mut Watched<O>,
    errors: &mut Watched<E>,
) -> u8
    requires sound_input { has_failed input.old ≡ false }
    requires unended { has_ended input.old ≡ false }
    requires sound_output { has_failed output.old ≡ false }
    ensures statuses { (result ≡ 0) ⊎ (result ≡ 1) ⊎ (result ≡ 2) ⊎ (result ≡ 3) ⊎ (result ≡ 4) }
    ensures done { IsWholeIfDone result input.new (has_failed output.new) }
    ensures device { IsFourIfFailed result input.new (has_failed output.new) }
    ensures calls { calls_of input.new ≤ calls_of input.old + most_reads }
    ensures sends { (ended : End) × (ended.status ≡ result)
        × (EndsSending R.remaining E.contents config.now system.now input.old input.new
        errors.old errors.new (has_failed output.new) (O.contents (device_of output.old))
        (O.contents (device_of output.new)) ended
        ⊎ (IsNoSender E.contents errors.old errors.new config.now system.now ended.status
        × (input.new ≡ input.old) × (output.new ≡ output.old))) }
{
    let mut text = Text::new(alloc);
    let mut output = AtOnce::new(output, &mut text);
    send_and_count(alloc, config, system, input, &mut output, errors).status
}
