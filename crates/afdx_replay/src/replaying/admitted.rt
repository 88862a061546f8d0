//! A run of an admitted network: a replay that keeps the promises.

ghost use Rattle.std.specs.Prelude.{◌≡◌, ◌+◌, ◌≤◌, OnOk, IfSome, true, false};
ghost use Rattle.afdx_input_lines.specs.Lines.{most_reads};
ghost use Rattle.afdx_input_lines.specs.Calls.{is_failed_read, is_failed_write};
ghost use Rattle.afdx_input_lines.specs.Watching.{calls_of, device_of, has_ended, has_failed};
ghost use Rattle.afdx_replay.specs.replaying.Replayed.{Answers};
ghost use Rattle.afdx_replay.specs.replaying.PromisedRun.{PromisedAnswers};

use crate::replaying::run::run_unadmitted;
use afdx_admit::Admitted;
use afdx_command_tables::Summary;
use afdx_input_lines::{RunFault, Watched};
use std::alloc::Global;
use std::io::{Read, Write};

/// Replays a list of frames through the switches of both sides and the systems behind them, of
/// tables that were admitted.
///
/// Each virtual link's verdicts, and its frames that leave each switch port, in order, are the
/// window rule's answer on that link's own arrivals alone; every accepted frame leaves each of its
/// ports within the link's configured latency; and what a receiver delivers on a link is the
/// integrity and redundancy rules' answer on that link's arrivals there alone. The clause
/// `promised` says so of the text that is written (`KeepsPromises`): it is that of V, D, M and X
/// lines, so no line tells of a loss, or of a frame that is too old. Where a link's lawful stream
/// comes at its sender's port on a side, each verdict on it is accept, whatever else comes. Of one
/// that comes on both sides each receiver's M lines are exactly the messages to its UDP ports, each
/// once and in order.
///
/// After a fault of the list, or a failed read, all is told of the lines before it, and what has
/// left a port is a beginning of the promised frames; after a failed write, or want of memory, a
/// beginning of the promised text of lines that were read stands written. The errors are those of
/// `run_unadmitted`.
pub fn run<R: Read, W: Write>(
    alloc: Global,
    admitted: &Admitted,
    input: &mut Watched<R>,
    output: &mut Watched<W>,
) -> Result<Summary, RunFault>
    requires sound_input { has_failed input.old ≡ false }
    requires unended { has_ended input.old ≡ false }
    requires sound_output { has_failed output.old ≡ false }
    ensures ended { OnOk result (has_ended input.new ≡ true) }
    ensures read { has_failed input.new ≡ is_failed_read result }
    ensures write { has_failed output.new ≡ is_failed_write result }
    ensures calls { calls_of input.new ≤ calls_of input.old + most_reads }

    // Where the input's bytes are known: what is answered and written for the list that they are.
    ensures answer { IfSome (R.remaining (device_of input.old)) (λ bytes.
        Answers admitted.now bytes (R.remaining (device_of input.new))
        (W.contents (device_of output.old)) (W.contents (device_of output.new)) result) }

    // And what is written is the text of lines that keep the promises.
    ensures promised { IfSome (R.remaining (device_of input.old)) (λ bytes.
        PromisedAnswers admitted.now bytes (R.remaining (device_of input.new))
        (W.contents (device_of output.old)) (W.contents (device_of output.new)) result) }
{
    run_unadmitted(alloc, admitted.tables(), input, output)
}
