//! A run of several switches on each side that were admitted: each keeps the promises.

ghost use Rattle.std.specs.Prelude.{◌≡◌, ◌+◌, ◌≤◌, OnOk, IfSome, true, false};
ghost use Rattle.afdx_admit.specs.Cascade.{IsCascadeAdmitted};
ghost use Rattle.afdx_config.specs.Switches.{AreSwitches};
ghost use Rattle.afdx_input_lines.specs.Calls.{is_failed_read, is_failed_write};
ghost use Rattle.afdx_input_lines.specs.Lines.{most_reads};
ghost use Rattle.afdx_input_lines.specs.Watching.{calls_of, device_of, has_ended, has_failed};
ghost use Rattle.afdx_replay.specs.cascading.Ran.{Answers};

use crate::cascading::unadmitted::run_cascade_unadmitted;
use afdx_admit::AdmittedSwitches;
use afdx_command_tables::Summary;
use afdx_input_lines::{RunFault, Watched};
use std::alloc::Global;
use std::io::{Read, Write};

/// Replays a list of frames through several switches on each side and the systems behind them, all
/// of which were admitted together.
///
/// It answers and writes what `run_cascade_unadmitted` does. As the switches are admitted (clause
/// `admitted`), what the clause `answer` says of each switch (`promised`) holds: its lines keep the
/// promises of a run of its own tables on what came to it. No frame is lost there or too old, each
/// accepted one leaves each of its ports within the link's latency of that switch, and what its
/// systems get is the integrity and redundancy rules' answer on what came to them.
///
/// And from end to end (`end_to_end`): a switch accepts each frame that a cable brings
/// (`accepted`). From each port to which a link goes leave exactly the frames that the first switch
/// of its way accepted, byte for byte, in order, each within the sum of the latencies on the way
/// (`ends`), and of no link others (`others`). If at the first switch the link's own frames are the
/// same but for their numbers, the verdicts on them (`verdicts`), and what leaves on its way
/// (`same`), are the same, whatever else comes. If a lawful stream of the link comes there on both
/// sides, or on one side with the first of it on the other, each system to which the link goes, at
/// whichever switch, gets the messages to its UDP ports, each once and in order (`once`,
/// `one_side`); if on each side the first of it comes, as far as one side has come (`once_so_far`).
/// After a fault what stands written is the first of that (`first`).
/// The errors are those of `run_cascade_unadmitted`.
pub fn run_cascade<R: Read, W: Write>(
    alloc: Global,
    admitted: &AdmittedSwitches,
    input: &mut Watched<R>,
    output: &mut Watched<W>,
) -> Result<Summary, RunFault>
    requires sound_input { has_failed input.old ≡ false }
    requires unended { has_ended input.old ≡ false }
    requires sound_output { has_failed output.old ≡ false }
    ensures ended { OnOk result (has_ended input.new ≡ true) }
    ensures read { has_failed input.new ≡ is_failed_read result }
    ensures write { has_failed output.new ≡ is_failed_write result }
    ensures calls { calls_of input.new ≤ calls_of input.old + most_reads }
    ensures lawful { AreSwitches admitted.now }
    ensures admitted { IsCascadeAdmitted admitted.now }

    // Where the input's bytes are known: what is answered and written for the list that they are.
    ensures answer { IfSome (R.remaining (device_of input.old)) (λ bytes.
        Answers admitted.now bytes (R.remaining (device_of input.new))
        (W.contents (device_of output.old)) (W.contents (device_of output.new)) result) }
{
    run_cascade_unadmitted(alloc, admitted.switches(), input, output)
}
