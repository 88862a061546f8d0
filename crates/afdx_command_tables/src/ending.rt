//! How a command ends that ran over a list.

ghost use Rattle.std.specs.Prelude.{◌≡◌, ◌==◌, ◌&&◌, ◌⊎◌, ◌↔◌, if◌then◌else◌, [], IsSome, OnOk, IfErr, false, true};
ghost use Rattle.std.specs.Result.{result_ok};
ghost use Rattle.std.specs.Io.KnownBytes.{Keeps};
ghost use Rattle.afdx_text.specs.Outputs.{written, held_bytes, device_has_failed};
ghost use Rattle.afdx_text.specs.Telling.{TellsFault};
ghost use Rattle.afdx_command_tables.specs.Commands.{status_of_answer};

use crate::status::DONE;
use crate::summary::Summary;
use afdx_input_lines::{RunFault, Watched};
use afdx_text::{Output, tell_fault};
use std::io::Write;

/// How a command over a list ended: its exit status and, where that is 0, what the run counted.
#[derive(Clone, Copy, Debug, PartialEq, Eq)]
pub struct Ended {
    pub status: u8,
    pub summary: Option<Summary>,
}

impl Ended {
    /// A command that has nothing to count: it ended with a fault.
    pub fn without_counts(status: u8) -> Ended
        ensures status { result.status ≡ status }
        ensures summary { result.summary ≡ None }
    {
        Ended {
            status,
            summary: None,
        }
    }
}

/// Tells `errors` the fault of a run in one line, if it has one.
pub fn end<E: Write>(answer: Result<Summary, RunFault>, errors: &mut Watched<E>) -> Ended
    ensures status { result.status ≡ status_of_answer answer }
    ensures summary { result.summary ≡ result_ok answer }
    ensures counts { IsSome result.summary ↔ (result.status ≡ 0) }
    ensures told { IfErr answer (TellsFault E.contents errors.old errors.new) }
    ensures silent { OnOk answer (errors.new ≡ errors.old) }
{
    match answer {
        Ok(summary) => Ended {
            status: DONE,
            summary: Some(summary),
        },
        Err(fault) => {
            tell_fault(errors, &fault);
            Ended::without_counts(fault.status())
        }
    }
}

/// Hands over what an output still holds once its command has ended, whatever its status, and gives
/// the exit status. That is the command's, but 4 where the command's is 0 and the device failed,
/// which is told as `device Write`. An output that failed before is not asked.
pub fn finish<O: Write + Drop, E: Write>(
    status: u8,
    output: &mut Output<O>,
    errors: &mut Watched<E>,
) -> u8
    ensures handed { device_has_failed output.new ≡ false → held_bytes output.new ≡ [] }
    ensures exact { device_has_failed output.old ≡ false → result ≡
        (if status == 0 && device_has_failed output.new then 4 else status) }
    ensures unasked { device_has_failed output.old ≡ true →
        (result ≡ status) × (output.new ≡ output.old) × (errors.new ≡ errors.old) }
    ensures kept { Keeps (written O.contents output.old) (written O.contents output.new) }
    ensures status { ((result ≡ status) × (errors.new ≡ errors.old))
        ⊎ ((status ≡ 0) × (result ≡ 4)
        × TellsFault E.contents errors.old errors.new RunFault.Write) }
{
    if output.failed() {
        return status;
    }
    let flushed = output.flush();
    if flushed.is_ok() || status != DONE {
        return status;
    }
    let fault = RunFault::Write;
    tell_fault(errors, &fault);
    fault.status()
}
