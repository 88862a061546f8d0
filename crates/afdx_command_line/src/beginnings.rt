//! How two inputs begin that no option says are recordings.

ghost use Rattle.std.specs.Prelude.{OnOk};
ghost use Rattle.afdx_input_lines.specs.Peeking.{is_untouched};
ghost use Rattle.afdx_input_lines.specs.Watching.{device_of};
ghost use Rattle.afdx_input_runs.specs.Arrivals.{IsSound};
ghost use Rattle.afdx_input_runs.specs.SeenFrames.{AreNewByRole};

use afdx_input_files::{is_packed_file, is_recording};
use afdx_input_lines::{ByRole, Peeked, RecordingFault, Role, RunFault, Watched};
use std::io::Read;

/// Why an input is not read as a list.
pub enum NoList {
    /// It is a recording, and that of this role needs an option.
    Recording(Role),
    /// It is packed, or could not be read.
    Fault(RunFault),
}

/// Looks at the first four bytes of the input of this role.
fn look<R: Read>(role: Role, input: &mut Watched<Peeked<R>>) -> Result<(), NoList>
    requires untouched { is_untouched (device_of input.old) }
    requires sound { IsSound input.old }
    ensures { OnOk result (IsSound input.new) }
{
    if input.look() {
        return Err(NoList::Fault(RunFault::Read));
    }
    let first = input.seen();
    if is_packed_file(first) {
        let fault = RunFault::of_role(role, RecordingFault::Packed);
        return Err(NoList::Fault(fault));
    }
    if is_recording(first) {
        return Err(NoList::Recording(role));
    }
    Ok(())
}

/// Looks at the first four bytes of each, of what came in before those of what left. They are read
/// again, with all behind them.
pub fn look_at_both<R: Read>(inputs: &mut ByRole<Watched<Peeked<R>>>) -> Result<(), NoList>
    requires came { is_untouched (device_of inputs.old.came) }
    requires left { is_untouched (device_of inputs.old.left) }
    requires sound { AreNewByRole inputs.old }
    ensures { OnOk result (AreNewByRole inputs.new) }
{
    look(Role::Came, &mut inputs.came)?;
    look(Role::Left, &mut inputs.left)
}
