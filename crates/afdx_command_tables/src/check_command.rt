//! The command `check`.

ghost use Rattle.std.specs.Prelude.{◌≡◌, ◌⊎◌, IfOk, false, true};
ghost use Rattle.afdx_input_lines.specs.Watching.{has_failed};
ghost use Rattle.afdx_text.specs.Texts.{text_bytes};
ghost use Rattle.afdx_command_tables.specs.Checking.{file_text, file_text_of, IsAdmittedFile, Checks};
ghost use Rattle.afdx_command_tables.specs.Checking.{IsChecked, IsDenied, IsFaulty, IsCut, IsUnchecked};

use crate::check_cascade::checked_cascade;
use crate::check_tables::{CheckAnswer, CheckOptions, checked_text};
use crate::refusing::{refuse_file, want_memory};
use crate::status::{DONE, REFUSED};
use afdx_config::{Described, read_file};
use afdx_input_lines::Watched;
use afdx_text::{Text, tell_fault, write_text};
use std::alloc::{AllocError, Global};
use std::io::Write;

/// What is to be said of what a file describes, and what is answered of it.
fn checked_file(
    alloc: Global,
    options: CheckOptions,
    described: Described,
) -> Result<(Text, CheckAnswer), AllocError>
    ensures text { IfOk result (λ checked.
        text_bytes checked.0 ≡ file_text_of options described) }
    ensures admitted { IfOk result (λ checked. checked.1 ≡ CheckAnswer.Admitted →
        IsAdmittedFile described) }
    ensures denied { IfOk result (λ checked. checked.1 ≡ CheckAnswer.Denied →
        IsAdmittedFile described → ⊥) }
{
    match described {
        Described::One(tables) => checked_text(alloc, options, tables),
        Described::Several(switches) => checked_cascade(alloc, options, switches),
    }
}

/// Reads a configuration and writes the bounds of each output port, `P port high low buffer`, and
/// then `ok`, or `no` and the first line of admission that is false. With `all` comes each that is,
/// in their order. With `margins` a line `m port vl bound latency` comes behind a port's bounds for
/// each link that goes there, in the order of the file: the bound of its class, `-` if there is
/// none, and its latency, in ns; and behind `ok` a line `apart vl ns` for each link, in that order:
/// by how much later one copy of a frame may be sent than the other, so that each system that gets
/// it takes it for a copy. A fault's one line goes to `errors`.
///
/// Where the file describes several switches, a line `S switch` stands before the ports of each,
/// and behind them all, before the answer, a line `E vl system ns` for each link and each system
/// that it goes to: the latencies of its way there, summed, `-` where the way is broken.
///
/// It gives the exit status: 0 where the network is admitted, 1 where it isn't or the configuration
/// has a fault, 4 for a device, of which a beginning of the text is written, or memory, of which
/// nothing is.
pub fn check_lines<O: Write, E: Write>(
    alloc: Global,
    options: CheckOptions,
    config: &[u8],
    output: &mut Watched<O>,
    errors: &mut Watched<E>,
) -> u8
    requires { has_failed output.old ≡ false }
    ensures statuses { (result ≡ 0) ⊎ (result ≡ 1) ⊎ (result ≡ 4) }
    ensures device { has_failed output.new ≡ true → result ≡ 4 }
    ensures checked { result ≡ 0 → IsChecked (file_text_of options) O.contents E.contents
        config.now (output.old, errors.old) (output.new, errors.new) }
    ensures refused { result ≡ 1 →
        IsDenied (file_text_of options) O.contents E.contents config.now
        (output.old, errors.old) (output.new, errors.new)
        ⊎ IsFaulty (file_text_of options) O.contents E.contents config.now
        (output.old, errors.old) (output.new, errors.new) }
    ensures stopped { result ≡ 4 →
        IsCut (file_text_of options) O.contents E.contents config.now
        (output.old, errors.old) (output.new, errors.new)
        ⊎ IsUnchecked (file_text_of options) O.contents E.contents config.now
        (output.old, errors.old) (output.new, errors.new) }
{
    let described = match read_file(alloc, config) {
        Ok(described) => described,
        Err(fault) => return refuse_file(fault, errors),
    };
    let Ok((text, answer)) = checked_file(alloc, options, described) else {
        return want_memory(errors);
    };
    match write_text(output, text.as_bytes()) {
        Ok(()) => match answer {
            CheckAnswer::Admitted => DONE,
            CheckAnswer::Denied => REFUSED,
        },
        Err(fault) => {
            tell_fault(errors, &fault);
            fault.status()
        }
    }
}

/// The same, with the bounds and the first line that is false alone.
pub fn check<O: Write, E: Write>(
    alloc: Global,
    config: &[u8],
    output: &mut Watched<O>,
    errors: &mut Watched<E>,
) -> u8
    requires { has_failed output.old ≡ false }
    ensures checks { Checks file_text O.contents E.contents config.now
        (output.old, errors.old) (output.new, errors.new) result }
{
    let options = CheckOptions {
        all: false,
        margins: false,
    };
    check_lines(alloc, options, config, output, errors)
}
