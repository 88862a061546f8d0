//! How a command refuses a configuration or its tables.

ghost use Rattle.std.specs.Prelude.{◌≡◌, ◌++◌, Some, codes, decimal};
ghost use Rattle.afdx_config.specs.FaultText.{behind, place_in, switch_text};
ghost use Rattle.afdx_admit.specs.AtSwitch.{IsKnownAt};
ghost use Rattle.afdx_admit.specs.FaultText.{low_bound_text, subject, switch_subject};
ghost use Rattle.afdx_admit.specs.FaultText.{switch_fault_text};
ghost use Rattle.afdx_admit.specs.Known.{IsKnown};
ghost use Rattle.afdx_text.specs.Telling.{Tells};
ghost use Rattle.afdx_command_tables.specs.Refusals.{admit_line, admit_line_at, file_line};
ghost use Rattle.afdx_command_tables.specs.Refusals.{IsToldRefused, WantsMemory, no_place_line, no_system_line};

use crate::status::{REFUSED, WRONG_WORDS};
use afdx_admit::{AdmitFault, AdmitText, CascadeFault, CascadeText, SwitchFault};
use afdx_config::{ConfigFault, FileFault, Place, Switches, Tables};
use afdx_frame::VlId;
use afdx_input_lines::{RunFault, Watched};
use afdx_text::{tell, tell_fault, tell_number};
use std::io::Write;

/// Tells that memory was refused, and gives the exit status.
pub fn want_memory<E: Write>(errors: &mut Watched<E>) -> u8
    ensures { WantsMemory E.contents errors.old errors.new result }
{
    let fault = RunFault::Memory;
    tell_fault(errors, &fault);
    fault.status()
}

/// Tells a place, behind a word.
fn tell_place<E: Write>(errors: &mut Watched<E>, place: Place)
    ensures { Tells E.contents errors.old errors.new (behind (Some place)) }
{
    tell(errors, b" ");
    tell(errors, place.part.word().as_bytes());
    tell(errors, b" ");
    tell_number(errors, place.index as u64);
    tell(errors, b" key ");
    tell_number(errors, u64::from(place.key));
}

/// Tells the switch that a fault stands in, counted from 1; nothing where it is 0.
fn tell_switch<E: Write>(errors: &mut Watched<E>, switch: u8)
    ensures { Tells E.contents errors.old errors.new (switch_text switch) }
{
    if switch == 0 {
        tell(errors, b"");
    } else {
        tell(errors, b" switch ");
        tell_number(errors, u64::from(switch));
    }
}

/// Tells the place of the check that failed, if the fault has one.
fn tell_file_place<E: Write>(errors: &mut Watched<E>, fault: FileFault)
    ensures { Tells E.contents errors.old errors.new
        (behind (place_in fault.switch fault.fault)) }
{
    match fault.place() {
        Some(place) => tell_place(errors, place),
        None => tell(errors, b""),
    }
}

/// Tells the line of a fault of a configuration, of one switch or of several.
fn tell_file<E: Write>(errors: &mut Watched<E>, fault: FileFault)
    ensures { Tells E.contents errors.old errors.new (file_line fault) }
{
    tell(errors, b"config ");
    tell(errors, fault.fault.word().as_bytes());
    tell_switch(errors, fault.switch);
    tell_file_place(errors, fault);
    tell(errors, b"\n");
}

/// Tells why a configuration is refused, and gives the exit status.
pub fn refuse_file<E: Write>(fault: FileFault, errors: &mut Watched<E>) -> u8
    ensures told { (fault.fault ≡ ConfigFault.Memory → ⊥) →
        IsToldRefused E.contents errors.old errors.new result (file_line fault) }
    ensures memory { fault.fault ≡ ConfigFault.Memory →
        WantsMemory E.contents errors.old errors.new result }
{
    if let ConfigFault::Memory = fault.fault {
        return want_memory(errors);
    }
    tell_file(errors, fault);
    REFUSED
}

/// Tells two numbers, with a space between them.
fn tell_both<E: Write>(errors: &mut Watched<E>, first: u64, second: u64)
    ensures { Tells E.contents errors.old errors.new
        (decimal first ++ codes " " ++ decimal second) }
{
    tell_number(errors, first);
    tell(errors, b" ");
    tell_number(errors, second);
}

/// Tells that a link has this bound at a port.
fn tell_bound<E: Write>(errors: &mut Watched<E>, port: u8, vl: VlId, bound: u64)
    ensures { Tells E.contents errors.old errors.new
        (decimal port ++ codes " " ++ decimal vl.0 ++ codes " " ++ decimal bound) }
{
    tell_both(errors, u64::from(port), u64::from(vl.0));
    tell(errors, b" ");
    tell_number(errors, bound);
}

/// Tells the bound of a low link, which is `-` where there is none.
fn tell_low_number<E: Write>(errors: &mut Watched<E>, bound: u64)
    ensures { Tells E.contents errors.old errors.new (low_bound_text bound) }
{
    if bound == 0 {
        tell(errors, b"-");
    } else {
        tell_number(errors, bound);
    }
}

/// Tells that a low link has this bound at a port.
fn tell_low_bound<E: Write>(errors: &mut Watched<E>, port: u8, vl: VlId, bound: u64)
    ensures { Tells E.contents errors.old errors.new
        (decimal port ++ codes " " ++ decimal vl.0 ++ codes " " ++ low_bound_text bound) }
{
    tell_both(errors, u64::from(port), u64::from(vl.0));
    tell(errors, b" ");
    tell_low_number(errors, bound);
}

/// Tells what a false line of admission speaks of.
fn tell_subject<E: Write>(errors: &mut Watched<E>, text: &AdmitText<'_>)
    ensures { Tells E.contents errors.old errors.new
        (subject text.now.name.now text.now.fault) }
{
    match text.fault {
        AdmitFault::Overload(port) => tell_number(errors, u64::from(port)),
        AdmitFault::Buffer(port, needed) => tell_both(errors, u64::from(port), needed),
        AdmitFault::HighLatency(port, vl, bound) => tell_bound(errors, port, vl, bound),
        AdmitFault::LowLatency(port, vl, bound) => tell_low_bound(errors, port, vl, bound),
        AdmitFault::SenderJitter(_, ns) => {
            tell(errors, text.name.as_bytes());
            tell(errors, b" ");
            tell_number(errors, ns)
        }
        AdmitFault::LinkJitter(vl, needed) => tell_both(errors, u64::from(vl.0), needed),
        AdmitFault::Skew(vl) => tell_number(errors, u64::from(vl.0)),
    }
}

/// Tells why tables are not admitted, and gives the exit status.
pub fn refuse_tables<E: Write>(tables: &Tables, fault: AdmitFault, errors: &mut Watched<E>) -> u8
    requires { IsKnown tables.now fault }
    ensures { IsToldRefused E.contents errors.old errors.new result
        (admit_line tables.now fault) }
{
    let text = fault.text(tables);
    tell(errors, b"admit ");
    tell(errors, fault.word().as_bytes());
    tell(errors, b" ");
    tell_subject(errors, &text);
    tell(errors, b"\n");
    REFUSED
}

/// Tells what a false line of admission at a switch of a cascade speaks of.
fn tell_switch_subject<E: Write>(errors: &mut Watched<E>, text: &CascadeText<'_>)
    ensures { Tells E.contents errors.old errors.new
        (switch_subject text.now.name.now text.now.fault) }
{
    match text.fault {
        SwitchFault::Own(fault) => {
            let name = text.name;
            tell_subject(errors, &AdmitText { fault, name })
        }
        SwitchFault::Unfed(vl) => tell_number(errors, u64::from(vl.0)),
        SwitchFault::Contract(vl) => tell_number(errors, u64::from(vl.0)),
        SwitchFault::HopJitter(vl, needed) => tell_both(errors, u64::from(vl.0), needed),
        SwitchFault::PathSkew(vl, needed) => tell_both(errors, u64::from(vl.0), needed),
        SwitchFault::Unread(vl, _) => {
            tell_number(errors, u64::from(vl.0));
            tell(errors, b" ");
            tell(errors, text.name.as_bytes())
        }
    }
}

/// Tells a false line of admission, with the names of its switch and of what it speaks of.
fn tell_switch_fault<E: Write>(errors: &mut Watched<E>, text: &CascadeText<'_>)
    ensures { Tells E.contents errors.old errors.new
        (switch_fault_text text.now.switch.now text.now.name.now text.now.fault) }
{
    tell(errors, text.fault.word().as_bytes());
    tell(errors, b" ");
    tell(errors, text.switch.as_bytes());
    tell(errors, b" ");
    tell_switch_subject(errors, text);
}

/// Tells why switches are not admitted, and gives the exit status.
pub fn refuse_switches<E: Write>(
    switches: &Switches,
    fault: CascadeFault,
    errors: &mut Watched<E>,
) -> u8
    requires { IsKnownAt switches.now fault }
    ensures { IsToldRefused E.contents errors.old errors.new result
        (admit_line_at switches.now fault) }
{
    let text = fault.text(switches);
    tell(errors, b"admit ");
    tell_switch_fault(errors, &text);
    tell(errors, b"\n");
    REFUSED
}

/// Tells that the configuration hasn't a place of which an option of a recording speaks, and gives
/// the exit status.
pub fn refuse_place<E: Write>(errors: &mut Watched<E>) -> u8
    ensures status { result ≡ 2 }
    ensures told { Tells E.contents errors.old errors.new no_place_line }
{
    tell(errors, b"words BadInterface\n");
    WRONG_WORDS
}

/// Tells that no system has the name, and gives the exit status.
pub fn refuse_name<E: Write>(errors: &mut Watched<E>) -> u8
    ensures status { result ≡ 2 }
    ensures told { Tells E.contents errors.old errors.new no_system_line }
{
    tell(errors, b"words NoSuchSystem\n");
    WRONG_WORDS
}
