//! What the command `check` writes of the tables of one switch.

ghost use Rattle.std.specs.Prelude.{◌≡◌, ◌⊎◌, ◌<◌, ◌++◌, All, Ok, OnOk, IfOk, true, false, Some};
ghost use Rattle.std.specs.List.{flat_map};
ghost use Rattle.afdx_frame.specs.Ports.{last_port};
ghost use Rattle.afdx_config.specs.Admission.{IsAdmitted, links_to};
ghost use Rattle.afdx_admit.specs.Bounds.{IsBounds};
ghost use Rattle.afdx_admit.specs.Known.{IsKnown};
ghost use Rattle.afdx_admit.specs.Lines.{false_lines, first_false, lines};
ghost use Rattle.afdx_config.specs.Rows.{Rows, link_row};
ghost use Rattle.afdx_admit.specs.Sums.{CanSend};
ghost use Rattle.afdx_command_tables.specs.CheckText.{port_line, line_if_used, used_port_lines, answer_line};
ghost use Rattle.afdx_command_tables.specs.CheckText.{link_line, margin_lines, margin_lines_if};
ghost use Rattle.afdx_command_tables.specs.CheckText.{fault_line, fault_lines, answer_lines, answer};
ghost use Rattle.afdx_command_tables.specs.CheckText.{check_text_of};
ghost use Rattle.afdx_text.specs.Texts.{text_bytes};

use crate::check_apart::put_admitted;
use afdx_admit::{AdmitFault, PortBounds, admit, all_faults, bounds_of};
use afdx_config::{Link, SystemId, Tables};
use afdx_frame::{LAST_PORT, Priority};
use afdx_text::{CheckLine, OutLine, Text};
use std::alloc::{AllocError, Global};

/// Adds the line of an output port's bounds.
fn put_bounds(text: &mut Text, port: u8, bounds: &PortBounds) -> Result<(), AllocError>
    ensures { (t : Rows) → IsBounds t port bounds.now →
        OnOk result (text_bytes text.new ≡ text_bytes text.old ++ port_line t port) }
{
    let high = bounds.high;
    OutLine::Check(CheckLine::Bounds {
        port,
        high,
        low: bounds.low,
        buffer: bounds.buffer,
    })
    .put(text)
}

/// Adds the line of a link that goes to an output port: its margin there.
fn put_margin(text: &mut Text, port: u8, bounds: &PortBounds, link: &Link) -> Result<(), AllocError>
    requires { CanSend (link_row link.now) }
    ensures { (t : Rows) → IsBounds t port bounds.now → OnOk result
        (text_bytes text.new ≡ text_bytes text.old ++ link_line t port (link_row link.now)) }
{
    let bound = match link.priority {
        Priority::High => Some(bounds.high),
        Priority::Low => bounds.low,
    };
    OutLine::Check(CheckLine::Margin {
        port,
        vl: link.vl,
        bound,
        latency: 1000 * link.latency_us,
    })
    .put(text)
}

/// Adds the margins of the links that go to a system, at this port of the switch.
fn put_links(
    text: &mut Text,
    tables: &Tables,
    port: u8,
    system: SystemId,
    bounds: &PortBounds,
) -> Result<(), AllocError>
    requires { IsBounds tables.now port bounds.now }
    ensures { OnOk result (text_bytes text.new ≡ text_bytes text.old
        ++ flat_map (link_line tables.now port) (links_to tables.now.links system.0)) }
{
    let count = tables.link_count();
    for i in 0..count {
        let link = tables.link(i);
        if link.goes_to(system) {
            put_margin(text, port, bounds, link)?;
        }
    }
    Ok(())
}

/// Adds the margins at an output port.
fn put_margins(
    text: &mut Text,
    tables: &Tables,
    port: u8,
    bounds: &PortBounds,
) -> Result<(), AllocError>
    requires { IsBounds tables.now port bounds.now }
    ensures { OnOk result
        (text_bytes text.new ≡ text_bytes text.old ++ margin_lines tables.now port) }
{
    match tables.system_at(port) {
        Some(system) => put_links(text, tables, port, system, bounds),
        None => Ok(()),
    }
}

/// Adds the line of an output port that has a system, and the margins there, if they are wanted.
fn put_used(
    text: &mut Text,
    tables: &Tables,
    margins: bool,
    port: u8,
    bounds: &PortBounds,
) -> Result<(), AllocError>
    requires { IsBounds tables.now port bounds.now }
    ensures { OnOk result (text_bytes text.new ≡ text_bytes text.old
        ++ (port_line tables.now port ++ margin_lines_if margins tables.now port)) }
{
    put_bounds(text, port, bounds)?;
    if margins {
        put_margins(text, tables, port, bounds)
    } else {
        Ok(())
    }
}

/// Adds the lines of an output port, if it has a system.
fn put_port(text: &mut Text, tables: &Tables, margins: bool, port: u8) -> Result<(), AllocError>
    ensures { OnOk result (text_bytes text.new ≡ text_bytes text.old
        ++ (line_if_used tables.now port ++ margin_lines_if margins tables.now port)) }
{
    match bounds_of(tables, port) {
        Some(bounds) => put_used(text, tables, margins, port, &bounds),
        None => Ok(()),
    }
}

/// Adds the lines of the ports that have a system.
pub(crate) fn put_ports(text: &mut Text, tables: &Tables, margins: bool) -> Result<(), AllocError>
    ensures { OnOk result (text_bytes text.new
        ≡ text_bytes text.old ++ used_port_lines margins tables.now last_port) }
{
    for count in 0..LAST_PORT {
        let port = count + 1;
        put_port(text, tables, margins, port)?;
    }
    Ok(())
}

/// Adds a false line of admission.
fn put_fault(
    alloc: Global,
    text: &mut Text,
    tables: &Tables,
    fault: AdmitFault,
) -> Result<(), AllocError>
    requires { IsKnown tables.now fault }
    ensures { OnOk result
        (text_bytes text.new ≡ text_bytes text.old ++ fault_line tables.now fault) }
{
    let fault = fault.text(tables);
    let line = format!(in alloc; "{fault}")?;
    OutLine::Check(CheckLine::Denied {
        line: line.as_str(),
    })
    .put(text)
}

/// Adds several.
fn put_faults(
    alloc: Global,
    text: &mut Text,
    tables: &Tables,
    faults: &[AdmitFault],
) -> Result<(), AllocError>
    requires { All (IsKnown tables.now) faults.now }
    ensures { OnOk result
        (text_bytes text.new ≡ text_bytes text.old ++ fault_lines tables.now faults.now) }
{
    for fault in faults {
        put_fault(alloc, text, tables, *fault)?;
    }
    Ok(())
}

/// What is answered of tables.
#[derive(Clone, Copy)]
pub(crate) enum CheckAnswer {
    Admitted,
    Denied,
}

/// Adds that the tables are admitted, or the first line that is false.
fn put_first(
    alloc: Global,
    margins: bool,
    text: &mut Text,
    tables: Tables,
) -> Result<CheckAnswer, AllocError>
    ensures text { OnOk result (text_bytes text.new ≡ text_bytes text.old
        ++ answer_line margins tables (first_false (lines tables))) }
    ensures admitted { result ≡ Ok CheckAnswer.Admitted → IsAdmitted tables }
    ensures denied { result ≡ Ok CheckAnswer.Denied → IsAdmitted tables → ⊥ }
{
    match admit(tables) {
        Ok(admitted) => {
            put_admitted(text, admitted.tables(), margins)?;
            Ok(CheckAnswer::Admitted)
        }
        Err((tables, fault)) => {
            put_fault(alloc, text, &tables, fault)?;
            Ok(CheckAnswer::Denied)
        }
    }
}

/// Adds that the tables are admitted, or all lines that are false.
fn put_all(
    alloc: Global,
    margins: bool,
    text: &mut Text,
    tables: &Tables,
) -> Result<CheckAnswer, AllocError>
    ensures text { OnOk result (text_bytes text.new ≡ text_bytes text.old
        ++ answer_lines margins tables.now (false_lines (lines tables.now))) }
    ensures admitted { result ≡ Ok CheckAnswer.Admitted → IsAdmitted tables.now }
    ensures denied { result ≡ Ok CheckAnswer.Denied → IsAdmitted tables.now → ⊥ }
{
    let faults = all_faults(alloc, tables)?;
    if faults.is_empty() {
        put_admitted(text, tables, margins)?;
        return Ok(CheckAnswer::Admitted);
    }
    put_faults(alloc, text, tables, faults.as_slice())?;
    Ok(CheckAnswer::Denied)
}

/// What `check` writes besides the bounds of each output port and its answer.
#[derive(Clone, Copy, Debug)]
pub struct CheckOptions {
    /// Each line of admission that is false, and not the first alone.
    pub all: bool,
    /// Behind the bounds of an output port, the margin of each link that goes there; and, where the
    /// network is admitted, how far apart the copies of a frame of each link may be sent.
    pub margins: bool,
}

/// Adds the answer: the first line that is false, or all.
fn put_answer(
    alloc: Global,
    options: CheckOptions,
    text: &mut Text,
    tables: Tables,
) -> Result<CheckAnswer, AllocError>
    ensures text { OnOk result
        (text_bytes text.new ≡ text_bytes text.old ++ answer options tables) }
    ensures admitted { result ≡ Ok CheckAnswer.Admitted → IsAdmitted tables }
    ensures denied { result ≡ Ok CheckAnswer.Denied → IsAdmitted tables → ⊥ }
{
    if options.all {
        put_all(alloc, options.margins, text, &tables)
    } else {
        put_first(alloc, options.margins, text, tables)
    }
}

/// What is to be said of the tables, and what is answered of them.
pub(crate) fn checked_text(
    alloc: Global,
    options: CheckOptions,
    tables: Tables,
) -> Result<(Text, CheckAnswer), AllocError>
    ensures text { IfOk result (λ checked. text_bytes checked.0 ≡ check_text_of options tables) }
    ensures admitted { IfOk result (λ checked. checked.1 ≡ CheckAnswer.Admitted →
        IsAdmitted tables) }
    ensures denied { IfOk result (λ checked. checked.1 ≡ CheckAnswer.Denied →
        IsAdmitted tables → ⊥) }
{
    let mut text = Text::new(alloc);
    put_ports(&mut text, &tables, options.margins)?;
    let answer = put_answer(alloc, options, &mut text, tables)?;
    Ok((text, answer))
}
