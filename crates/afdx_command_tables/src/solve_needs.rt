//! What the command `solve` tells: the links that need more at an output port than they asked for.

ghost use Rattle.std.specs.Prelude.{◌≡◌, ◌<◌, ◌++◌, OnOk, IfOk, length, string_bytes, ℕ, []};
ghost use Rattle.afdx_config.specs.Asked.{lists};
ghost use Rattle.afdx_config.specs.Rows.{Rows, link_row};
ghost use Rattle.afdx_admit.specs.Bounds.{IsBounds};
ghost use Rattle.afdx_command_tables.specs.CascadeText.{texts_below};
ghost use Rattle.afdx_command_tables.specs.CheckText.{class_bound_at};
ghost use Rattle.afdx_command_tables.specs.SolveText as spec;

use afdx_admit::{PortBounds, bounds_of};
use afdx_config::{Link, SwitchId, Switches, SystemId, Tables};
use afdx_frame::{LAST_PORT, Priority, VlId};
use std::alloc::{AllocError, Global};
use std::fmt::Write as _;

/// Adds the number of a port, behind the name of its switch where there are several.
fn put_port(text: &mut String, switch: &str, port: u8) -> Result<(), AllocError>
    ensures { OnOk result
        (string_bytes text.new ≡ string_bytes text.old ++ spec.port_text switch.now port) }
{
    if switch.is_empty() {
        return write!(text, "{port}");
    }
    write!(text, "{switch} {port}")
}

/// Adds the line of a link that needs so many ns at an output port, and asked for so many us.
fn put_told(
    text: &mut String,
    switch: &str,
    port: u8,
    vl: u16,
    bound: u64,
    asked: u64,
) -> Result<(), AllocError>
    ensures { OnOk result (string_bytes text.new ≡ string_bytes text.old
        ++ spec.told_need switch.now port vl bound asked) }
{
    write!(text, "vl {vl} at ")?;
    put_port(text, switch, port)?;
    write!(text, ": {bound} ns needed, {asked} us asked\n")
}

/// Adds the line if the bound is more than what was asked for.
fn put_over(
    text: &mut String,
    switch: &str,
    port: u8,
    vl: u16,
    bound: u64,
    asked: u64,
) -> Result<(), AllocError>
    ensures { OnOk result (string_bytes text.new ≡ string_bytes text.old
        ++ spec.need_over switch.now port vl bound asked) }
{
    if bound <= asked.saturating_mul(1000) {
        Ok(())
    } else {
        put_told(text, switch, port, vl, bound, asked)
    }
}

/// Adds the line if there is a bound, and it is more than what was asked for.
fn put_line(
    text: &mut String,
    switch: &str,
    port: u8,
    vl: VlId,
    bound: Option<u64>,
    asked: Option<u64>,
) -> Result<(), AllocError>
    ensures { OnOk result (string_bytes text.new ≡ string_bytes text.old
        ++ spec.need_line switch.now port vl.0 bound asked) }
{
    match (bound, asked) {
        (Some(bound), Some(asked)) => put_over(text, switch, port, vl.0, bound, asked),
        (Some(_), None) => Ok(()),
        (None, _) => Ok(()),
    }
}

/// The bound of a class at an output port, in ns.
fn class_bound(class: Priority, bounds: &PortBounds) -> Option<u64>
    ensures { (t : Rows) (port : ℕ) → IsBounds t port bounds.now →
        result ≡ class_bound_at t port class }
{
    match class {
        Priority::High => Some(bounds.high),
        Priority::Low => bounds.low,
    }
}

/// An output port.
#[derive(Clone, Copy)]
struct OutputPort<'a> {
    /// The name of its switch, which is empty where there is one on a side.
    switch: &'a str,
    port: u8,
    /// The system or neighbour there.
    end: SystemId,
    bounds: &'a PortBounds,
}

/// Adds the line of a link that needs more at an output port than it asked for, if it goes to the
/// system or the neighbour there.
fn put_need(
    text: &mut String,
    at: &OutputPort<'_>,
    link: &Link,
    asked: Option<u64>,
) -> Result<(), AllocError>
    ensures { (t : Rows) → IsBounds t at.now.port at.now.bounds.now → OnOk result
        (string_bytes text.new ≡ string_bytes text.old ++ spec.need_at
        at.now.switch.now t at.now.port at.now.end.0 (link_row link.now) asked) }
{
    if !link.goes_to(at.end) {
        return Ok(());
    }
    let bound = class_bound(link.priority, at.bounds);
    put_line(text, at.switch, at.port, link.vl, bound, asked)
}

/// What the link at a place asked for, in us.
fn asked_by(asked: &[Option<u64>], index: usize) -> Option<u64>
    ensures { result ≡ spec.asked_by asked.now index }
{
    match asked.get(index) {
        Some(latency) => *latency,
        None => None,
    }
}

/// Adds the lines of the links that need more at an output port than they asked for.
fn put_needs_to(
    text: &mut String,
    at: &OutputPort<'_>,
    tables: &Tables,
    asked: &[Option<u64>],
) -> Result<(), AllocError>
    requires { IsBounds tables.now at.now.port at.now.bounds.now }
    ensures { OnOk result (string_bytes text.new ≡ string_bytes text.old ++ spec.needs_of_first
        at.now.switch.now tables.now asked.now at.now.port at.now.end.0
        (length tables.now.links)) }
{
    let count = tables.link_count();
    for i in 0..count {
        let latency = asked_by(asked, i);
        put_need(text, at, tables.link(i), latency)?;
    }
    Ok(())
}

/// Adds the lines at a port of a switch, if it has a system or a neighbour.
fn put_needs_at(
    text: &mut String,
    switch: &str,
    port: u8,
    tables: &Tables,
    asked: &[Option<u64>],
) -> Result<(), AllocError>
    ensures { OnOk result (string_bytes text.new ≡ string_bytes text.old
        ++ spec.needs_at switch.now tables.now asked.now port) }
{
    match tables.system_at(port) {
        Some(end) => match bounds_of(tables, port) {
            Some(bounds) => {
                let at = OutputPort {
                    switch,
                    port,
                    end,
                    bounds: &bounds,
                };
                put_needs_to(text, &at, tables, asked)
            }
            None => Ok(()),
        },
        None => Ok(()),
    }
}

/// Adds the lines of a switch: each link and output port where more is needed than the link asked
/// for.
fn put_needs(
    text: &mut String,
    switch: &str,
    tables: &Tables,
    asked: &[Option<u64>],
) -> Result<(), AllocError>
    ensures { OnOk result (string_bytes text.new
        ≡ string_bytes text.old ++ spec.needs_text switch.now tables.now asked.now) }
{
    for count in 0..LAST_PORT {
        let port = count + 1;
        put_needs_at(text, switch, port, tables, asked)?;
    }
    Ok(())
}

/// What is told of the solved tables of one switch.
pub(crate) fn needs_of(
    alloc: Global,
    tables: &Tables,
    asked: &[Option<u64>],
) -> Result<String, AllocError>
    ensures { IfOk result (λ text. string_bytes text ≡ spec.needs_text [] tables.now asked.now) }
{
    let mut text = String::new(alloc);
    put_needs(&mut text, "", tables, asked)?;
    Ok(text)
}

/// Adds the lines of the switch at a place, with its name.
#[tactic(auto, unfolding(crate::specs::SolveText::needs_of_switch))]
fn put_needs_of_switch(
    text: &mut String,
    switches: &Switches,
    asked: &[Vec<Option<u64>>],
    switch: SwitchId,
) -> Result<(), AllocError>
    requires { switch.0 < length switches.now }
    ensures { OnOk result (string_bytes text.new ≡ string_bytes text.old
        ++ spec.needs_of_switch switches.now (lists asked.now) switch.0) }
{
    let (name, tables) = (switches.name(switch), switches.tables(switch));
    match asked.get(switch.index()) {
        Some(asked) => put_needs(text, name, tables, asked.as_slice()),
        None => put_needs(text, name, tables, &[]),
    }
}

/// What is told of several solved switches, of each the links that asked for so much.
pub(crate) fn needs_of_cascade(
    alloc: Global,
    switches: &Switches,
    asked: &[Vec<Option<u64>>],
) -> Result<String, AllocError>
    ensures { IfOk result (λ text. string_bytes text
        ≡ spec.cascade_needs_text switches.now (lists asked.now)) }
{
    let mut text = String::new(alloc);
    let count = switches.id_count();
    for k in 0..count {
        put_needs_of_switch(&mut text, switches, asked, SwitchId(k))?;
    }
    Ok(text)
}
