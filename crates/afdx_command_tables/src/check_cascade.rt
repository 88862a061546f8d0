//! What the command `check` writes of a cascade.

ghost use Rattle.std.specs.Prelude.{◌≡◌, ◌<◌, ◌≤◌, ◌++◌, All, Ok, OnOk, IfOk, Some, length, slice_get};
ghost use Rattle.std.specs.Prelude.{option_map, option_and_then, IsSome};
ghost use Rattle.afdx_frame.specs.Lines.{first_false, false_lines};
ghost use Rattle.afdx_config.specs.Rows.{link_row};
ghost use Rattle.afdx_config.specs.Switches.{is_this, first_of};
ghost use Rattle.afdx_admit.specs.AtSwitch.{link_at, IsKnownAt};
ghost use Rattle.afdx_admit.specs.Cascade.{IsCascadeAdmitted, cascade_lines, row_at};
ghost use Rattle.afdx_text.specs.Texts.{text_bytes};
ghost use Rattle.afdx_command_tables.specs.CascadeText as spec;

use crate::check_apart::put_admitted_cascade;
use crate::check_tables::{CheckAnswer, CheckOptions, put_ports};
use afdx_admit::{CascadeFault, admit_all, all_cascade_faults, way_latency};
use afdx_config::{Link, SwitchId, Switches, SystemId, Tables};
use afdx_frame::VlId;
use afdx_text::{CheckLine, OutLine, Text};
use std::alloc::{AllocError, Global};

/// Adds the name of a switch and the lines of its ports.
#[tactic(auto, unfolding(crate::specs::CascadeText::switch_lines))]
fn put_switch(
    text: &mut Text,
    switches: &Switches,
    margins: bool,
    switch: SwitchId,
) -> Result<(), AllocError>
    requires { switch.0 < length switches.now }
    ensures { OnOk result (text_bytes text.new ≡ text_bytes text.old
        ++ spec.switch_lines margins switches.now switch.0) }
{
    let name = switches.name(switch);
    OutLine::Check(CheckLine::Switch { name }).put(text)?;
    put_ports(text, switches.tables(switch), margins)
}

/// Adds those of all switches.
fn put_switches(text: &mut Text, switches: &Switches, margins: bool) -> Result<(), AllocError>
    ensures { OnOk result (text_bytes text.new ≡ text_bytes text.old
        ++ spec.texts_below (spec.switch_lines margins switches.now) (length switches.now)) }
{
    let count = switches.id_count();
    for k in 0..count {
        put_switch(text, switches, margins, SwitchId(k))?;
    }
    Ok(())
}

/// Adds the line of a link to the system at a place, if its row goes to it. The latency of its way
/// is in ns.
fn put_end(
    text: &mut Text,
    tables: &Tables,
    link: &Link,
    ns: Option<u64>,
    place: SystemId,
) -> Result<(), AllocError>
    requires { place.0 < length tables.now.systems }
    ensures { OnOk result (text_bytes text.new ≡ text_bytes text.old
        ++ spec.end_line tables.now (link_row link.now) ns place.0) }
{
    if !link.goes_to(place) {
        return Ok(());
    }
    OutLine::Check(CheckLine::EndToEnd {
        vl: link.vl,
        system: tables.system(place).name.as_str(),
        ns,
    })
    .put(text)
}

/// Adds those of a row, to each of its switch's systems in file order.
#[tactic(auto, unfolding(crate::specs::CascadeText::ends_of_row))]
fn put_ends_of_row(
    text: &mut Text,
    tables: &Tables,
    link: &Link,
    ns: Option<u64>,
) -> Result<(), AllocError>
    ensures { OnOk result (text_bytes text.new ≡ text_bytes text.old
        ++ spec.ends_of_row tables.now (link_row link.now) ns) }
{
    let count = tables.own_count();
    for place in 0..count {
        put_end(text, tables, link, ns, SystemId(place as u8))?;
    }
    Ok(())
}

/// The latency of the way to a row, in ns, where the way is whole.
fn way_ns(switches: &Switches, switch: SwitchId, link: usize) -> Option<u64>
    requires { IsSome (link_at switches.now switch.0 link) }
    ensures { result ≡ option_and_then (λ l. spec.way_ns switches.now (row_at switch.0 l))
        (link_at switches.now switch.0 link) }
{
    match way_latency(switches, switch, link) {
        Some(us) => Some(1000 * us),
        None => None,
    }
}

/// Adds those of a link at a switch, if it has a row there.
#[tactic(auto, unfolding(crate::specs::CascadeText::ends_at))]
fn put_ends_at(
    text: &mut Text,
    switches: &Switches,
    vl: VlId,
    switch: SwitchId,
) -> Result<(), AllocError>
    requires { switch.0 < length switches.now }
    ensures { OnOk result (text_bytes text.new ≡ text_bytes text.old
        ++ spec.ends_at switches.now vl.0 switch.0) }
{
    let tables = switches.tables(switch);
    match tables.link_of(vl) {
        Some(index) => {
            let ns = way_ns(switches, switch, index);
            put_ends_of_row(text, tables, tables.link(index), ns)
        }
        None => Ok(()),
    }
}

/// Adds those of a link at all switches.
fn put_ends_of_link(text: &mut Text, switches: &Switches, vl: VlId) -> Result<(), AllocError>
    ensures { OnOk result (text_bytes text.new ≡ text_bytes text.old
        ++ spec.ends_of_link switches.now vl.0) }
{
    let count = switches.id_count();
    for k in 0..count {
        put_ends_at(text, switches, vl, SwitchId(k))?;
    }
    Ok(())
}

/// Whether a switch is the first that has a row of the link.
pub(crate) fn is_first(switches: &Switches, vl: VlId, switch: SwitchId) -> bool
    ensures { result ≡ is_this (first_of switches.now vl.0) switch.0 }
{
    match switches.first_of(vl) {
        Some(first) => first.0 == switch.0,
        None => false,
    }
}

/// Adds those of a link, if it stands for the first time at this switch.
fn put_if_first(
    text: &mut Text,
    switches: &Switches,
    switch: SwitchId,
    link: &Link,
) -> Result<(), AllocError>
    ensures { OnOk result (text_bytes text.new ≡ text_bytes text.old
        ++ spec.ends_if_first switches.now switch.0 (link_row link.now)) }
{
    if is_first(switches, link.vl, switch) {
        put_ends_of_link(text, switches, link.vl)
    } else {
        Ok(())
    }
}

/// Adds those of the links that stand for the first time at this switch.
fn put_switch_ends(text: &mut Text, switches: &Switches, switch: SwitchId) -> Result<(), AllocError>
    requires { switch.0 < length switches.now }
    ensures { OnOk result (text_bytes text.new ≡ text_bytes text.old
        ++ spec.switch_ends switches.now switch.0) }
{
    let tables = switches.tables(switch);
    let count = tables.link_count();
    for i in 0..count {
        put_if_first(text, switches, switch, tables.link(i))?;
    }
    Ok(())
}

/// Adds those of all links.
fn put_ends(text: &mut Text, switches: &Switches) -> Result<(), AllocError>
    ensures { OnOk result (text_bytes text.new ≡ text_bytes text.old
        ++ spec.texts_below (spec.switch_ends switches.now) (length switches.now)) }
{
    let count = switches.id_count();
    for k in 0..count {
        put_switch_ends(text, switches, SwitchId(k))?;
    }
    Ok(())
}

/// Adds a false line of admission.
fn put_cascade_fault(
    alloc: Global,
    text: &mut Text,
    switches: &Switches,
    fault: CascadeFault,
) -> Result<(), AllocError>
    requires { IsKnownAt switches.now fault }
    ensures { OnOk result (text_bytes text.new ≡ text_bytes text.old
        ++ spec.cascade_fault_line switches.now fault) }
{
    let fault = fault.text(switches);
    let line = format!(in alloc; "{fault}")?;
    OutLine::Check(CheckLine::Denied {
        line: line.as_str(),
    })
    .put(text)
}

/// Adds several.
fn put_cascade_faults(
    alloc: Global,
    text: &mut Text,
    switches: &Switches,
    faults: &[CascadeFault],
) -> Result<(), AllocError>
    requires { All (IsKnownAt switches.now) faults.now }
    ensures { OnOk result (text_bytes text.new ≡ text_bytes text.old
        ++ spec.cascade_fault_lines switches.now faults.now) }
{
    for fault in faults {
        put_cascade_fault(alloc, text, switches, *fault)?;
    }
    Ok(())
}

/// Adds that the cascade is admitted, or the first line that is false.
fn put_first_of_cascade(
    alloc: Global,
    margins: bool,
    text: &mut Text,
    switches: Switches,
) -> Result<CheckAnswer, AllocError>
    ensures text { OnOk result (text_bytes text.new ≡ text_bytes text.old
        ++ spec.cascade_answer_line margins switches (first_false (cascade_lines switches))) }
    ensures admitted { result ≡ Ok CheckAnswer.Admitted → IsCascadeAdmitted switches }
    ensures denied { result ≡ Ok CheckAnswer.Denied → IsCascadeAdmitted switches → ⊥ }
{
    match admit_all(switches) {
        Ok(admitted) => {
            put_admitted_cascade(text, admitted.switches(), margins)?;
            Ok(CheckAnswer::Admitted)
        }
        Err((switches, fault)) => {
            put_cascade_fault(alloc, text, &switches, fault)?;
            Ok(CheckAnswer::Denied)
        }
    }
}

/// Adds that the cascade is admitted, or all lines that are false.
fn put_all_of_cascade(
    alloc: Global,
    margins: bool,
    text: &mut Text,
    switches: &Switches,
) -> Result<CheckAnswer, AllocError>
    ensures text { OnOk result (text_bytes text.new ≡ text_bytes text.old
        ++ spec.cascade_answer_lines margins switches.now
        (false_lines (cascade_lines switches.now))) }
    ensures admitted { result ≡ Ok CheckAnswer.Admitted → IsCascadeAdmitted switches.now }
    ensures denied { result ≡ Ok CheckAnswer.Denied → IsCascadeAdmitted switches.now → ⊥ }
{
    let faults = all_cascade_faults(alloc, switches)?;
    if faults.is_empty() {
        put_admitted_cascade(text, switches, margins)?;
        return Ok(CheckAnswer::Admitted);
    }
    put_cascade_faults(alloc, text, switches, faults.as_slice())?;
    Ok(CheckAnswer::Denied)
}

/// Adds the answer: the first line that is false, or all.
fn put_cascade_answer(
    alloc: Global,
    options: CheckOptions,
    text: &mut Text,
    switches: Switches,
) -> Result<CheckAnswer, AllocError>
    ensures text { OnOk result (text_bytes text.new ≡ text_bytes text.old
        ++ spec.cascade_answer options switches) }
    ensures admitted { result ≡ Ok CheckAnswer.Admitted → IsCascadeAdmitted switches }
    ensures denied { result ≡ Ok CheckAnswer.Denied → IsCascadeAdmitted switches → ⊥ }
{
    if options.all {
        put_all_of_cascade(alloc, options.margins, text, &switches)
    } else {
        put_first_of_cascade(alloc, options.margins, text, switches)
    }
}

/// What is to be said of a cascade, and what is answered of it.
pub(crate) fn checked_cascade(
    alloc: Global,
    options: CheckOptions,
    switches: Switches,
) -> Result<(Text, CheckAnswer), AllocError>
    ensures text { IfOk result (λ checked.
        text_bytes checked.0 ≡ spec.cascade_text_of options switches) }
    ensures admitted { IfOk result (λ checked. checked.1 ≡ CheckAnswer.Admitted →
        IsCascadeAdmitted switches) }
    ensures denied { IfOk result (λ checked. checked.1 ≡ CheckAnswer.Denied →
        IsCascadeAdmitted switches → ⊥) }
{
    let mut text = Text::new(alloc);
    put_switches(&mut text, &switches, options.margins)?;
    put_ends(&mut text, &switches)?;
    let answer = put_cascade_answer(alloc, options, &mut text, switches)?;
    Ok((text, answer))
}
