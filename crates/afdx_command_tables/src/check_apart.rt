//! What the command `check` writes of tables that are admitted: how far apart the copies of a frame
//! of each link may be sent.

ghost use Rattle.std.specs.Prelude.{◌≡◌, ◌<◌, ◌++◌, OnOk, length};
ghost use Rattle.afdx_config.specs.Lawful.{IsLinkUpTo, jitter_from_any};
ghost use Rattle.afdx_config.specs.Rows.{link_row};
ghost use Rattle.afdx_command_tables.specs.CascadeText as cascade;
ghost use Rattle.afdx_command_tables.specs.CheckText as spec;
ghost use Rattle.afdx_text.specs.Texts.{text_bytes};

use crate::check_cascade::is_first;
use afdx_admit::{cascade_apart, link_apart};
use afdx_config::{Link, SwitchId, Switches, Tables};
use afdx_text::{CheckLine, OutLine, Text};
use std::alloc::AllocError;

/// Adds the line of a link.
fn put_apart(text: &mut Text, tables: &Tables, link: &Link) -> Result<(), AllocError>
    requires { IsLinkUpTo jitter_from_any (length tables.now.systems) (link_row link.now) }
    ensures { OnOk result (text_bytes text.new
        ≡ text_bytes text.old ++ spec.apart_of tables.now (link_row link.now)) }
{
    let ns = link_apart(tables, link);
    OutLine::Check(CheckLine::Apart { vl: link.vl, ns }).put(text)
}

/// Adds those of all links.
fn put_aparts(text: &mut Text, tables: &Tables) -> Result<(), AllocError>
    ensures { OnOk result
        (text_bytes text.new ≡ text_bytes text.old ++ spec.apart_lines tables.now) }
{
    let count = tables.link_count();
    for i in 0..count {
        put_apart(text, tables, tables.link(i))?;
    }
    Ok(())
}

/// Adds that the tables are admitted, and the lines of all links, if they are wanted.
pub(crate) fn put_admitted(
    text: &mut Text,
    tables: &Tables,
    margins: bool,
) -> Result<(), AllocError>
    ensures { OnOk result (text_bytes text.new
        ≡ text_bytes text.old ++ spec.admitted_lines margins tables.now) }
{
    OutLine::Check(CheckLine::Admitted).put(text)?;
    if margins {
        put_aparts(text, tables)
    } else {
        Ok(())
    }
}

/// Adds the line of a link, if it stands for the first time at this switch.
fn put_apart_if_first(
    text: &mut Text,
    switches: &Switches,
    switch: SwitchId,
    link: &Link,
) -> Result<(), AllocError>
    ensures { OnOk result (text_bytes text.new ≡ text_bytes text.old
        ++ cascade.apart_if_first switches.now switch.0 (link_row link.now)) }
{
    if !is_first(switches, link.vl, switch) {
        return Ok(());
    }
    let ns = cascade_apart(switches, link.vl);
    OutLine::Check(CheckLine::Apart { vl: link.vl, ns }).put(text)
}

/// Adds those of the links that stand for the first time at this switch.
fn put_switch_aparts(
    text: &mut Text,
    switches: &Switches,
    switch: SwitchId,
) -> Result<(), AllocError>
    requires { switch.0 < length switches.now }
    ensures { OnOk result (text_bytes text.new ≡ text_bytes text.old
        ++ cascade.switch_aparts switches.now switch.0) }
{
    let tables = switches.tables(switch);
    let count = tables.link_count();
    for i in 0..count {
        put_apart_if_first(text, switches, switch, tables.link(i))?;
    }
    Ok(())
}

/// Adds those of all links, each where it stands for the first time.
fn put_cascade_aparts(text: &mut Text, switches: &Switches) -> Result<(), AllocError>
    ensures { OnOk result (text_bytes text.new ≡ text_bytes text.old
        ++ cascade.texts_below (cascade.switch_aparts switches.now) (length switches.now)) }
{
    let count = switches.id_count();
    for k in 0..count {
        put_switch_aparts(text, switches, SwitchId(k))?;
    }
    Ok(())
}

/// Adds that the cascade is admitted, and the lines of all links, if they are wanted.
pub(crate) fn put_admitted_cascade(
    text: &mut Text,
    switches: &Switches,
    margins: bool,
) -> Result<(), AllocError>
    ensures { OnOk result (text_bytes text.new
        ≡ text_bytes text.old ++ cascade.admitted_cascade margins switches.now) }
{
    OutLine::Check(CheckLine::Admitted).put(text)?;
    if margins {
        put_cascade_aparts(text, switches)
    } else {
        Ok(())
    }
}
