//! The tables of several switches as the text of a configuration.

ghost use Rattle.std.specs.Prelude.{◌≡◌, ◌++◌, drop, string_bytes, IfOk, OnOk, codes};
ghost use Rattle.std.specs.List.{flat_map};
ghost use Rattle.afdx_config.specs.declared.describing.Described.TheVariants.{Several};
ghost use Rattle.afdx_config.specs.Files.{Describes};
ghost use Rattle.afdx_config.specs.Rows.{system_row};
ghost use Rattle.afdx_config.specs.Switches.{named_rows};
ghost use Rattle.afdx_solve.specs.CascadeText as spec;

use crate::writing::{
    put_header, put_links, put_number, put_ports, put_systems, put_text, put_top,
};
use afdx_config::{SwitchId, Switches, System, SystemId, Tables};
use std::alloc::{AllocError, Global};

/// What stands before the names of a switch's tables.
const ABOVE: &str = "switch.";

/// Adds a neighbour.
#[tactic(auto, unfolding(crate::specs::CascadeText::neighbour_text), using(std::proofs::Common::append_assoc))]
fn put_neighbour(text: &mut String, neighbour: &System) -> Result<(), AllocError>
    ensures { OnOk result (string_bytes text.new
        ≡ string_bytes text.old ++ spec.neighbour_text (system_row neighbour.now)) }
{
    put_header(text, ABOVE, "neighbour")?;
    put_text(text, "name", &neighbour.name)?;
    put_number(text, "port", u64::from(neighbour.port))?;
    put_number(text, "rate", neighbour.rate)
}

/// Adds the neighbours, which stand behind the systems.
fn put_neighbours(text: &mut String, tables: &Tables) -> Result<(), AllocError>
    ensures { OnOk result (string_bytes text.new ≡ string_bytes text.old
        ++ flat_map spec.neighbour_text (drop tables.now.own tables.now.systems)) }
{
    let own = tables.own_count();
    let count = tables.system_count() - own;
    for i in 0..count {
        put_neighbour(text, tables.system(SystemId((own + i) as u8)))?;
    }
    Ok(())
}

/// Adds the tables of a switch.
#[tactic(auto, unfolding(crate::specs::CascadeText::parts_text), using(std::proofs::Common::append_assoc))]
fn put_parts(text: &mut String, tables: &Tables) -> Result<(), AllocError>
    ensures { OnOk result
        (string_bytes text.new ≡ string_bytes text.old ++ spec.parts_text tables.now) }
{
    put_systems(text, ABOVE, tables, tables.own_count())?;
    put_neighbours(text, tables)?;
    put_links(text, ABOVE, tables)?;
    put_ports(text, ABOVE, tables)
}

/// Adds a switch.
#[tactic(auto, unfolding(crate::specs::CascadeText::switch_text), using(std::proofs::Common::append_assoc))]
fn put_switch(text: &mut String, name: &str, tables: &Tables) -> Result<(), AllocError>
    ensures { OnOk result (string_bytes text.new
        ≡ string_bytes text.old ++ spec.switch_text (named_rows name.now tables.now)) }
{
    text.push_str("[[switch]]\n")?;
    put_text(text, "name", name)?;
    put_top(text, tables)?;
    put_parts(text, tables)
}

/// Adds an empty line and a switch.
#[tactic(auto, using(std::proofs::Common::append_assoc))]
fn put_next(text: &mut String, name: &str, tables: &Tables) -> Result<(), AllocError>
    ensures { OnOk result (string_bytes text.new ≡ string_bytes text.old
        ++ (codes "\n" ++ spec.switch_text (named_rows name.now tables.now))) }
{
    text.push_str("\n")?;
    put_switch(text, name, tables)
}

/// The text of a configuration with the tables of these switches, in one layout: each switch as
/// one switch is written, with its name first and its neighbours behind its systems. It reads back
/// as these switches.
pub fn cascade_text(alloc: Global, switches: &Switches) -> Result<String, AllocError>
    ensures text { IfOk result (λ text. string_bytes text ≡ spec.cascade_text switches.now) }
    ensures spells { IfOk result
        (λ text. Describes (string_bytes text) (Several switches.now)) }
{
    let count = switches.id_count();
    let mut text = String::new(alloc);
    let first = SwitchId(0);
    put_switch(&mut text, switches.name(first), switches.tables(first))?;
    for i in 1..count {
        let switch = SwitchId(i);
        put_next(&mut text, switches.name(switch), switches.tables(switch))?;
    }
    Ok(text)
}
