//! Tables as the text of a configuration.

ghost use Rattle.std.specs.Prelude.{◌≡◌, ◌++◌, ◌<◌, ◌≤◌, length, take, map, string_bytes};
ghost use Rattle.std.specs.Prelude.{IfOk, OnOk, codes};
ghost use Rattle.std.specs.List.{AllByRecursion, flat_map};
ghost use Rattle.afdx_config.specs.Rows.{AreKnown, system_row, link_row, port_row, system_places};
ghost use Rattle.afdx_frame.specs.Ports.{last_port};
ghost use Rattle.afdx_config.specs.Lawful.{IsLinkUpTo, IsPort, jitter_from_any};
ghost use Rattle.afdx_config.specs.Reading.{Spells};
ghost use Rattle.afdx_solve.specs.ConfigText.{number_line, text_line, texts_line, header, listed};
ghost use Rattle.afdx_solve.specs.ConfigText.{class_word, policing_word, kind_word, name_at};
ghost use Rattle.afdx_solve.specs.ConfigText.{system_text, way_text, traffic_text, treatment_text};
ghost use Rattle.afdx_solve.specs.ConfigText.{link_text, port_text, top_text, config_text};

use afdx_config::{ComRow, Kind, Link, System, SystemId, Tables};
use afdx_frame::{Policing, Priority};
use std::alloc::{AllocError, Global};
use std::fmt::Write;

/// Adds a key with a whole number.
#[tactic(auto, unfolding(crate::specs::ConfigText::number_line))]
pub(crate) fn put_number(text: &mut String, key: &str, number: u64) -> Result<(), AllocError>
    ensures { OnOk result
        (string_bytes text.new ≡ string_bytes text.old ++ number_line key.now number) }
{
    write!(text, "{key} = {number}\n")
}

/// Adds a key with a text.
#[tactic(auto, unfolding(crate::specs::ConfigText::text_line))]
pub(crate) fn put_text(text: &mut String, key: &str, value: &str) -> Result<(), AllocError>
    ensures { OnOk result
        (string_bytes text.new ≡ string_bytes text.old ++ text_line key.now value.now) }
{
    write!(text, "{key} = \"{value}\"\n")
}

/// Adds an empty line and the header of a table. Its key is `above` and its own.
#[tactic(auto, unfolding(crate::specs::ConfigText::header))]
pub(crate) fn put_header(text: &mut String, above: &str, key: &str) -> Result<(), AllocError>
    ensures { OnOk result
        (string_bytes text.new ≡ string_bytes text.old ++ header above.now key.now) }
{
    write!(text, "\n[[{above}{key}]]\n")
}

/// Adds a system.
#[tactic(auto, unfolding(crate::specs::ConfigText::system_text), using(std::proofs::Common::append_assoc))]
pub(crate) fn put_system(text: &mut String, above: &str, system: &System) -> Result<(), AllocError>
    ensures { OnOk result (string_bytes text.new
        ≡ string_bytes text.old ++ system_text above.now (system_row system.now)) }
{
    put_header(text, above, "system")?;
    put_text(text, "name", &system.name)?;
    put_number(text, "port", u64::from(system.port))?;
    put_number(text, "id", u64::from(system.id))?;
    put_number(text, "partition", u64::from(system.partition))?;
    put_number(text, "rate", system.rate)
}

/// The name of the system at a place.
#[tactic(auto, unfolding(crate::specs::ConfigText::name_at))]
fn name_of(tables: &Tables, id: SystemId) -> &str
    requires { id.0 < length tables.now.systems }
    ensures { result.now ≡ name_at tables.now.systems id.0 }
{
    &tables.system(id).name
}

/// Adds the names of some systems in quotes, with commas between them.
#[tactic(auto, using(std::proofs::Common::append_assoc))]
fn put_names(text: &mut String, tables: &Tables, systems: &[SystemId]) -> Result<(), AllocError>
    requires { AreKnown tables.now.systems systems.now }
    ensures { OnOk result (string_bytes text.new ≡ string_bytes text.old
        ++ listed (map (name_at tables.now.systems) (system_places systems.now))) }
{
    match systems {
        [] => Ok(()),
        [last] => {
            let name = name_of(tables, *last);
            write!(text, "\"{name}\"")
        }
        [first, rest @ ..] => {
            let name = name_of(tables, *first);
            write!(text, "\"{name}\", ")?;
            put_names(text, tables, rest)
        }
    }
}

/// Adds the receivers of a link.
#[tactic(auto, unfolding(crate::specs::ConfigText::texts_line), using(std::proofs::Common::append_assoc))]
fn put_receivers(text: &mut String, tables: &Tables, link: &Link) -> Result<(), AllocError>
    requires { IsLinkUpTo jitter_from_any (length tables.now.systems) (link_row link.now) }
    ensures { OnOk result (string_bytes text.new ≡ string_bytes text.old
        ++ texts_line (codes "to") (map (name_at tables.now.systems) (link_row link.now).to)) }
{
    write!(text, "to = [")?;
    put_names(text, tables, link.to.as_slice())?;
    write!(text, "]\n")
}

/// Adds who sends a link to whom.
#[tactic(auto, using(std::proofs::Common::append_assoc))]
fn put_way(text: &mut String, tables: &Tables, link: &Link) -> Result<(), AllocError>
    requires { IsLinkUpTo jitter_from_any (length tables.now.systems) (link_row link.now) }
    ensures { OnOk result (string_bytes text.new
        ≡ string_bytes text.old ++ way_text tables.now.systems (link_row link.now)) }
{
    put_number(text, "vl", u64::from(link.vl.0))?;
    put_text(text, "from", name_of(tables, link.from))?;
    put_receivers(text, tables, link)
}

/// Adds how much a link may send.
#[tactic(auto, using(std::proofs::Common::append_assoc))]
fn put_traffic(text: &mut String, link: &Link) -> Result<(), AllocError>
    ensures { OnOk result
        (string_bytes text.new ≡ string_bytes text.old ++ traffic_text (link_row link.now)) }
{
    put_number(text, "bag_ms", link.bag_ms)?;
    put_number(text, "lmin", link.lmin)?;
    put_number(text, "lmax", link.lmax)?;
    put_number(text, "jitter_us", link.jitter_us)
}

/// A class in a word.
fn class_word(priority: Priority) -> &'static str
    ensures { result.now ≡ class_word priority }
{
    match priority {
        Priority::High => "high",
        Priority::Low => "low",
    }
}

/// How a link is policed, in a word.
fn policing_word(policing: Policing) -> &'static str
    ensures { result.now ≡ policing_word policing }
{
    match policing {
        Policing::Byte => "byte",
        Policing::Frame => "frame",
    }
}

/// Adds how the frames of a link are treated.
#[tactic(auto, using(std::proofs::Common::append_assoc))]
fn put_treatment(text: &mut String, link: &Link) -> Result<(), AllocError>
    ensures { OnOk result
        (string_bytes text.new ≡ string_bytes text.old ++ treatment_text (link_row link.now)) }
{
    put_text(text, "priority", class_word(link.priority))?;
    put_text(text, "policing", policing_word(link.policing))?;
    put_number(text, "latency_us", link.latency_us)?;
    put_number(text, "skew_us", link.skew_us)?;
    put_number(text, "subs", link.subs)
}

/// Adds a link.
#[tactic(auto, unfolding(crate::specs::ConfigText::link_text), using(std::proofs::Common::append_assoc))]
fn put_link(text: &mut String, above: &str, tables: &Tables, link: &Link) -> Result<(), AllocError>
    requires { IsLinkUpTo jitter_from_any (length tables.now.systems) (link_row link.now) }
    ensures { OnOk result (string_bytes text.new
        ≡ string_bytes text.old ++ link_text above.now tables.now.systems (link_row link.now)) }
{
    put_header(text, above, "link")?;
    put_way(text, tables, link)?;
    put_traffic(text, link)?;
    put_treatment(text, link)
}

/// A kind of port in a word.
fn kind_word(kind: Kind) -> &'static str
    ensures { result.now ≡ kind_word kind }
{
    match kind {
        Kind::Sampling => "sampling",
        Kind::Queuing => "queuing",
    }
}

/// Adds a communication port.
#[tactic(auto, unfolding(crate::specs::ConfigText::port_text), using(std::proofs::Common::append_assoc))]
fn put_port(
    text: &mut String,
    above: &str,
    tables: &Tables,
    port: &ComRow,
) -> Result<(), AllocError>
    requires { IsPort (length tables.now.systems) tables.now.links (port_row port.now) }
    ensures { OnOk result (string_bytes text.new
        ≡ string_bytes text.old ++ port_text above.now tables.now.systems (port_row port.now)) }
{
    put_header(text, above, "port")?;
    put_text(text, "system", name_of(tables, port.system))?;
    put_number(text, "link", u64::from(port.link.0))?;
    put_number(text, "udp", u64::from(port.udp))?;
    put_text(text, "kind", kind_word(port.kind))?;
    put_number(text, "depth", port.depth)
}

/// Adds the first systems, as many as this.
pub(crate) fn put_systems(
    text: &mut String,
    above: &str,
    tables: &Tables,
    count: usize,
) -> Result<(), AllocError>
    requires count { count ≤ length tables.now.systems }
    requires few { count ≤ last_port }
    ensures { OnOk result (string_bytes text.new ≡ string_bytes text.old
        ++ flat_map (system_text above.now) (take count tables.now.systems)) }
{
    for i in 0..count {
        put_system(text, above, tables.system(SystemId(i as u8)))?;
    }
    Ok(())
}

/// Adds all links.
pub(crate) fn put_links(text: &mut String, above: &str, tables: &Tables) -> Result<(), AllocError>
    ensures { OnOk result (string_bytes text.new ≡ string_bytes text.old
        ++ flat_map (link_text above.now tables.now.systems) tables.now.links) }
{
    let count = tables.link_count();
    for i in 0..count {
        put_link(text, above, tables, tables.link(i))?;
    }
    Ok(())
}

/// Adds all communication ports.
pub(crate) fn put_ports(text: &mut String, above: &str, tables: &Tables) -> Result<(), AllocError>
    ensures { OnOk result (string_bytes text.new ≡ string_bytes text.old
        ++ flat_map (port_text above.now tables.now.systems) tables.now.ports) }
{
    let count = tables.com_count();
    for i in 0..count {
        put_port(text, above, tables, tables.com(i))?;
    }
    Ok(())
}

/// Adds the two keys of the top.
#[tactic(auto, using(std::proofs::Common::append_assoc))]
pub(crate) fn put_top(text: &mut String, tables: &Tables) -> Result<(), AllocError>
    ensures { OnOk result
        (string_bytes text.new ≡ string_bytes text.old ++ top_text tables.now) }
{
    put_number(text, "profile", tables.profile())?;
    put_number(text, "buffer", tables.buffer())
}

/// The text of the configuration of one switch with these tables, in one layout: the keys of each
/// table in the order of their numbers. It reads back as these tables, if none of what stands at
/// the ports is a neighbour.
#[tactic(auto, using(std::proofs::Common::append_assoc))]
pub fn config_text(alloc: Global, tables: &Tables) -> Result<String, AllocError>
    ensures text { IfOk result (λ text. string_bytes text ≡ config_text tables.now) }
    ensures spells { tables.now.own ≡ length tables.now.systems →
        IfOk result (λ text. Spells (string_bytes text) tables.now) }
{
    let mut text = String::new(alloc);
    put_top(&mut text, tables)?;
    put_systems(&mut text, "", tables, tables.system_count())?;
    put_links(&mut text, "", tables)?;
    put_ports(&mut text, "", tables)?;
    Ok(text)
}
